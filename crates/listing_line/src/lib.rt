// The listing's input line.
#![tactic(auto)]

mod asked;
mod line;

pub use asked::Asked;
pub use line::read_line;
