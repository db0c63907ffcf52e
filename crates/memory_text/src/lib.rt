// Memory text, as Verilog's $readmemh reads it: a table written as text, and read back from it.
#![tactic(auto)]

mod errors;
mod reading;
mod storing;
mod writing;

pub use errors::ReadError;
pub use reading::read_memory;
pub use writing::write_memory;
