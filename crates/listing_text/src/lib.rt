// The listing's text, byte for byte.
#![tactic(auto)]

mod best;
mod digits;
mod lines;
mod page;
mod pages;

pub use best::BestTable;
pub use lines::{LINE_MOST, put_refused};
pub use pages::{Filled, fill_page, line_count};
