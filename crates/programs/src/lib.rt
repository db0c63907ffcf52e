// What the programs over the library share: a table of zeros, reading, the digest of cells and bytes, what
// is drawn, and how a shape is written.
#![tactic(auto)]

mod cells;
mod drawing;
mod kinds;
mod reading;

pub use cells::{Digest, digest_of, zeroed};
pub use drawing::Draws;
pub use kinds::Named;
pub use reading::read_full;
