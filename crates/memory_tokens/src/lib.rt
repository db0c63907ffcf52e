// The tokens of a memory text, one after the other: what stands between them is passed, and each is an
// address, a value, or faulty.
#![tactic(auto)]

mod bytes;
mod comments;
mod numerals;
mod tokens;
mod words;

pub use tokens::next_token;
pub use words::{Faulty, Said, Word};
