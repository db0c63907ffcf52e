// One entry of a reciprocal table: its exact errors, its best value, and the test whether a value is
// best. `entry_error` is a call of document 01; the rest is for the crates above.
#![tactic(auto)]

mod call;
mod choice;
mod fields;
mod measure;
mod numbers;
mod places;
mod quotients;

pub use call::{entry_error, entry_placed, placed};
pub use choice::{best_field, least};
pub use fields::{entry_of, fields_of, is_wide};
pub use measure::{Errors, errors_of, larger_of, side_of};
pub use numbers::{left_end, unit_of};
pub use places::{Place, PlacedEntry};
pub use quotients::quotient_before;
