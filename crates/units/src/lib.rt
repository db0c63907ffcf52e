// The kinds of numbers that a reciprocal table is counted in, the kinds and the shape of a table, the
// numbers by which a call is refused, and powers of two. Every crate above stands on this one.
#![tactic(auto)]

mod counts;
mod good;
mod kinds;
mod powers;
mod refusals;
mod shapes;

pub use counts::{Entry, Error, Interval, LeftEnd, Offset, Shift, Side, Worst};
pub use good::GoodShape;
pub use kinds::Kind;
pub use powers::{power, small_power};
pub use refusals::{
    Fault, Refusal, bank_height, bank_number, divisor_range, few_cells, input_width,
    interval_place, number_of, whole_table, widths,
};
pub use shapes::Shape;
