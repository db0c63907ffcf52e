// The exact worst error of any table: a running tally, the survey of a table, and that of a bank.
#![tactic(auto)]

mod surveys;
mod tallies;

pub use surveys::{bank, bank_of, whole};
pub use tallies::{Finding, NotTaken, Tally};
