// Reciprocal tables, k bits of a divisor in and m bits of its reciprocal out: every call and type of the
// documents. Every call takes any numbers and any cells, ends, and answers a refusal number where it
// cannot do what was asked; a refused call writes nothing.
#![tactic(auto)]

// The kinds of numbers: n of an interval, j of an entry, an error with its sign, and its size; s of a
// divisor's shift; the side of an entry at which its error is larger; the offset of a byte in a text;
// the shape of a table and its kind, plain or with one; the refusals with their numbers, and a fault of
// a table's fields, which is one of them or names an interval.
pub use units::{
    Entry, Error, Fault, Interval, Kind, Offset, Refusal, Shape, Shift, Side, Worst, number_of,
};

// Build: fields 0 to 2^k - 1 of the best table; cells after them keep their value.
pub use table::build;

// Build a bank: only that bank's cells, in their place within the lent table.
pub use table::build_bank;

// Show a bank: that stretch of the lent table itself, and the number where it is empty.
pub use table::{show_bank, show_bank_number};

// Entry error: low, high, worst and side of one entry.
pub use entry::{Errors, entry_error};

// Survey: the largest worst error of any table, the smallest n that has it, and its side; by a tally
// that takes one entry at a time, of a whole table, and of a bank by itself or in its table.
pub use survey::{
    Finding, NotTaken, Tally, bank as survey_bank, bank_of as survey_bank_of, whole as survey_table,
};

// Check: Ok exactly where every entry is best, or the first that is not.
pub use verdict::{NotPassed, check as check_table};

// Look up: s, n and j of a divisor.
pub use table::{Found, look_up};

// Write memory, read memory: a table as the hex memory text that Verilog's $readmemh reads, and back.
pub use memory_text::{ReadError, read_memory, write_memory};
