// What a call's tests let through to the functions below it, as values that need no test.
ghost use Rattle.entry.specs.Inner.Good.{GoodPlace, GoodEntry};

use units::{Entry, Interval, Shape};

// An interval of a table whose widths are from 1 to 15.
#[derive(Clone, Copy)]
pub struct Place {
    pub shape: Shape,
    pub n: Interval,
    pub ghost good: { GoodPlace shape n.0 },
}

// A value over an interval of such a table: above 0, and within the cap.
#[derive(Clone, Copy)]
pub struct PlacedEntry {
    pub shape: Shape,
    pub n: Interval,
    pub j: Entry,
    pub ghost good: { GoodEntry shape n.0 j.0 },
}
