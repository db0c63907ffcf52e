ghost use Rattle.std.specs.Prelude.{◌≡◌, pos, nat_abs};
ghost use Rattle.std.specs.Int.Signed.{lt_z};
ghost use Rattle.units.specs.Sides.{side_number};

// "Interval numbers count in 1/2^k, entry numbers in 1/2^(m+1), error numbers in 1/2^(k+m+1) ..
// Each count must be kept apart from the others by its kind." (Document 01, "Numbers and their
// units".)

// The number n of an interval, from 0 to 2^k - 1.
#[derive(Clone, Copy, Debug, PartialEq, Eq, PartialOrd, Ord)]
pub struct Interval(pub u32);

// The left end i = 2^k + n of an interval, which is at i/2^k.
#[derive(Clone, Copy, Debug, PartialEq, Eq, PartialOrd, Ord)]
pub struct LeftEnd(pub u32);

// The number j of an entry, which stands for j/2^(m+1).
#[derive(Clone, Copy, Debug, PartialEq, Eq, PartialOrd, Ord)]
pub struct Entry(pub u32);

// The number s of places by which a divisor X is shifted to X·2^s.
#[derive(Clone, Copy, Debug, PartialEq, Eq, PartialOrd, Ord)]
pub struct Shift(pub u32);

// The offset of a byte in a text, which counts bytes from 0. A text's length is the offset of its end.
#[derive(Clone, Copy, Debug, PartialEq, Eq, PartialOrd, Ord)]
pub struct Offset(pub usize);

// An error at one end of an interval, in parts of 2^(k+m+1). It has a sign.
#[derive(Clone, Copy, Debug, PartialEq, Eq, PartialOrd, Ord)]
pub struct Error(pub i64);

// The size of an error, in parts of 2^(k+m+1).
#[derive(Clone, Copy, Debug, PartialEq, Eq, PartialOrd, Ord)]
pub struct Worst(pub u64);

// The end of the interval at which an entry's error is larger in size.
#[derive(Clone, Copy, Debug, PartialEq, Eq)]
pub enum Side {
    Left = 0,
    Right = 1,
}

impl Error {
    // Whether it is below zero.
    pub fn is_negative(self) -> bool
        ensures { result ≡ lt_z self.0 (pos 0) }
    {
        self.0 < 0
    }

    // Its size.
    pub fn size(self) -> Worst
        ensures { result.0 ≡ nat_abs self.0 }
    {
        Worst(self.0.unsigned_abs())
    }
}

impl Side {
    // Document 01's number for it.
    pub fn number(self) -> u32
        ensures { result ≡ side_number self }
    {
        self as u32
    }
}
