// What a token says, or that it says nothing.
use units::Offset;

// A token that says nothing, by the offset of its first byte.
#[derive(Clone, Copy, Debug, PartialEq, Eq)]
pub struct Faulty(pub Offset);

// "@ addresses in hex", or a value: its number.
#[derive(Clone, Copy, Debug, PartialEq, Eq)]
pub enum Said {
    Address(u32),
    Value(u32),
}

// Where a token begins, and what it says.
#[derive(Clone, Copy, Debug, PartialEq, Eq)]
pub struct Word {
    pub from: Offset,
    pub says: Said,
}
