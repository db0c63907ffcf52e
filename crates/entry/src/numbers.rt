// The numbers that document 01 makes of a shape and an index.
ghost use Rattle.std.specs.Prelude.{◌≡◌};
ghost use Rattle.entry.specs.Errors.{unit, i_of};

use crate::places::Place;
use units::{GoodShape, LeftEnd, power};

// 2^P, in whose parts errors are counted.
pub fn unit_of(good: GoodShape) -> u64
    ensures { result ≡ unit good.shape }
{
    power(good.shape.k + good.shape.m + 1)
}

// i = 2^k + n, in the 64 bits that its products want.
pub fn left_number(place: Place) -> u64
    ensures { result ≡ i_of place.shape place.n.0 }
{
    power(place.shape.k) + place.n.0 as u64
}

// The same as a `LeftEnd`.
pub fn left_end(place: Place) -> LeftEnd
    ensures { result.0 ≡ i_of place.shape place.n.0 }
{
    LeftEnd(left_number(place) as u32)
}
