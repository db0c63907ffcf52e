ghost use Rattle.std.specs.Prelude.{◌≡◌, ◌+◌, ◌*◌, ◌≤◌, ◌<◌, ◌^◌, max, pos, ◌-ℤ◌, nat_abs};
ghost use Rattle.units.specs.Sides.{side_number};
ghost use Rattle.entry.specs.Errors.{unit, i_of, low, high, worst, side};
ghost use Rattle.entry.specs.Inner.Products.{low_of, high_of, side_by_middle};

use crate::numbers::{left_number, unit_of};
use crate::places::{Place, PlacedEntry};
use units::{Error, GoodShape, Side, Worst};

// "low, high, worst and side" of an entry, in parts of 2^(k+m+1).
#[derive(Clone, Copy, Debug, PartialEq, Eq)]
pub struct Errors {
    pub low: Error,
    pub high: Error,
    pub worst: Worst,
    pub side: Side,
}

// The size of the larger of an entry's two errors, and the sum of the products at both ends, (2i+1)·j,
// which tells the end that has it.
#[derive(Clone, Copy)]
pub struct Larger {
    pub worst: Worst,
    pub middle: u64,
}

// 2^(k+m+1), i·j and (i+1)·j: high is unit - left, and low is unit - right.
#[derive(Clone, Copy)]
struct Products {
    unit: u64,
    left: u64,
    right: u64,
}

// a - b, with its sign: the one place that makes a signed number.
fn difference(a: u64, b: u64) -> Error
    requires { (a < 2 ^ 63) × (b < 2 ^ 63) }
    ensures { result.0 ≡ pos a -ℤ pos b }
{
    Error((a as i64) - (b as i64))
}

// One multiplication: (i+1)·j is i·j and j more.
fn products_of(entry: PlacedEntry) -> Products
    ensures { result ≡ record { unit = unit entry.shape; left = i_of entry.shape entry.n.0 * entry.j.0; right = (i_of entry.shape entry.n.0 + 1) * entry.j.0 } }
{
    let value = entry.j.0 as u64;
    let left = left_number(Place {
        shape: entry.shape,
        n: entry.n,
    }) * value;
    let right = left + value;
    let unit = unit_of(GoodShape { shape: entry.shape });
    Products { unit, left, right }
}

// The end that has the larger error: the left one where the middle of the products is below the unit.
pub fn side_of(good: GoodShape, middle: u64) -> Side
    ensures { side_number result ≡ side_by_middle (unit good.shape) middle }
{
    if middle < 2 * unit_of(good) {
        Side::Left
    } else {
        Side::Right
    }
}

impl Products {
    // The same test tells the larger size.
    fn larger(self) -> Larger
        requires { (self.left < self.right) × ((self.right ≤ 2 ^ 32) × (self.unit ≤ 2 ^ 31)) }
        ensures { (result.worst.0 ≡ max (nat_abs (low_of self)) (nat_abs (high_of self))) × (result.middle ≡ self.left + self.right) }
    {
        let middle = self.left + self.right;
        let worst = if middle < 2 * self.unit {
            self.unit - self.left
        } else {
            self.right - self.unit
        };
        Larger {
            worst: Worst(worst),
            middle,
        }
    }
}

// The larger of the errors of the value j over interval n.
pub fn larger_of(entry: PlacedEntry) -> Larger
    ensures { (result.worst.0 ≡ worst (unit entry.shape) (i_of entry.shape entry.n.0) entry.j.0) × (side_by_middle (unit entry.shape) result.middle ≡ side (unit entry.shape) (i_of entry.shape entry.n.0) entry.j.0) }
{
    products_of(entry).larger()
}

// The errors of the value j over interval n.
pub fn errors_of(entry: PlacedEntry) -> Errors
    ensures low_is { result.low.0 ≡ low (unit entry.shape) (i_of entry.shape entry.n.0) entry.j.0 }
    ensures high_is { result.high.0 ≡ high (unit entry.shape) (i_of entry.shape entry.n.0) entry.j.0 }
    ensures worst_is { result.worst.0 ≡ worst (unit entry.shape) (i_of entry.shape entry.n.0) entry.j.0 }
    ensures side_is { side_number result.side ≡ side (unit entry.shape) (i_of entry.shape entry.n.0) entry.j.0 }
{
    let e = products_of(entry);
    let larger = e.larger();
    Errors {
        low: difference(e.unit, e.right),
        high: difference(e.unit, e.left),
        worst: larger.worst,
        side: side_of(GoodShape { shape: entry.shape }, larger.middle),
    }
}
