// The builder's rule as a division.
ghost use Rattle.std.specs.Prelude.{◌≡◌, ◌+◌, ◌-◌, ◌/◌, ◌^◌, ◌≤◌, ◌<◌, min};
ghost use Rattle.entry.specs.Fields.{fields_end};
ghost use Rattle.entry.specs.Inner.Quotient.{Before, slack, meets};

use crate::fields::fields_of;
use crate::numbers::left_number;
use crate::places::Place;
use units::{GoodShape, power};

// Two numbers below 2^32, and how far the first falls and the second rises from one interval to the
// next. At interval n, with i = 2^k + n, they are
//
//     over = 2^(k+m+2) + i - (2i+1)·2^m    and    by = 2i+1,
//
// so over/by, rounded down, is the whole number nearest to 2^(k+m+2)/(2i+1), less the 2^m that is not
// stored; over falls by 2^(m+1) - 1 and by rises by 2. It is worked out as (2^(k+2) - by)·2^m + i.
#[derive(Clone, Copy)]
pub struct Quotient {
    pub over: u32,
    pub by: u32,
    pub fall: u32,
    pub rise: u32,
}

// At the interval before n, so that `next` comes to n: the builder moves on before each cell, and never
// past the last interval, where over could fall below 0.
pub fn quotient_before(place: Place) -> Quotient
    ensures { Before place.shape place.n.0 result }
{
    let i = left_number(place);
    let by = 2 * i - 1;
    let size = power(place.shape.m);
    Quotient {
        over: ((4 * power(place.shape.k) - by) * size + i - 1) as u32,
        by: by as u32,
        fall: (2 * size - 1) as u32,
        rise: 2,
    }
}

// The quotient as a field, but never above the last field.
#[tactic(auto, using(crate::proofs::Laws::Fields::fields_end_positive, crate::proofs::Laws::Fields::fields_end_bound))]
fn capped(good: GoodShape, quotient: u32) -> u16
    ensures { result ≡ min quotient (fields_end good.shape - 1) }
{
    quotient.min(fields_of(good).end - 1) as u16
}

impl Quotient {
    // At the next interval.
    pub fn next(self) -> Quotient
        requires { (self.fall ≤ self.over) × (self.by + self.rise < 2 ^ 32) }
        ensures { result ≡ record { over = self.over - self.fall; by = self.by + self.rise; fall = self.fall; rise = self.rise } }
    {
        Quotient {
            over: self.over - self.fall,
            by: self.by + self.rise,
            fall: self.fall,
            rise: self.rise,
        }
    }

    // The field: the quotient, but never above the last field. One division, of 32 bits.
    pub fn field(self, good: GoodShape) -> u16
        requires { 0 < self.by }
        ensures { result ≡ min (self.over / self.by) (fields_end good.shape - 1) }
    {
        capped(good, self.over / self.by)
    }

    // The same, where by is told as one more than 2i: of a divisor that the compiler sees to be odd it does
    // not test whether it is zero (docs/BENCHMARKS.md).
    pub fn field_past(self, good: GoodShape, even: u32) -> u16
        requires { (even < 2 ^ 31) × (self.by ≡ even + 1) }
        ensures { result ≡ min (self.over / self.by) (fields_end good.shape - 1) }
    {
        capped(good, self.over / (even + 1))
    }

    // Whether f is best: the division, multiplied back. One product and no division. Where nothing is left
    // over, the field below the quotient is as good.
    pub fn is_best(self, good: GoodShape, f: u16) -> bool
        ensures { result ≡ meets self.over self.by (slack good.shape) (fields_end good.shape) f }
    {
        let over = self.over as u64;
        let by = self.by as u64;
        let product = by * f as u64;
        product <= over && (f as u32 + 1 == fields_of(good).end || over < product + by + 1)
    }
}
