// The call "Look up" of document 01, for divisors as document 02 has them.
ghost use Rattle.std.specs.Prelude.{◌≡◌, ◌*◌, ◌≤◌, ◌<◌, ◌^◌, IfOk};
ghost use Rattle.units.specs.Refusals.{reply_of, refusal};
ghost use Rattle.table.specs.Lookup.{index_of, divisor_tests, reported, lookup_report};
ghost use Rattle.table.specs.Shift.{shift_of};

use entry::fields_of;
use units::{Entry, Fault, GoodShape, Interval, Refusal, Shape, Shift, divisor_range, whole_table};

// What "Look up" finds: "s with n and j".
#[derive(Clone, Copy, Debug, PartialEq, Eq)]
pub struct Found {
    pub s: Shift,
    pub n: Interval,
    pub j: Entry,
}

// "the least s that brings it to 32768 or more": the zeros before X's first bit, of 16.
fn shift_of(x: u32) -> Shift
    requires { (1 ≤ x) × (x ≤ 65535) }
    ensures { result.0 ≡ shift_of x }
{
    Shift(x.leading_zeros() - 16)
}

// X·2^s.
fn shifted_by(x: u32, s: Shift) -> u32
    requires { (x ≤ 65535) × (s.0 ≤ 15) }
    ensures { result ≡ x * 2 ^ s.0 }
{
    x << s.0
}

// "The index is floor(X/2^(15-k)) - 2^k." The 2^k is X's first bit, 2^15, shifted: it is taken off before.
fn index_of(good: GoodShape, x: u32) -> usize
    requires { (2 ^ 15 ≤ x) × (x < 2 ^ 16) }
    ensures { result ≡ index_of good.shape x }
{
    ((x - 32768) >> (15 - good.shape.k)) as usize
}

#[tactic(auto, using(units::proofs::Laws::Tests::refusal_numbered), unfolding(units::specs::Refusals::answer))]
fn findable(shape: Shape, x: u32, lent: usize) -> Result<GoodShape, Refusal>
    ensures answer { reply_of result ≡ refusal (divisor_tests shape x lent) }
    ensures same { IfOk result (λ good. good.shape ≡ shape) }
{
    let good = whole_table(shape, lent)?;
    divisor_range(x)?;
    Ok(good)
}

// "Lookup shall take any X from 1 to 65535, shift it left by the least s that brings it to 32768 or
// more, and give s with n and j." So x = X·2^s/32768. "Of all the cells, its answer depends on cell n
// alone."
pub fn look_up(shape: Shape, x: u32, table: &[u16]) -> Result<Found, Fault>
    ensures { reported result ≡ lookup_report shape x table.now }
{
    let good = findable(shape, x, table.len())?;
    let fields = fields_of(good);
    let s = shift_of(x);
    let at = index_of(good, shifted_by(x, s));
    let n = Interval(at as u32);
    let f = table[at];
    if fields.is_wide(f) {
        return Err(Fault::TooWide(n));
    }
    let j = fields.entry(f);
    Ok(Found { s, n, j })
}
