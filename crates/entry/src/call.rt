// The call "Entry error" of document 01.
ghost use Rattle.std.specs.Prelude.{◌≡◌, IfOk};
ghost use Rattle.units.specs.Refusals.{reply_of, fault_reply_of, refusal};
ghost use Rattle.entry.specs.Errors.{j_of};
ghost use Rattle.entry.specs.Report.{reported, place_tests, entry_tests, entry_report};

use crate::fields::{entry_of, is_wide};
use crate::measure::{Errors, errors_of};
use crate::places::{Place, PlacedEntry};
use units::{Fault, GoodShape, Interval, Refusal, Shape, interval_place, widths};

// The tests 1, 2, and 4 for n, for every call that takes an interval.
#[tactic(auto, using(units::proofs::Laws::Tests::refusal_numbered), unfolding(units::specs::Refusals::answer))]
pub fn placed(shape: Shape, n: Interval) -> Result<Place, Refusal>
    ensures answer { reply_of result ≡ refusal (place_tests shape n.0) }
    ensures same { IfOk result (λ place. (place.shape ≡ shape) × (place.n ≡ n)) }
{
    let _ = widths(shape)?;
    interval_place(shape.k, n)?;
    Ok(Place { shape, n })
}

// The same tests, and 5, of a field that stands by itself; the entry that passes them has what the field
// stands for.
pub fn entry_placed(shape: Shape, n: Interval, f: u16) -> Result<PlacedEntry, Fault>
    ensures answer { fault_reply_of result ≡ refusal (entry_tests shape n.0 f) }
    ensures same { IfOk result (λ entry. (entry.shape ≡ shape) × ((entry.n ≡ n) × (entry.j.0 ≡ j_of shape f))) }
{
    let place = placed(shape, n)?;
    let good = GoodShape { shape: place.shape };
    if is_wide(good, f) {
        return Err(Fault::TooWide(n));
    }
    let j = entry_of(good, f);
    Ok(PlacedEntry { shape, n, j })
}

// "Entry error takes k, m, n, f and gives low, high, worst and side."
pub fn entry_error(shape: Shape, n: Interval, f: u16) -> Result<Errors, Fault>
    ensures { reported result ≡ entry_report shape n.0 f }
{
    let entry = entry_placed(shape, n, f)?;
    Ok(errors_of(entry))
}
