// The best value of an interval.
ghost use Rattle.std.specs.Prelude.{◌≡◌};
ghost use Rattle.entry.specs.Least.{least_worst};
ghost use Rattle.entry.specs.Rule.{rule_value, rule_field};

use crate::fields::entry_of;
use crate::measure::larger_of;
use crate::places::{Place, PlacedEntry};
use crate::quotients::quotient_before;
use units::{Entry, GoodShape, Worst};

// The field that the builder stores for an interval.
pub fn best_field(place: Place) -> u16
    ensures { result ≡ rule_field place.shape place.n.0 }
{
    quotient_before(place)
        .next()
        .field(GoodShape { shape: place.shape })
}

// The builder's value for it.
fn best(place: Place) -> Entry
    ensures { result.0 ≡ rule_value place.shape place.n.0 }
{
    entry_of(GoodShape { shape: place.shape }, best_field(place))
}

// The least worst error that any value has over it.
pub fn least(place: Place) -> Worst
    ensures { result.0 ≡ least_worst place.shape place.n.0 }
{
    larger_of(PlacedEntry {
        shape: place.shape,
        n: place.n,
        j: best(place),
    })
    .worst
}
