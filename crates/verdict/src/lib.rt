// The call "Check" of document 01: whether every entry of a table is best.
#![tactic(auto)]

ghost use Rattle.std.specs.Prelude.{◌≡◌, false, ◌≤◌, ◌^◌, Err, length};
ghost use Rattle.entry.specs.Errors.{unit, i_of, worst};
ghost use Rattle.entry.specs.Least.{least_worst, is_best};
ghost use Rattle.table.specs.Wide.{any_wide};
ghost use Rattle.verdict.specs.declared.NotPassed.TheVariants.{Faulty};
ghost use Rattle.verdict.specs.Check.{reported, not_best, first_failing, check_report};

use entry::{Place, PlacedEntry, entry_of, larger_of, least, quotient_before};
use table::whole_fields;
use units::{Fault, GoodShape, Interval, Shape, Worst, power};

// Why a table does not pass: the first entry that is not best, with its worst error and the least one; or
// the table is none.
#[derive(Clone, Copy, Debug, PartialEq, Eq)]
pub enum NotPassed {
    NotBest {
        n: Interval,
        worst: Worst,
        least: Worst,
    },
    Faulty(Fault),
}

impl From<Fault> for NotPassed {
    ghost from_gives = { λ fault e. e ≡ Faulty fault };

    fn from(fault: Fault) -> NotPassed {
        NotPassed::Faulty(fault)
    }
}

// The entry, with its worst error and the least one.
fn not_best(entry: PlacedEntry) -> NotPassed
    ensures { reported (Err result) ≡ not_best entry.n.0 (worst (unit entry.shape) (i_of entry.shape entry.n.0) entry.j.0) (least_worst entry.shape entry.n.0) }
{
    let (shape, n) = (entry.shape, entry.n);
    let worst = larger_of(entry).worst;
    let least = least(Place { shape, n });
    NotPassed::NotBest { n, worst, least }
}

// "The scan ends there and yields that finding": the loop's break gives the first entry that isn't best,
// or yes at the end. Document 01 names this form, and no other loop has a break that gives a value. The
// builder's quotient goes along: one product and no division for an entry that passes.
fn scan(good: GoodShape, cells: &[u16]) -> Result<(), NotPassed>
    requires fits { length cells.now ≤ 2 ^ good.shape.k }
    requires narrow { any_wide good.shape cells.now ≡ false }
    ensures { reported result ≡ first_failing (is_best good.shape) good.shape 0 cells.now }
{
    let shape = good.shape;
    let first = Interval(0);
    let mut quotient = quotient_before(Place { shape, n: first });
    let mut at: usize = 0;
    loop {
        if cells.len() <= at {
            break Ok(());
        }
        quotient = quotient.next();
        if !quotient.is_best(good, cells[at]) {
            let n = Interval(at as u32);
            let j = entry_of(good, cells[at]);
            break Err(not_best(PlacedEntry { shape, n, j }));
        }
        at += 1;
    }
}

// "Check answers yes, or the smallest n whose entry is not best, with its worst error and the least
// one."
pub fn check(shape: Shape, table: &[u16]) -> Result<(), NotPassed>
    ensures { reported result ≡ check_report shape table.now }
{
    let good = whole_fields(shape, table)?;
    let size = power(shape.k) as usize;
    scan(good, &table[..size])
}
