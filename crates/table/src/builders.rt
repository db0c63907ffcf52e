// The calls "Build" and "Build a bank" of document 01.
ghost use Rattle.std.specs.Prelude.{◌≡◌, ◌+◌, ◌≤◌, ◌^◌, length};
ghost use Rattle.units.specs.Refusals.{reply_of, refusal, table_tests};
ghost use Rattle.entry.specs.Rule.{rule_field};
ghost use Rattle.table.specs.Build.{rows, built, bank_tests, bank_built};

use crate::banks::{bank_at, bank_in_table};
use entry::{Place, left_end, quotient_before};
use units::{GoodShape, Interval, Refusal, Shape, widths};

// Writes the rule's field of each interval from a place on into a cell of its own. One division a cell.
fn fill(first: Place, cells: &mut [u16])
    requires { first.n.0 + length cells.old ≤ 2 ^ first.shape.k }
    ensures { cells.new ≡ rows (rule_field first.shape) first.n.0 (length cells.old) }
{
    let good = GoodShape { shape: first.shape };
    let mut even = 2 * left_end(first).0;
    let mut quotient = quotient_before(first);
    for cell in cells.iter_mut() {
        quotient = quotient.next();
        *cell = quotient.field_past(good, even);
        even += 2;
    }
}

#[tactic(auto, using(units::proofs::Laws::Tests::refusal_numbered), unfolding(units::specs::Refusals::answer))]
fn buildable(shape: Shape, h: u32, b: u32, lent: usize) -> Result<(), Refusal>
    ensures { reply_of result ≡ refusal (bank_tests shape h b lent) }
{
    widths(shape).and(bank_in_table(shape.k, h, b, lent))
}

// "For h from 0 to k, bank b (0 to 2^h - 1) is the 2^(k-h) entries from b·2^(k-h) on. The call fills
// only that bank's cells, in their place within the lent table."
pub fn build_bank(shape: Shape, h: u32, b: u32, table: &mut [u16]) -> Result<(), Refusal>
    ensures answer { reply_of result ≡ refusal (bank_tests shape h b (length table.old)) }
    ensures cells { table.new ≡ bank_built shape h b table.old }
{
    buildable(shape, h, b, table.len())?;
    let bank = bank_at(shape.k, h, b);
    let n = Interval(bank.start as u32);
    // A mutable part from the middle of the lent table is passed on to the filling function.
    fill(Place { shape, n }, &mut table[bank]);
    Ok(())
}

// "Build writes fields 0 to 2^k - 1. Cells after them keep their value." The table is its own one
// bank at h = 0.
pub fn build(shape: Shape, table: &mut [u16]) -> Result<(), Refusal>
    ensures answer { reply_of result ≡ refusal (table_tests shape (length table.old)) }
    ensures cells { table.new ≡ built shape table.old }
{
    build_bank(shape, 0, 0, table)
}
