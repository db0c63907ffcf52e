// Where a bank lies in a table.
ghost use Rattle.std.specs.Prelude.{◌≡◌, ◌+◌};
ghost use Rattle.units.specs.Refusals.{reply_of, refusal};
ghost use Rattle.table.specs.Inner.Good.{GoodBank};
ghost use Rattle.table.specs.Inner.Located.{located, bank_located};
ghost use Rattle.table.specs.Banks.{bank_size, bank_start, bank_name, bank_place, named_tests};

use std::ops::Range;
use units::{Refusal, Shape, bank_height, bank_number, few_cells, power, widths};

// The cells from first up to end, which is not among them. It can be copied, which a range cannot.
#[derive(Clone, Copy, Debug, PartialEq, Eq)]
pub struct Stretch {
    pub first: usize,
    pub end: usize,
}

// "bank b (0 to 2^h - 1) is the 2^(k-h) entries from b·2^(k-h) on"
pub(crate) fn bank_at(k: u32, h: u32, b: u32) -> Range<usize>
    requires { GoodBank k h b }
    ensures { (result.start ≡ bank_start k h b) × (result.end ≡ bank_start k h b + bank_size k h) }
{
    let size = power(k - h) as usize;
    let start = b as usize * size;
    start..start + size
}

// The tests 4 for h and b.
#[tactic(auto, using(units::proofs::Laws::Tests::refusal_numbered), unfolding(units::specs::Refusals::answer))]
fn bank_named(k: u32, h: u32, b: u32) -> Result<(), Refusal>
    ensures { reply_of result ≡ refusal (bank_name k h b) }
{
    bank_height(k, h).and(bank_number(h, b))
}

// The same, and 3, for every call that takes a bank of a lent table.
#[tactic(auto, using(units::proofs::Laws::Tests::refusal_numbered), unfolding(units::specs::Refusals::answer))]
pub(crate) fn bank_in_table(k: u32, h: u32, b: u32, lent: usize) -> Result<(), Refusal>
    ensures { reply_of result ≡ refusal (bank_place k h b lent) }
{
    bank_named(k, h, b).and(few_cells(lent, k))
}

// The tests 1, 2, and 4 for h and b.
#[tactic(auto, using(units::proofs::Laws::Tests::refusal_numbered), unfolding(units::specs::Refusals::answer))]
fn namable(shape: Shape, h: u32, b: u32) -> Result<(), Refusal>
    ensures { reply_of result ≡ refusal (named_tests shape h b) }
{
    widths(shape).and(bank_named(shape.k, h, b))
}

// Where bank b of 2^h lies in its table, after the same tests. It is lent no cell, so it does not ask
// for 3.
pub fn named_bank(shape: Shape, h: u32, b: u32) -> Result<Stretch, Refusal>
    ensures { located result ≡ bank_located shape h b }
{
    namable(shape, h, b)?;
    let bank = bank_at(shape.k, h, b);
    Ok(Stretch {
        first: bank.start,
        end: bank.end,
    })
}
