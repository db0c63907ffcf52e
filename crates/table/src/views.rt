// The call "Show a bank" of document 01, and its companion.
ghost use Rattle.std.specs.Prelude.{◌≡◌, length};
ghost use Rattle.units.specs.Refusals.{reply_of, refusal};
ghost use Rattle.table.specs.Banks.{view_tests, shown};

use crate::banks::{bank_at, bank_in_table};
use units::{Refusal, input_width};

// "Show a bank hands the caller that stretch of the lent table itself": a returned part of the
// caller's slice, empty on refusal.
pub fn show_bank(k: u32, h: u32, b: u32, table: &[u16]) -> &[u16]
    ensures { result.now ≡ shown k h b table.now }
{
    match show_bank_number(k, h, b, table) {
        Ok(()) => {
            let bank = bank_at(k, h, b);
            &table[bank]
        }
        Err(_) => &table[..0],
    }
}

// "an empty stretch means refusal, and a companion call with the same inputs gives the number"
#[tactic(auto, using(units::proofs::Laws::Tests::refusal_numbered), unfolding(units::specs::Refusals::answer))]
pub fn show_bank_number(k: u32, h: u32, b: u32, table: &[u16]) -> Result<(), Refusal>
    ensures { reply_of result ≡ refusal (view_tests k h b (length table.now)) }
{
    input_width(k).and(bank_in_table(k, h, b, table.len()))
}
