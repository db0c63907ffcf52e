// What a token does to the address and the cells.
ghost use Rattle.std.specs.Prelude.{◌≡◌, ◌≤◌, ◌^◌, length};
ghost use Rattle.memory_tokens.specs.Inner.Places.{says};
ghost use Rattle.memory_text.specs.Inner.Steps.{Obeyed};

use crate::errors::ReadError;
use entry::fields_of;
use memory_tokens::{Said, Word};
use units::GoodShape;

// What stands for a cell that was not given: no table has such a field.
pub(crate) const MISSING: u16 = 65535;

// How far a reading has come: where the next value goes, and how many cells were given.
#[derive(Clone, Copy)]
pub(crate) struct Progress {
    pub address: usize,
    pub given: usize,
}

// Obeys a token: an address is the next one, and a value is stored. Nothing is stored where it stops.
pub(crate) fn obey(
    good: GoodShape,
    before: Progress,
    word: Word,
    cells: &mut [u16],
) -> Result<Progress, ReadError>
    requires { (length cells.old ≡ 2 ^ good.shape.k) × (before.given ≤ 65536) }
    ensures { Obeyed good.shape before (says word) cells.old cells.new result }
{
    let from = word.from;
    let Progress { address, given } = before;
    match word.says {
        Said::Address(next) => {
            if cells.len() <= next as usize {
                return Err(ReadError::PastTable(from));
            }
            Ok(Progress {
                address: next as usize,
                given,
            })
        }
        Said::Value(value) => {
            if cells.len() <= address {
                return Err(ReadError::PastTable(from));
            }
            if fields_of(good).end <= value {
                return Err(ReadError::TooWide(from));
            }
            if cells[address] != MISSING {
                return Err(ReadError::GivenTwice(from));
            }
            cells[address] = value as u16;
            Ok(Progress {
                address: address + 1,
                given: given + 1,
            })
        }
    }
}
