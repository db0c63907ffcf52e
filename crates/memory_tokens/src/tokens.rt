// The tokens of a memory text, one after the other.
ghost use Rattle.std.specs.Prelude.{◌≡◌, false, ◌≤◌, ◌<◌, length};
ghost use Rattle.memory_tokens.specs.Inner.Places.{ends_at, TokenAt, NextToken};

use crate::comments::gap_end;
use crate::numerals::numeral_at;
use crate::words::{Faulty, Said, Word};
use units::Offset;

// The token at a place, an address after an @ or a value, and the place after it.
fn token_at(text: &[u8], from: usize) -> Result<(Word, usize), Faulty>
    requires { (from < length text.now) × (ends_at text.now from ≡ false) }
    ensures { TokenAt text.now from result }
{
    let address = text[from] == b'@';
    let Some(numeral) = numeral_at(text, from + address as usize) else {
        return Err(Faulty(Offset(from)));
    };
    let says = if address {
        Said::Address(numeral.value)
    } else {
        Said::Value(numeral.value)
    };
    Ok((
        Word {
            from: Offset(from),
            says,
        },
        numeral.end,
    ))
}

// The next token, and the place after it, if there is one.
pub fn next_token(text: &[u8], at: usize) -> Result<Option<(Word, usize)>, Faulty>
    requires { at ≤ length text.now }
    ensures { NextToken text.now at result }
{
    match gap_end(text, at)? {
        Some(from) => Ok(Some(token_at(text, from)?)),
        None => Ok(None),
    }
}
