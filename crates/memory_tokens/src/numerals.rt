// The numbers of a memory text, of any number of digits.
ghost use Rattle.std.specs.Prelude.{◌≡◌, ◌+◌, ◌*◌, ◌≤◌, ◌<◌, length};
ghost use Rattle.memory_tokens.specs.Inner.Places.{capped, RestShown, NumeralAt};

use crate::bytes::{digit_of, ends_before};

// What the digits at a place show, and the place after them.
#[derive(Clone, Copy)]
pub(crate) struct Numeral {
    pub value: u32,
    pub end: usize,
}

// One digit more. What is past every table and every field is 65536, however many digits there are.
fn grown(value: u32, digit: u32) -> u32
    requires { (value ≤ 65536) × (digit < 16) }
    ensures { result ≡ capped (value * 16 + digit) }
{
    (value * 16 + digit).min(65536)
}

// The digits and underscores from a place to the token's end, after others that showed `before`, if no
// other byte stands there.
fn rest_shown(text: &[u8], from: usize, before: u32) -> Option<Numeral>
    requires { (from ≤ length text.now) × (before ≤ 65536) }
    ensures { RestShown text.now from before result }
{
    let mut value = before;
    for at in from..text.len() {
        match digit_of(text[at]) {
            Some(digit) => value = grown(value, digit),
            None if text[at] == b'_' => {}
            None if ends_before(text, at) => return Some(Numeral { value, end: at }),
            None => return None,
        }
    }
    Some(Numeral {
        value,
        end: text.len(),
    })
}

// "underscores after a first digit", if a token is that from a place on.
pub(crate) fn numeral_at(text: &[u8], from: usize) -> Option<Numeral>
    requires { from ≤ length text.now }
    ensures { NumeralAt text.now from result }
{
    let first = *text.get(from)?;
    let digit = digit_of(first)?;
    rest_shown(text, from + 1, digit)
}
