// The input of the listing, document 01: "one or two decimal digits, one space, one or two digits,
// one newline, then the end"; and document 02: "an optional third word "one" after one space".
ghost use Rattle.std.specs.Prelude.{◌≡◌, ◌+◌, ◌-◌, ◌<◌, ◌≤◌, length};
ghost use Rattle.listing_line.specs.Line.{byte_at, is_digit, word_end, word_value, one_at, kind_at, kind_word, formed, reported, line_read};

use units::{Kind, Refusal, Shape};

// The byte at a place of the input, or 0 past its end.
fn byte_at(s: &[u8], at: usize) -> u8
    ensures { result ≡ byte_at s.now at }
{
    s.get(at).copied().unwrap_or(0)
}

// Whether the byte at a place is a digit.
#[tactic(auto, unfolding(crate::specs::Line::is_digit))]
fn digit_at(s: &[u8], at: usize) -> bool
    ensures { result ≡ is_digit (byte_at s.now at) }
{
    byte_at(s, at).is_ascii_digit()
}

// What the digit at a place shows. A byte below the digits shows 0.
fn value_at(s: &[u8], at: usize) -> u32
    ensures { result ≡ byte_at s.now at - 48 }
{
    byte_at(s, at).saturating_sub(b'0') as u32
}

// One or two digits: the number that they show, and the place after them.
#[derive(Clone, Copy)]
struct Word {
    value: u32,
    end: usize,
}

// The word at a place.
#[tactic(auto, unfolding(crate::specs::Line::word_value, crate::specs::Line::word_end))]
fn word_at(s: &[u8], at: usize) -> Word
    requires { at < 100 }
    ensures value { result.value ≡ word_value s.now at }
    ensures end { result.end ≡ word_end s.now at }
    ensures short { result.end ≤ at + 2 }
{
    let first = value_at(s, at);
    if digit_at(s, at + 1) {
        return Word {
            value: 10 * first + value_at(s, at + 1),
            end: at + 2,
        };
    }
    Word {
        value: first,
        end: at + 1,
    }
}

// Whether " one" stands at a place.
#[tactic(auto, unfolding(crate::specs::Line::one_at))]
fn one_at(s: &[u8], at: usize) -> bool
    ensures { result ≡ one_at s.now at }
{
    s.get(at..).is_some_and(|rest| rest.starts_with(b" one"))
}

// The kind that is said at a place: plain where nothing is.
#[tactic(auto, unfolding(crate::specs::Line::kind_at))]
fn kind_at(s: &[u8], at: usize) -> Kind
    ensures { result ≡ kind_at s.now at }
{
    if one_at(s, at) {
        return Kind::WithOne;
    }
    Kind::Plain
}

// How many bytes say a kind.
fn word_length(kind: Kind) -> usize
    ensures value { result ≡ length (kind_word kind) }
    ensures short { result ≤ 4 }
{
    match kind {
        Kind::Plain => 0,
        Kind::WithOne => 4,
    }
}

// Whether the input has the form, with a the place after the first digits and c that after the kind.
#[tactic(auto, unfolding(crate::specs::Line::formed))]
fn is_formed(s: &[u8], a: usize, c: usize) -> bool
    requires { (a < 100) × (c < 100) }
    ensures { result ≡ formed s.now a c }
{
    digit_at(s, 0)
        && byte_at(s, a) == b' '
        && digit_at(s, a + 1)
        && byte_at(s, c) == b'\n'
        && s.len() == c + 1
}

// "The program reads standard input: one or two decimal digits, one space, one or two digits, one
// newline, then the end. Leading zeros are allowed. Otherwise it writes "refused 7"." Before the
// newline " one" may stand.
#[tactic(auto, unfolding(crate::specs::Line::line_read, crate::specs::Line::is_line, crate::specs::Line::kind_end))]
pub fn read_line(input: &[u8]) -> Result<Shape, Refusal>
    ensures { reported result ≡ line_read input.now }
{
    let first = word_at(input, 0);
    let second = word_at(input, first.end + 1);
    let kind = kind_at(input, second.end);
    if is_formed(input, first.end, second.end + word_length(kind)) {
        return Ok(Shape::of(first.value, second.value, kind));
    }
    Err(Refusal::Line)
}
