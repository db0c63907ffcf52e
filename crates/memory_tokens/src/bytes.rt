// Single bytes of a memory text.
ghost use Rattle.std.specs.Prelude.{◌≡◌, suc, ◌<◌, length, drop, get_or};
ghost use Rattle.memory_tokens.specs.Tokens.{is_white, opens as Tokens·opens, ends};
ghost use Rattle.memory_tokens.specs.Inner.Places.{IsDigit};

// "white space (blank, tab, newline, form feed)". By `|` it is one test of bits, where a pattern is four
// branches.
#[tactic(auto, unfolding(crate::specs::Tokens::is_white))]
pub(crate) fn is_white(b: u8) -> bool
    ensures { result ≡ is_white b }
{
    (b == b' ') | (b == b'\t') | (b == b'\n') | (b == b'\x0c')
}

// What a byte shows, if it is a digit.
#[tactic(auto, unfolding(crate::specs::Words::digit_of))]
pub(crate) fn digit_of(b: u8) -> Option<u32>
    ensures { IsDigit b result }
{
    match b {
        // It takes one comparison, where the range as a pattern takes two.
        _ if b.is_ascii_digit() => Some((b - b'0') as u32),
        b'A'..=b'F' => Some((b - b'A') as u32 + 10),
        b'a'..=b'f' => Some((b - b'a') as u32 + 10),
        _ => None,
    }
}

// Whether a comment begins at a place: a slash, and this byte after it.
#[tactic(auto, unfolding(crate::specs::Tokens::opens))]
pub(crate) fn opens(text: &[u8], at: usize, second: u8) -> bool
    requires { (at < length text.now) × (0 < second) }
    ensures { result ≡ Tokens·opens second (get_or text.now at 0) (drop (suc at) text.now) }
{
    text[at] == b'/' && text.get(at + 1) == Some(&second)
}

// Whether a token ends before a place.
#[tactic(auto, unfolding(crate::specs::Tokens::ends))]
pub(crate) fn ends_before(text: &[u8], at: usize) -> bool
    requires { at < length text.now }
    ensures { result ≡ ends (get_or text.now at 0) (drop (suc at) text.now) }
{
    is_white(text[at]) || opens(text, at, b'/') || opens(text, at, b'*')
}
