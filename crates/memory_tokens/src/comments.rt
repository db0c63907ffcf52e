// White space and comments, which stand between the tokens.
ghost use Rattle.std.specs.Prelude.{◌≡◌, ◌+◌, ◌≤◌, ◌<◌, true, false, length};
ghost use Rattle.memory_tokens.specs.Tokens.{comment};
ghost use Rattle.memory_tokens.specs.Inner.Places.{Left, CommentEnds, CommentAt, GapEnds};

use crate::bytes::{is_white, opens};
use crate::words::Faulty;
use units::Offset;

// The place after the comment to the end of the line that begins at `from`.
fn line_end(text: &[u8], from: usize) -> usize
    requires { from < length text.now }
    ensures { CommentEnds text.now true from (Ok result) }
{
    for at in from + 1..text.len() {
        if text[at] == b'\n' {
            return at + 1;
        }
    }
    text.len()
}

// The place after the comment to a star and a slash that begins at `from`.
fn block_end(text: &[u8], from: usize) -> Result<usize, Faulty>
    requires { from < length text.now }
    ensures { CommentEnds text.now false from result }
{
    // Whether the byte before is a star. The slash after it is the fourth byte at the least, since `/*/` is
    // not finished.
    let mut starred = false;
    for at in from + 1..text.len() {
        if text[at] == b'/' && starred && 3 <= at - from {
            return Ok(at + 1);
        }
        starred = text[at] == b'*';
    }
    Err(Faulty(Offset(from)))
}

// The place after a comment of either kind, if one begins here.
fn comment_at(text: &[u8], at: usize) -> Result<Option<usize>, Faulty>
    requires { at < length text.now }
    ensures { CommentAt text.now at result }
{
    if opens(text, at, b'/') {
        return Ok(Some(line_end(text, at)));
    }
    if opens(text, at, b'*') {
        return Ok(Some(block_end(text, at)?));
    }
    Ok(None)
}

// The place of the next token, if there is one: white space and comments are passed.
pub(crate) fn gap_end(text: &[u8], from: usize) -> Result<Option<usize>, Faulty>
    requires { from ≤ length text.now }
    ensures { GapEnds text.now from result }
{
    // No `for`, since a comment is passed as a whole.
    let mut at = from;
    while at < text.len() {
        if is_white(text[at]) {
            at += 1;
        } else if let Some(end) = comment_at(text, at)? {
            at = end;
        } else {
            return Ok(Some(at));
        }
    }
    Ok(None)
}
