// The call "Write memory" of document 02.
ghost use Rattle.std.specs.Prelude.{◌≡◌, ◌++◌, suc, ◌-◌, ◌*◌, ◌≤◌, ◌<◌, length, drop};
ghost use Rattle.memory_text.specs.Write.{digit_count, hex_digit, line_of, lines_of, reported, write_report, written_bytes};

use table::whole_fields;
use units::{Fault, GoodShape, Offset, Refusal, Shape, power};

// "lower-case hex": 0 to 9, a to f.
const HEX: [u8; 16] = *b"0123456789abcdef";

fn hex_digit(digit: u16) -> u8
    requires { digit < 16 }
    ensures { result ≡ hex_digit digit }
{
    HEX[digit as usize]
}

// How many digits a field has, four bits a digit.
fn digit_count(good: GoodShape) -> usize
    ensures { result ≡ digit_count good.shape }
{
    let shape = good.shape;
    (shape.m + shape.kind.ones() + 3) as usize / 4
}

// Writes the line of a field into bytes that it fills: the newline, and the digits from the last to the
// first.
fn put_line(f: u16, line: &mut [u8])
    requires { 0 < length line.old }
    ensures { line.new ≡ line_of (length line.old - 1) f }
{
    let count = line.len() - 1;
    line[count] = b'\n';
    let mut rest = f;
    for i in (0..count).rev() {
        line[i] = hex_digit(rest % 16);
        rest /= 16;
    }
}

// Writes the lines of all fields, each `count` digits and a newline. They are cut by hand, since a proof
// knows nothing of what is written through `chunks_exact_mut`.
fn put_lines(count: usize, cells: &[u16], text: &mut [u8])
    requires { (count ≤ 4) × (length cells.now * suc count ≤ length text.old) }
    ensures { text.new ≡ lines_of count cells.now ++ drop (length cells.now * suc count) text.old }
{
    let mut at = 0;
    for &f in cells {
        let end = at + count + 1;
        put_line(f, &mut text[at..end]);
        at = end;
    }
}

// "one field per line, a newline after each, lower-case hex, as many digits as m bits need, index order;
// it gives the length, and bytes past the text stay." In tables with one as many as m+1 bits need.
pub fn write_memory(shape: Shape, table: &[u16], text: &mut [u8]) -> Result<Offset, Fault>
    ensures answer { reported result ≡ write_report shape table.now (length text.old) }
    ensures bytes { text.new ≡ written_bytes shape table.now text.old }
{
    let good = whole_fields(shape, table)?;
    let count = digit_count(good);
    let size = power(shape.k) as usize;
    let length = size * (count + 1);
    if text.len() < length {
        return Err(Fault::Refused(Refusal::ShortText));
    }
    put_lines(count, &table[..size], text);
    Ok(Offset(length))
}
