// The listing program: it reads the shape of a table from standard input and writes the best table of
// that shape, its errors and its survey, or the refusal. What it writes is in `listing_text`, proved byte
// for byte; here is the order of the calls. `send` alone writes, and lines of that text only.
#![tactic(auto)]

ghost use Rattle.std.specs.Prelude.{◌≡◌, length};
ghost use Rattle.units.specs.Refusals.{refusal_number};
ghost use Rattle.listing_text.specs.Inner.Pages.{IsPart};
ghost use Rattle.listing_text.specs.Listing.{refused_text, table_text, text_for};

use listing_line::{Asked, read_line};
use listing_text::{BestTable, LINE_MOST, fill_page, line_count, put_refused};
use programs::{read_full, zeroed};
use recip::{Refusal, build, survey_table};
use std::io;

// Below, `input` is lent for the contracts alone: each function is given what the text for this input
// asks for.

// Writes the lines of the text from line `from` up to line `next`. The numbers, too, are given for the
// contract alone.
fn send(rt: &impl Print, input: &[u8], from: u32, next: u32, bytes: &[u8]) -> io::Result<()>
    requires { IsPart (text_for input.now) from next bytes.now }
{
    rt.write_all(bytes)
}

fn refuse(rt: &impl Print, input: &[u8], r: Refusal) -> io::Result<()>
    requires { refused_text (refusal_number r) ≡ text_for input.now }
{
    let mut page = [0u8; LINE_MOST];
    let end = put_refused(&mut page, 0, r);
    send(rt, input, 0, 1, &page[..end])
}

// Writes the text a page at a time. It stops where a write fails. (No `for`: how many lines a page takes is
// known once it is filled.) (15,15), the longest listing, has 1,365,836 bytes and takes eleven pages.
fn write_text(rt: &impl Print, input: &[u8], best: BestTable) -> io::Result<()>
    requires { table_text best.shape ≡ text_for input.now }
{
    let mut space = [0u8; 131072];
    let page: &mut [u8] = &mut space;
    let lines = line_count(best.shape.k);
    let mut next: u32 = 0;
    while next < lines {
        let filled = fill_page(page, best, next);
        send(rt, input, next, filled.next, &page[..filled.end])?;
        next = filled.next;
    }
    Ok(())
}

// No input leads to `unreachable!`, which is proved: the survey of a table that was built is never refused
// (`built_survey_done`).
fn list(rt: &impl Print, asked: Asked) -> io::Result<()> {
    let Asked { line, shape, .. } = asked;
    let mut space = zeroed();
    let cells: &mut [u16] = &mut space;
    match build(shape, cells) {
        Ok(()) => match survey_table(shape, cells) {
            Ok(worst) => write_text(
                rt,
                line,
                BestTable {
                    shape,
                    cells,
                    worst,
                },
            ),
            Err(_) => unreachable!(),
        },
        Err(r) => refuse(rt, line, r),
    }
}

// The longest line has 10 bytes, so 12 are enough to tell a line from any other input
// (`twelve_bytes_decide`).
fn main(rt: HostRuntime) -> io::Result<()> {
    let mut input = [0u8; 12];
    let got = read_full(&rt, &mut input);
    let line = &input[..got];
    match read_line(line) {
        Ok(shape) => list(&rt, Asked { line, shape }),
        Err(r) => refuse(&rt, line, r),
    }
}
