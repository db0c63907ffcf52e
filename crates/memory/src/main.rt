// The program `memory`: it reads the shape of a table from standard input, in the listing's form, and
// writes the memory text of the best table of that shape, or the refusal.
#![tactic(auto)]

ghost use Rattle.std.specs.Prelude.{◌≡◌, length, take};
ghost use Rattle.memory_text.specs.Write.{memory_text};
ghost use Rattle.memory.specs.Text.{best_text};

use listing_line::{Asked, read_line};
use programs::{read_full, zeroed};
use recip::{Refusal, build, write_memory};
use std::io;

fn refuse(rt: &impl Print, r: Refusal) -> io::Result<()> {
    println!(rt; "refused {}", r.number())
}

// Below, the line comes along for the contracts alone: the table is the one that the line asks for.

// Writes the text of the best table, which is the bytes up to `end`, and no other. One write for all of
// it. (It is never longer than the bytes that it was written to.)
fn send(rt: &impl Print, asked: Asked, bytes: &[u8], end: usize) -> io::Result<()>
    requires { take end bytes.now ≡ best_text asked.shape }
{
    if bytes.len() < end {
        return Ok(());
    }
    rt.write_all(&bytes[..end])
}

// Number 5 never comes: no field of a built table is too wide. There is room for the longest text, that of
// (15,15): 32,768 lines of four digits and a newline.
fn write(rt: &impl Print, asked: Asked, table: &[u16]) -> io::Result<()>
    requires { memory_text asked.shape table.now ≡ best_text asked.shape }
{
    let mut space = [0u8; 163840];
    let bytes: &mut [u8] = &mut space;
    match write_memory(asked.shape, table, bytes) {
        Ok(end) => send(rt, asked, bytes, end.0),
        Err(fault) => println!(rt; "refused {}", fault.number()),
    }
}

fn write_best(rt: &impl Print, asked: Asked) -> io::Result<()> {
    let mut cells = zeroed();
    let table: &mut [u16] = &mut cells;
    match build(asked.shape, table) {
        Ok(()) => write(rt, asked, table),
        Err(r) => refuse(rt, r),
    }
}

// The longest line has 10 bytes, so 12 are enough to tell a line from any other input.
fn main(rt: HostRuntime) -> io::Result<()> {
    let mut input = [0u8; 12];
    let got = read_full(&rt, &mut input);
    let line = &input[..got];
    match read_line(line) {
        Ok(shape) => write_best(&rt, Asked { line, shape }),
        Err(r) => refuse(&rt, r),
    }
}
