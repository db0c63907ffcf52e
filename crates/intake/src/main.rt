// The program `intake`: it reads a line with the shape of a table, in the listing's form, and after it
// a memory text, reads the table out of the text, checks it, and writes one line:
//
//     passes                    every entry has the least worst error
//     not best N WORST LEAST    the first that has not, its worst error and the least
//     refused NUMBER            the widths (1, 2), or the form of the first line (7)
//     refused NUMBER PLACE      the text: the offset of the faulty token from the first byte after the
//                               first line (8, 9, 5, 10), or the smallest n that is missing (11)
//     too long                  the text has more than 1,048,576 bytes
//
// 7 comes first, then "too long", then the call's own numbers.
#![tactic(auto)]

ghost use Rattle.std.specs.Prelude.{◌≡◌, length};
ghost use Rattle.memory_text.specs.Read.{read_report};
ghost use Rattle.intake.specs.Accepted.{cells_of, Accepted};

use listing_line::{Asked, read_line};
use programs::{read_full, zeroed};
use recip::{Fault, NotPassed, ReadError, Refusal, check_table, read_memory};
use std::io;

const LONGEST_TEXT: usize = 1048576;

// Room for the longest line, the longest text, and the byte more by which a longer one is told. (Where it
// is used the check would count a literal of this length out, and it cannot.)
fn blank() -> [u8; 1048587]
    ensures { 1048587 ≡ length result }
{
    [0; 1048587]
}

fn refused(rt: &impl Print, r: Refusal) -> io::Result<()> {
    println!(rt; "refused {}", r.number())
}

// A refusal that gives a place.
fn refused_at(rt: &impl Print, number: u32, place: usize) -> io::Result<()> {
    println!(rt; "refused {number} {place}")
}

// Below, the line comes along for the contracts alone: the table is judged as one of the shape that the
// line names.

// The one place that says so: of a text that was read, and whose every entry is best.
fn passes(rt: &impl Print, asked: Asked, memory: &[u8]) -> io::Result<()>
    requires { Accepted asked.shape memory.now }
{
    println!(rt; "passes")
}

// What was read is never refused here, yet what the call answers is written. The text is lent for the
// contract alone.
fn check(rt: &impl Print, asked: Asked, memory: &[u8], table: &[u16]) -> io::Result<()>
    requires { ((read_report asked.shape memory.now 32768).number ≡ 0) × (table.now ≡ cells_of asked.shape memory.now) }
{
    match check_table(asked.shape, table) {
        Ok(()) => passes(rt, asked, memory),
        Err(NotPassed::NotBest { n, worst, least }) => {
            println!(rt; "not best {} {} {}", n.0, worst.0, least.0)
        }
        Err(NotPassed::Faulty(Fault::Refused(r))) => refused(rt, r),
        Err(NotPassed::Faulty(fault)) => refused_at(rt, fault.number(), fault.n().0 as usize),
    }
}

fn take(rt: &impl Print, asked: Asked, memory: &[u8]) -> io::Result<()> {
    let mut cells = zeroed();
    let table: &mut [u16] = &mut cells;
    match read_memory(asked.shape, memory, table) {
        Ok(()) => check(rt, asked, memory, table),
        Err(ReadError::Refused(r)) => refused(rt, r),
        Err(e @ ReadError::Missing(n)) => refused_at(rt, e.number(), n.0 as usize),
        Err(e) => refused_at(rt, e.number(), e.offset().0),
    }
}

fn take_if_short(rt: &impl Print, asked: Asked, memory: &[u8]) -> io::Result<()> {
    if LONGEST_TEXT < memory.len() {
        println!(rt; "too long")
    } else {
        take(rt, asked, memory)
    }
}

// The first line and what stands after it, if it has 4 to 10 bytes as those of the listing's form have.
fn first_line(input: &[u8]) -> Option<(&[u8], &[u8])> {
    for at in 3..10 {
        if input.get(at) == Some(&b'\n') {
            return Some(input.split_at(at + 1));
        }
    }
    None
}

fn answer(rt: &impl Print, input: &[u8]) -> io::Result<()> {
    let (line, memory) = first_line(input).unwrap_or((&[], input));
    match read_line(line) {
        Ok(shape) => take_if_short(rt, Asked { line, shape }, memory),
        Err(r) => refused(rt, r),
    }
}

fn main(rt: HostRuntime) -> io::Result<()> {
    let mut space = blank();
    let got = read_full(&rt, &mut space);
    answer(&rt, &space[..got])
}
