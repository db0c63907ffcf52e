// Writes and reads memory texts: first the best tables of six shapes of both kinds, there and back, and
// then 12,000 rounds in which a pseudo-random text is read, damaged, read again, and written over, so
// that every number of both calls comes up. Every answer, and all cells or bytes after it, go into a
// digest, of which a line is written after each 1000 rounds: "rounds digest". Last it writes how often
// each number was given. The order of the draws and what is folded into the digest are those of
// `second/README.md`, "Mode 4". The file `stdout` is not this program's output: the program in `second/`
// wrote it by `second memory`.
#![tactic(auto)]

ghost use Rattle.std.specs.Prelude.{◌≤◌, ◌<◌};

mod text;

use programs::{Digest, Draws, Named, digest_of};
use recip::{Fault, Kind, Offset, ReadError, Shape, build, read_memory, write_memory};
use std::{fmt, io};
use text::Text;

// The documents' numbers of an answer: the place is the writer's length or the reader's offset.
#[derive(Clone, Copy)]
struct Numbers {
    number: u32,
    place: usize,
    n: u32,
    ghost known: { number < 18 },
}

impl From<Result<Offset, Fault>> for Numbers {
    fn from(answer: Result<Offset, Fault>) -> Numbers {
        let (number, place, n) = match answer {
            Ok(length) => (0, length.0, 0),
            Err(fault) => (fault.number(), 0, fault.n().0),
        };
        Numbers { number, place, n }
    }
}

impl From<Result<(), ReadError>> for Numbers {
    fn from(answer: Result<(), ReadError>) -> Numbers {
        let (number, place, n) = match answer {
            Ok(()) => (0, 0, 0),
            Err(e) => (e.number(), e.offset().0, e.n().0),
        };
        Numbers { number, place, n }
    }
}

impl fmt::Display for Numbers {
    fn fmt<W: fmt::Write>(&self, f: &mut fmt::Formatter<W>) -> fmt::Result {
        write!(f, "{} {} {}", self.number, self.place, self.n)
    }
}

// "k m number length n digest number offset n digest", or "k m one ..". The bytes are one more than the
// longest text has, and the cells that are read into are those of the largest table, each with a number
// that is no field of any. (A text is never longer than the bytes lent for it: it is read whole.)
fn table(rt: &impl Print, k: u32, m: u32, kind: Kind) -> io::Result<()> {
    let shape = Shape::of(k, m, kind);
    let mut cells = [0; 32768];
    let _ = build(shape, &mut cells);
    let mut bytes = [b'#'; 163841];
    let written = Numbers::from(write_memory(shape, &cells, &mut bytes));
    let mut cells = [43981; 32768];
    let text = &bytes[..written.place.min(163841)];
    let read = Numbers::from(read_memory(shape, text, &mut cells));
    println!(rt;
        "{} {written} {} {read} {}",
        Named(shape),
        digest_of(&bytes),
        digest_of(&cells)
    )
}

fn tables(rt: &impl Print, kind: Kind) -> io::Result<()> {
    for (k, m) in [(1, 1), (5, 6), (10, 4), (12, 13), (15, 15), (12, 3)] {
        table(rt, k, m, kind)?;
    }
    Ok(())
}

// How often each number was given.
#[derive(Clone, Copy)]
struct Counts([u64; 18]);

impl Counts {
    fn add(&mut self, a: Numbers) {
        let number = a.number as usize;
        self.0[number] = self.0[number].wrapping_add(1);
    }

    // " number:count" of each of some numbers, which rise.
    fn print(&self, rt: &impl Print, numbers: &[usize]) -> io::Result<()> {
        for (number, &count) in self.0.iter().enumerate() {
            if numbers.contains(&number) {
                print!(rt; " {number}:{count}")?;
            }
        }
        println!(rt; "")
    }
}

// What is drawn for a round before its text.
#[derive(Clone, Copy)]
struct Inputs {
    shape: Shape,
    lent: usize,
    ghost in_cells: { lent ≤ 64 },
}

// Mostly all 64 cells.
fn lent_cells(draws: &mut Draws) -> usize
    ensures { result ≤ 64 }
{
    match draws.pick(8) {
        0 => draws.small(17) as usize,
        _ => 64,
    }
}

// Mostly all 600 bytes.
fn lent_bytes(draws: &mut Draws) -> usize
    ensures { result ≤ 600 }
{
    match draws.pick(6) {
        0 => draws.small(100) as usize,
        _ => 600,
    }
}

fn drawn(draws: &mut Draws) -> Inputs {
    let k = draws.width(30, 4);
    let m = draws.width(30, 4);
    let shape = Shape::of(k, m, draws.kind());
    let lent = lent_cells(draws);
    Inputs { shape, lent }
}

// The draws, the text and the cells, the digest, and how often the reader and the writer gave a number.
#[derive(Drop)]
struct Drive {
    draws: Draws,
    text: Text,
    cells: [u16; 64],
    digest: Digest,
    reads: Counts,
    writes: Counts,
}

impl Drive {
    fn start() -> Drive {
        Drive {
            draws: Draws::start(),
            text: Text::new(),
            cells: [0; 64],
            digest: Digest::new(),
            reads: Counts([0; 18]),
            writes: Counts([0; 18]),
        }
    }

    fn stir(&mut self, a: Numbers) {
        self.digest
            .stir_all(&[a.number as u64, a.place as u64, a.n as u64]);
    }

    // The number, the offset and n, and all cells after the call, those that were not lent too.
    fn read(&mut self, i: Inputs) {
        // Lent first as a whole: the borrow checker does not cover a part of an array beside the text, which has
        // a ghost field.
        let cells = &mut self.cells[..];
        let answer = self.text.read(i.shape, &mut cells[..i.lent]);
        let a = Numbers::from(answer);
        self.reads.add(a);
        self.stir(a);
        self.digest.stir_all(&self.cells);
    }

    // The number, the length and n, and all bytes after the call, those that were not lent too.
    fn write(&mut self, i: Inputs, room: usize) -> Numbers
        requires { room ≤ 600 }
    {
        let answer = self.text.write(i.shape, &self.cells[..i.lent], room);
        let a = Numbers::from(answer);
        self.writes.add(a);
        self.stir(a);
        self.digest.stir_all(&self.text.bytes);
        a
    }

    // Every eighth time stores a number in a cell, where it may be no field.
    fn damage_cell(&mut self) {
        if self.draws.pick(8) == 0 {
            let at = self.draws.small(64) as usize;
            self.cells[at] = self.draws.small(40) as u16;
        }
    }

    // Reads a good text, and the same text damaged.
    fn read_twice(&mut self, i: Inputs) {
        self.text.make(&mut self.draws, i.shape);
        self.read(i);
        self.text.damage_once_or_twice(&mut self.draws);
        self.read(i);
    }

    // Writes the cells over the text, some of them damaged.
    fn write_over(&mut self, i: Inputs) -> Numbers {
        self.damage_cell();
        let room = lent_bytes(&mut self.draws);
        self.write(i, room)
    }

    // Reads what was written last, if it was.
    fn round(&mut self) {
        let i = drawn(&mut self.draws);
        self.read_twice(i);
        if self.write_over(i).number == 0 {
            self.read(i);
        }
    }

    fn thousand(&mut self) {
        for _ in 0..1000 {
            self.round();
        }
    }
}

fn all_rounds(rt: &impl Print) -> io::Result<()> {
    let mut drive = Drive::start();
    for rounds in (1000u32..=12000).step_by(1000) {
        drive.thousand();
        println!(rt; "{rounds} {}", drive.digest.value())?;
    }
    print!(rt; "read")?;
    drive.reads.print(rt, &[0, 1, 2, 3, 5, 8, 9, 10, 11])?;
    print!(rt; "written")?;
    drive.writes.print(rt, &[0, 1, 2, 3, 5, 17])
}

fn main(rt: HostRuntime) -> io::Result<()> {
    tables(&rt, Kind::Plain)?;
    tables(&rt, Kind::WithOne)?;
    all_rounds(&rt)
}
