// Looks up every divisor from 1 to 65535 in eight built tables, four of each kind, and then divisors at
// the ends of what is let in and past them. The file `stdout` is not this program's output: the program
// in `second/`, which tries every shift, wrote it by `second lookups`.
#![tactic(auto)]

ghost use Rattle.std.specs.Prelude.{◌≤◌};

use programs::{Digest, Named};
use recip::{Fault, Found, Kind, Shape, build, look_up, show_bank};
use std::{fmt, io};

const DIVISORS: [u32; 11] = [
    0, 1, 2, 3, 32767, 32768, 40960, 65535, 65536, 2147483648, 4294967295,
];

// The documents' numbers of an answer: number, s, n and j.
#[derive(Clone, Copy)]
struct Numbers([u32; 4]);

impl From<Result<Found, Fault>> for Numbers {
    fn from(answer: Result<Found, Fault>) -> Numbers {
        match answer {
            Ok(found) => Numbers([0, found.s.0, found.n.0, found.j.0]),
            Err(fault) => Numbers([fault.number(), 0, fault.n().0, 0]),
        }
    }
}

impl fmt::Display for Numbers {
    fn fmt<W: fmt::Write>(&self, f: &mut fmt::Formatter<W>) -> fmt::Result {
        let [number, s, n, j] = self.0;
        write!(f, "{number} {s} {n} {j}")
    }
}

fn numbers_of(shape: Shape, x: u32, table: &[u16]) -> Numbers {
    look_up(shape, x, table).into()
}

// The digest of the answers for every divisor.
fn every_divisor(shape: Shape, table: &[u16]) -> u64 {
    let mut digest = Digest::new();
    for x in 1..65536 {
        digest.stir_all(&numbers_of(shape, x, table).0);
    }
    digest.value()
}

// Below, the cells are one more than the largest table has, each with a number that is no field of any.

// "k m digest", or "k m one digest"
fn all(rt: &impl Print, k: u32, m: u32, kind: Kind) -> io::Result<()> {
    let shape = Shape::of(k, m, kind);
    let mut cells = [43981; 32769];
    let _ = build(shape, &mut cells);
    let digest = every_divisor(shape, show_bank(k, 0, 0, &cells));
    println!(rt; "{} {digest}", Named(shape))
}

// "k m X cells: number s n j, number s n j", or "k m one X ..", first in cells of 43981 and then in a
// built table
fn look(rt: &impl Print, k: u32, m: u32, kind: Kind, x: u32, lent: usize) -> io::Result<()>
    requires { lent ≤ 32769 }
{
    let shape = Shape::of(k, m, kind);
    let mut cells = [43981; 32769];
    let before = numbers_of(shape, x, &cells[..lent]);
    let _ = build(shape, &mut cells);
    let after = numbers_of(shape, x, &cells[..lent]);
    println!(rt; "{} {x} {lent}: {before}, {after}", Named(shape))
}

fn looks(rt: &impl Print, x: u32) -> io::Result<()> {
    look(rt, 5, 5, Kind::Plain, x, 31)?;
    look(rt, 5, 5, Kind::Plain, x, 32)?;
    look(rt, 1, 15, Kind::Plain, x, 2)?;
    look(rt, 15, 1, Kind::Plain, x, 32768)?;
    look(rt, 0, 5, Kind::Plain, x, 32)?;
    look(rt, 5, 16, Kind::Plain, x, 32)?;
    look(rt, 12, 3, Kind::WithOne, x, 4096)?;
    look(rt, 5, 3, Kind::WithOne, x, 32)
}

fn all_of(rt: &impl Print, kind: Kind) -> io::Result<()> {
    for (k, m) in [(1, 1), (5, 5), (15, 15), (12, 3)] {
        all(rt, k, m, kind)?;
    }
    Ok(())
}

fn main(rt: HostRuntime) -> io::Result<()> {
    all_of(&rt, Kind::Plain)?;
    all_of(&rt, Kind::WithOne)?;
    for x in DIVISORS {
        looks(&rt, x)?;
    }
    Ok(())
}
