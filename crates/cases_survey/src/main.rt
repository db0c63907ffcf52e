// Runs the surveys, the tally and the check. The file `stdout` is not this program's output: its first
// lines are transcribed from the source's Tables 6 and 7 (row k = 13, g = 0 of Table 7 is a misprint;
// the worst is at n = 45), and the others are worked out from document 01's definitions.
#![tactic(auto)]

ghost use Rattle.std.specs.Prelude.{◌<◌, ◌≤◌};

use programs::Named;
use std::{fmt, io};
use survey::{Finding, NotTaken, Tally};
use table::build;
use units::{Fault, Interval, Kind, Shape, Side, Worst};
use verdict::NotPassed;

// "n worst side"
#[derive(Clone, Copy)]
struct Found(Finding);

impl fmt::Display for Found {
    fn fmt<W: fmt::Write>(&self, f: &mut fmt::Formatter<W>) -> fmt::Result {
        let found = self.0;
        write!(f, "{} {} {}", found.n.0, found.worst.0, found.side.number())
    }
}

// The number, n, worst and side of a survey, unused ones zero.
#[derive(Clone, Copy)]
struct Surveyed(Result<Finding, Fault>);

impl fmt::Display for Surveyed {
    fn fmt<W: fmt::Write>(&self, f: &mut fmt::Formatter<W>) -> fmt::Result {
        match self.0 {
            Ok(found) => write!(f, "0 {}", Found(found)),
            Err(fault) => write!(f, "{} {} 0 0", fault.number(), fault.n().0),
        }
    }
}

// The number, yes or no, n, worst and least of a check, unused ones zero.
#[derive(Clone, Copy)]
struct Checked(Result<(), NotPassed>);

impl fmt::Display for Checked {
    fn fmt<W: fmt::Write>(&self, f: &mut fmt::Formatter<W>) -> fmt::Result {
        match self.0 {
            Ok(()) => write!(f, "0 yes 0 0 0"),
            Err(NotPassed::NotBest { n, worst, least }) => {
                write!(f, "0 no {} {} {}", n.0, worst.0, least.0)
            }
            Err(NotPassed::Faulty(fault)) => {
                write!(f, "{} no {} 0 0", fault.number(), fault.n().0)
            }
        }
    }
}

// The number and n of a tally's answer, unused ones zero, and the tally that came back: its shape, next n
// and finding.
#[derive(Clone, Copy)]
struct Taken(Result<Tally, NotTaken>);

impl fmt::Display for Taken {
    fn fmt<W: fmt::Write>(&self, f: &mut fmt::Formatter<W>) -> fmt::Result {
        match self.0 {
            Ok(_) => write!(f, "0 0")?,
            Err(refused) => write!(f, "{} {}", refused.fault.number(), refused.fault.n().0)?,
        }
        let tally = handed_back(self.0);
        write!(
            f,
            " {} {} {}",
            Named(tally.shape),
            tally.next.0,
            Found(tally.finding)
        )
    }
}

// The tally that came back, taken or not.
fn handed_back(answer: Result<Tally, NotTaken>) -> Tally {
    match answer {
        Ok(tally) => tally,
        Err(refused) => refused.tally,
    }
}

fn plain(k: u32, m: u32) -> Shape {
    Shape::of(k, m, Kind::Plain)
}

// The finding of the best table of a shape.
fn worst_of(shape: Shape) -> Result<Finding, Fault> {
    let mut cells = [0u16; 32768];
    build(shape, &mut cells)?;
    survey::whole(shape, &cells)
}

// "k=5 g=0 43/2^11": a row of Table 6, of widths k and k + g.
fn table_6(rt: &impl Print, k: u32, g: u32) -> io::Result<()>
    requires { (k ≤ 15) × (g < 3) }
{
    let m = k + g;
    print!(rt; "k={k} g={g} ")?;
    match worst_of(plain(k, m)) {
        Ok(found) => println!(rt; "{}/2^{}", found.worst.0, k + m + 1),
        Err(fault) => println!(rt; "refused, number {}", fault.number()),
    }
}

// The rows of Table 6 with k + g up to 15.
fn rows_of_table_6(rt: &impl Print) -> io::Result<()> {
    for k in [5, 10] {
        for g in 0..3 {
            table_6(rt, k, g)?;
        }
    }
    table_6(rt, 15, 0)
}

// " 1.01000": the worst input of a shape, chopped to the k binary digits after the point.
fn worst_input(rt: &impl Print, shape: Shape) -> io::Result<()> {
    match worst_of(shape) {
        Ok(found) => print!(rt; " 1.{:0k$b}", found.n.0, k = shape.k as usize),
        Err(fault) => print!(rt; " refused, number {}", fault.number()),
    }
}

// "k=5 1.01000 1.00011": the worst inputs of (k, k) and, where 15 bits allow it, of (k, k + 1).
fn table_7(rt: &impl Print, k: u32) -> io::Result<()>
    requires { k ≤ 15 }
{
    print!(rt; "k={k}")?;
    worst_input(rt, plain(k, k))?;
    if k < 15 {
        worst_input(rt, plain(k, k + 1))?;
    }
    println!(rt;)
}

// The answers of all surveys and of the check on the same cells.
fn all_on(rt: &impl Print, shape: Shape, h: u32, b: u32, cells: &[u16]) -> io::Result<()> {
    println!(rt;
        "on {} {h} {b} {}: {}, {}, {}, {}",
        Named(shape),
        cells.len(),
        Surveyed(survey::whole(shape, cells)),
        Surveyed(survey::bank(shape, h, b, cells)),
        Surveyed(survey::bank_of(shape, h, b, cells)),
        Checked(verdict::check(shape, cells))
    )
}

// A built table of (5,5) with a bad entry, and just after it (or at 0, after the last) an over-wide
// field.
fn damaged(rt: &impl Print, at: usize) -> io::Result<()>
    requires { at < 32 }
{
    let shape = plain(5, 5);
    let mut cells = [0u16; 32];
    let _ = build(shape, &mut cells);
    cells[(at + 31) % 32] = 0;
    for f in [32, 31] {
        cells[at] = f;
        all_on(rt, shape, 1, 0, &cells)?;
        all_on(rt, shape, 1, 1, &cells)?;
    }
    Ok(())
}

// Widths, banks and cells that are refused, and their neighbours that are not. (The parts are `[0..31]`:
// of `[..31]` the check finds no bound here.)
fn refused(rt: &impl Print) -> io::Result<()> {
    let mut cells = [43981u16; 33];
    all_on(rt, plain(0, 5), 0, 0, &cells)?;
    all_on(rt, plain(5, 0), 0, 0, &cells)?;
    all_on(rt, plain(16, 16), 0, 0, &cells)?;
    all_on(rt, plain(6, 5), 3, 7, &cells)?;
    let shape = plain(5, 15);
    let _ = build(shape, &mut cells);
    for (h, b) in [(0, 0), (2, 3), (2, 4), (6, 0), (5, 31)] {
        all_on(rt, shape, h, b, &cells)?;
    }
    all_on(rt, shape, 5, 31, &cells[0..31])?;
    all_on(rt, shape, 5, 30, &cells[0..31])?;
    all_on(rt, shape, 5, 31, &[])
}

// A tally takes a field, and is handed on, taken or not.
fn handed_on(rt: &impl Print, tally: Tally, f: u16) -> io::Result<Tally> {
    let answer = tally.take(f);
    println!(rt; "tally {}", Taken(answer))?;
    Ok(handed_back(answer))
}

// Tallies with a finding that no survey has, and any widths and next n. Their side shows whether it is
// kept: it is not the entry's where a field is taken, and not 0 where the call is refused.
fn forged(shape: Shape, next: u32, worst: u64, side: Side) -> Tally {
    Tally {
        shape,
        next: Interval(next),
        finding: Finding {
            worst: Worst(worst),
            n: Interval(4294967295),
            side,
        },
    }
}

fn tallies(rt: &impl Print) -> io::Result<()> {
    let most = 4294967295;
    let cases = [
        (Tally::start(plain(5, 5), Interval(8)), 19),
        (Tally::start(plain(most, most), Interval(most)), 65535),
        (forged(plain(15, 15), 32767, 0, Side::Left), 32767),
        (
            forged(plain(15, 15), 32767, 18446744073709551615, Side::Left),
            32767,
        ),
        (forged(plain(15, 15), 32767, 0, Side::Right), 32768),
        (forged(plain(15, 15), 32768, 0, Side::Right), 65535),
        (forged(plain(15, 16), most, 0, Side::Right), 65535),
        (forged(plain(0, 16), most, 0, Side::Right), 65535),
        (forged(plain(5, 5), 8, 42, Side::Left), 19),
        (forged(plain(5, 5), 8, 43, Side::Left), 19),
    ];
    for (tally, f) in cases {
        handed_on(rt, tally, f)?;
    }
    Ok(())
}

// A tally of a table with one takes 1.0 as often as it comes, and no field above it.
fn tally_with_one(rt: &impl Print) -> io::Result<()> {
    let mut tally = Tally::start(Shape::of(5, 5, Kind::WithOne), Interval(0));
    for f in [32, 32, 33] {
        tally = handed_on(rt, tally, f)?;
    }
    Ok(())
}

// "12 3 one 3856/65536": document 02's worst errors.
fn worst_line(rt: &impl Print, kind: Kind) -> io::Result<()> {
    let shape = Shape::of(12, 3, kind);
    match worst_of(shape) {
        Ok(found) => println!(rt; "{} {}/65536", Named(shape), found.worst.0),
        Err(fault) => println!(rt; "{} refused, number {}", Named(shape), fault.number()),
    }
}

// A built table of (4,3) with one: its first entry is 1.0, and 15/16 is as good.
fn with_one(rt: &impl Print) -> io::Result<()> {
    let shape = Shape::of(4, 3, Kind::WithOne);
    let mut cells = [0u16; 16];
    let _ = build(shape, &mut cells);
    all_on(rt, shape, 1, 0, &cells)?;
    all_on(rt, plain(4, 3), 1, 1, &cells)?;
    cells[0] = 7;
    all_on(rt, shape, 1, 0, &cells)?;
    cells[15] = 8;
    all_on(rt, shape, 1, 1, &cells)?;
    cells[15] = 9;
    all_on(rt, shape, 1, 1, &cells)
}

fn main(rt: HostRuntime) -> io::Result<()> {
    rows_of_table_6(&rt)?;
    for k in 5..16 {
        table_7(&rt, k)?;
    }
    for at in [0, 15, 31] {
        damaged(&rt, at)?;
    }
    refused(&rt)?;
    tallies(&rt)?;
    worst_line(&rt, Kind::Plain)?;
    worst_line(&rt, Kind::WithOne)?;
    with_one(&rt)?;
    tally_with_one(&rt)
}
