// Runs "Entry error" at the ends of its inputs, and over the source's Table 1. The file `stdout` is
// not this program's output: its edge cases are worked out from document 01's definitions, and its
// last 32 lines are transcribed from the source.
#![tactic(auto)]

ghost use Rattle.std.specs.Prelude.{◌<◌};

use entry::{Errors, best_field, entry_error, entry_of, placed};
use programs::Named;
use std::{fmt, io};
use units::{Entry, Fault, GoodShape, Interval, Kind, Shape, power};

// k: below the widths, their ends, above them; and for each the first interval, the last one, the one
// past it, and the largest number.
const INPUTS: [(u32, [u32; 4]); 4] = [
    (0, [0, 0, 1, 4294967295]),
    (1, [0, 1, 2, 4294967295]),
    (15, [0, 32767, 32768, 4294967295]),
    (16, [0, 65535, 65536, 4294967295]),
];

// The same of m, and for each the first field, the last one, the one past it, and the largest cell.
const OUTPUTS: [(u32, [u16; 4]); 4] = [
    (0, [0, 0, 1, 65535]),
    (1, [0, 1, 2, 65535]),
    (15, [0, 32767, 32768, 65535]),
    (16, [0, 65534, 65535, 65535]),
];

// The same in tables with one, for m = 1 and 15.
const OUTPUTS_WITH_ONE: [(u32, [u16; 4]); 2] = [
    (1, [0, 2, 3, 65535]),
    (15, [0, 32768, 32769, 65535]),
];

// "k m n f: number n low high worst side", or "k m one n f: ..", unused ones zero.
fn edge(rt: &impl Print, shape: Shape, n: u32, f: u16) -> io::Result<()> {
    let named = Named(shape);
    match entry_error(shape, Interval(n), f) {
        Ok(e) => println!(rt;
            "{named} {n} {f}: 0 0 {} {} {} {}",
            e.low.0,
            e.high.0,
            e.worst.0,
            e.side.number()
        ),
        Err(fault) => println!(rt;
            "{named} {n} {f}: {} {} 0 0 0 0",
            fault.number(),
            fault.n().0
        ),
    }
}

// All intervals and fields of all pairs of some widths.
fn edges(
    rt: &impl Print,
    kind: Kind,
    inputs: &[(u32, [u32; 4])],
    outputs: &[(u32, [u16; 4])],
) -> io::Result<()> {
    for &(k, intervals) in inputs {
        for &(m, fields) in outputs {
            let shape = Shape::of(k, m, kind);
            for n in intervals {
                for f in fields {
                    edge(rt, shape, n, f)?;
                }
            }
        }
    }
    Ok(())
}

// An interval's best entry, in parts of a whole, with its relative error interval.
#[derive(Clone, Copy)]
struct Best {
    j: Entry,
    whole: u64,
    errors: Errors,
}

// "63/64 (-31,32]", as Table 1 prints it.
impl fmt::Display for Best {
    fn fmt<W: fmt::Write>(&self, f: &mut fmt::Formatter<W>) -> fmt::Result {
        let Best { j, whole, errors } = self;
        write!(f, "{}/{whole} ({},{}]", j.0, errors.low.0, errors.high.0)
    }
}

// The builder's entry for an interval, with its errors.
fn best_of(shape: Shape, n: Interval) -> Result<Best, Fault> {
    let place = placed(shape, n)?;
    let f = best_field(place);
    Ok(Best {
        j: entry_of(GoodShape { shape: place.shape }, f),
        whole: power(place.shape.m + 1),
        errors: entry_error(shape, n, f)?,
    })
}

// A line of Table 1: the interval, and its entry of 5 and of 6 bits.
fn row(rt: &impl Print, n: u32) -> io::Result<()>
    requires { n < 32 }
{
    print!(rt; "[{}/32,{}/32)", 32 + n, 33 + n)?;
    for m in [5, 6] {
        match best_of(Shape::of(5, m, Kind::Plain), Interval(n)) {
            Ok(best) => print!(rt; " {best}")?,
            Err(fault) => print!(rt; " refused, number {}", fault.number())?,
        }
    }
    println!(rt;)
}

fn main(rt: HostRuntime) -> io::Result<()> {
    edges(&rt, Kind::Plain, &INPUTS, &OUTPUTS)?;
    edges(&rt, Kind::WithOne, &INPUTS[1..3], &OUTPUTS_WITH_ONE)?;
    for n in 0..32 {
        row(&rt, n)?;
    }
    Ok(())
}
