// Builds and surveys the table of every pair of widths from 1 to 15, plain and then with one, and writes
// a line for each: "k m digest worst n side ties", or "k m one ..". The digest is that of the fields;
// worst, n and side are the survey's; ties counts the entries that have a second value with the same
// worst error. The file `stdout` is not this program's output: the program in `second/`, which tries
// every value for every interval, wrote it by `second widths`.
#![tactic(auto)]

use programs::{Named, digest_of};
use recip::{Finding, Interval, Kind, Shape, Worst, build, entry_error, show_bank, survey_table};
use std::io;

// The worst error of one entry; none of a field that m bits do not hold.
fn worst_of(shape: Shape, n: u32, f: u16) -> Option<Worst> {
    entry_error(shape, Interval(n), f).ok().map(|e| e.worst)
}

// Whether a field beside f has the worst error of f, too.
fn is_tied(shape: Shape, n: u32, f: u16) -> bool {
    let Some(worst) = worst_of(shape, n, f) else {
        return false;
    };
    let is_as_good = |f: u16| worst_of(shape, n, f) == Some(worst);
    f.checked_sub(1).is_some_and(is_as_good) || f.checked_add(1).is_some_and(is_as_good)
}

fn ties(shape: Shape, fields: &[u16]) -> usize {
    (0..32768)
        .zip(fields.iter())
        .filter(|&(n, &f)| is_tied(shape, n, f))
        .count()
}

// The table itself is its one bank at h = 0. No line of `stdout` has a refusal.
fn line(rt: &impl Print, shape: Shape) -> io::Result<()> {
    let mut cells = [0u16; 32768];
    let _ = build(shape, &mut cells);
    let table = show_bank(shape.k, 0, 0, &cells);
    let named = Named(shape);
    let digest = digest_of(table);
    let ties = ties(shape, table);
    match survey_table(shape, table) {
        Ok(Finding { worst, n, side }) => {
            println!(rt;
                "{named} {digest} {} {} {} {ties}",
                worst.0,
                n.0,
                side.number()
            )
        }
        Err(fault) => println!(rt; "{named} refused, number {}", fault.number()),
    }
}

fn main(rt: HostRuntime) -> io::Result<()> {
    for kind in [Kind::Plain, Kind::WithOne] {
        for k in 1..16 {
            for m in 1..16 {
                line(&rt, Shape::of(k, m, kind))?;
            }
        }
    }
    Ok(())
}
