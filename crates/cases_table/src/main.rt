// Runs the calls on plain tables at the ends of their inputs. Every call finds a buffer of 32,769 cells
// that all hold 43981; after it the program shows how many cells differ from that, and a digest of
// them all. The file `stdout` is not this program's output: it is worked out from document 01's
// definitions, with the best value of each interval found by comparing worst errors.
#![tactic(auto)]

use programs::digest_of;
use std::io;
use table::{build, build_bank, show_bank, show_bank_number};
use units::{Kind, Shape, number_of};

// m: below the widths, their ends, above them.
const OUTPUTS: [u32; 4] = [0, 1, 15, 16];

// The same of k, and for each k a cell less than 2^k, 2^k, and a cell more (of 2^16, what the buffer
// has).
const INPUTS: [(u32, [usize; 3]); 4] = [
    (0, [0, 1, 2]),
    (1, [1, 2, 3]),
    (15, [32767, 32768, 32769]),
    (16, [32767, 32768, 32769]),
];

// For k = 5: h at its ends and past them, and for each its last bank and the number past it.
const BANKS: [(u32, u32); 6] = [(0, 0), (0, 1), (5, 31), (5, 32), (6, 63), (6, 64)];

fn changed(cells: &[u16]) -> usize {
    cells.iter().filter(|&&c| c != 43981).count()
}

// "build k m cells: number changed digest". No case lends more than the buffer has.
fn build_case(rt: &impl Print, k: u32, m: u32, lent: usize) -> io::Result<()> {
    let mut cells = [43981u16; 32769];
    let Some(table) = cells.get_mut(..lent) else {
        return Ok(());
    };
    let number = number_of(build(Shape::of(k, m, Kind::Plain), table));
    println!(rt;
        "build {k} {m} {lent}: {number} {} {}",
        changed(&cells),
        digest_of(&cells)
    )
}

// "bank h b cells: number changed digest", for k = 5 and m = 5
fn bank_case(rt: &impl Print, h: u32, b: u32, lent: usize) -> io::Result<()> {
    let mut cells = [43981u16; 32769];
    let Some(table) = cells.get_mut(..lent) else {
        return Ok(());
    };
    let number = number_of(build_bank(Shape::of(5, 5, Kind::Plain), h, b, table));
    println!(rt;
        "bank {h} {b} {lent}: {number} {} {}",
        changed(&cells),
        digest_of(&cells)
    )
}

// "show h b: number cells digest", for a built table of k = 5 and m = 5
fn show_case(rt: &impl Print, h: u32, b: u32) -> io::Result<()> {
    let mut cells = [43981u16; 32769];
    let _ = build(Shape::of(5, 5, Kind::Plain), &mut cells);
    let number = number_of(show_bank_number(5, h, b, &cells));
    let bank = show_bank(5, h, b, &cells);
    println!(rt; "show {h} {b}: {number} {} {}", bank.len(), digest_of(bank))
}

fn main(rt: HostRuntime) -> io::Result<()> {
    for (k, lengths) in INPUTS {
        for lent in lengths {
            for m in OUTPUTS {
                build_case(&rt, k, m, lent)?;
            }
        }
    }
    for (h, b) in BANKS {
        bank_case(&rt, h, b, 31)?;
        bank_case(&rt, h, b, 32)?;
    }
    for (h, b) in BANKS {
        show_case(&rt, h, b)?;
    }
    Ok(())
}
