// What the scheduler of a render farm does with the library: it builds the tables of its cards,
// checks the images that reach it, and picks the card for a retry. Rattle proves each function here
// by itself. The file `stdout` is not this program's output: it is worked out from the documents'
// definitions.
#![tactic(auto)]

ghost use Rattle.std.specs.Prelude.{◌*◌, ◌≤◌, ◌≡◌, leb};

use recip::{
    Fault, Finding, Kind, NotPassed, Shape, Side, Worst, build, check_table, look_up, survey_table,
};
use std::{fmt, io};

// A family of cards: k bits of the divisor in, m bits of the reciprocal out, and no wire for 1.0. Its
// errors are counted in parts of a whole, 2^(k+m+1).
#[derive(Clone, Copy)]
struct Card {
    name: &'static str,
    shape: Shape,
    whole: u64,
}

const NARROW: Card = Card {
    name: "narrow",
    shape: Shape {
        k: 5,
        m: 5,
        kind: Kind::Plain,
    },
    whole: 2048,
};

const WIDE: Card = Card {
    name: "wide",
    shape: Shape {
        k: 6,
        m: 7,
        kind: Kind::Plain,
    },
    whole: 16384,
};

// A call that cannot do what was asked says why by a number of the documents, and writes no cell.
// Number 5, a field of more than m bits, names its interval besides.
#[derive(Clone, Copy)]
struct Refused(Fault);

impl fmt::Display for Refused {
    fn fmt<W: fmt::Write>(&self, f: &mut fmt::Formatter<W>) -> fmt::Result {
        let fault = self.0;
        write!(f, "refused, number {}", fault.number())?;
        match fault {
            Fault::TooWide(n) => write!(f, ", interval {}", n.0),
            Fault::Refused(_) => Ok(()),
        }
    }
}

// 1. The best table of a card's widths, in a buffer that the scheduler lends.
fn build_for(rt: &impl Print, card: Card, cells: &mut [u16]) -> io::Result<()> {
    print!(rt; "{} cards: ", card.name)?;
    match build(card.shape, cells) {
        Ok(()) => println!(rt; "the best table is built"),
        Err(refusal) => println!(rt; "{}", Refused(refusal.into())),
    }
}

// 2. "The farm may load only tables that pass": of any other, the entry at fault or the refusal.
fn check_image(rt: &impl Print, name: &str, card: Card, image: &[u16]) -> io::Result<()> {
    print!(rt; "{name} image: ")?;
    match check_table(card.shape, image) {
        Ok(()) => println!(rt; "passes"),
        Err(NotPassed::NotBest { n, worst, least }) => println!(rt;
            "interval {} is at fault, worst {} parts, best possible {}",
            n.0, worst.0, least.0
        ),
        Err(NotPassed::Faulty(fault)) => println!(rt; "{}", Refused(fault)),
    }
}

// 3. "Table images reach us from tools we didn't write": a good one for the narrow cards, and three
// bad ones. Each `let mut` makes a copy of the good one. (The short one is `[0..31]`: of `[..31]` the check
// finds no bound here.)
fn check_images(rt: &impl Print, vendor: [u16; 32]) -> io::Result<()> {
    check_image(rt, "vendor", NARROW, &vendor)?;
    let mut damaged = vendor;
    damaged[8] = 20;
    check_image(rt, "damaged", NARROW, &damaged)?;
    let mut over_wide = vendor;
    over_wide[20] = 32;
    check_image(rt, "over-wide", NARROW, &over_wide)?;
    check_image(rt, "short", NARROW, &vendor[0..31])
}

fn side_name(side: Side) -> &'static str {
    match side {
        Side::Left => "left",
        Side::Right => "right",
    }
}

// 4. The worst error of a card's table as an exact fraction, where it is, and on which side.
fn surveyed(rt: &impl Print, card: Card, answer: Result<Finding, Fault>) -> io::Result<()> {
    print!(rt; "{} cards: ", card.name)?;
    match answer {
        Ok(Finding { worst, n, side }) => println!(rt;
            "worst {}/{} at interval {}, {}",
            worst.0,
            card.whole,
            n.0,
            side_name(side)
        ),
        Err(fault) => println!(rt; "{}", Refused(fault)),
    }
}

// Whether the wide cards' worst error is no larger than the narrow cards', as exact fractions: by
// cross-multiplication. It requires errors of at most a whole, so that the products fit.
fn no_larger(wide: Worst, narrow: Worst) -> bool
    requires { (wide.0 ≤ 16384) × (narrow.0 ≤ 2048) }
    ensures { result ≡ leb (wide.0 * 2048) (narrow.0 * 16384) }
{
    wide.0 * NARROW.whole <= narrow.0 * WIDE.whole
}

// No error passes a whole, so the first two tests never fail. After them, what `no_larger` requires is
// known.
fn nothing_loosens(wide: Worst, narrow: Worst) -> bool {
    wide.0 <= WIDE.whole && narrow.0 <= NARROW.whole && no_larger(wide, narrow)
}

// "A retry goes to a card at least as wide, and I promise the colourist that nothing loosens." Of best
// tables the library proves it for every interval; here it shows in the worst error of each table.
// Where a survey was refused, nothing is promised.
fn pick_retry(
    rt: &impl Print,
    narrow: Result<Finding, Fault>,
    wide: Result<Finding, Fault>,
) -> io::Result<()> {
    let (Ok(narrow), Ok(wide)) = (narrow, wide) else {
        return Ok(());
    };
    if nothing_loosens(wide.worst, narrow.worst) {
        println!(rt; "retry on a wide card: nothing loosens")
    } else {
        println!(rt; "retry on a narrow card")
    }
}

// 5. What a card starts a division from. A divisor goes in as it comes: it is shifted up by s places,
// n is the interval that it is then in, and j the entry.
fn look_up_on(rt: &impl Print, card: Card, divisor: u32, cells: &[u16]) -> io::Result<()> {
    print!(rt; "divisor {divisor} on a {} card: ", card.name)?;
    match look_up(card.shape, divisor, cells) {
        Ok(found) => println!(rt; "s = {}, n = {}, j = {}", found.s.0, found.n.0, found.j.0),
        Err(fault) => println!(rt; "{}", Refused(fault)),
    }
}

fn main(rt: HostRuntime) -> io::Result<()> {
    let mut narrow = [0u16; 32];
    let mut wide = [0u16; 64];
    build_for(&rt, NARROW, &mut narrow)?;
    build_for(&rt, WIDE, &mut wide)?;
    check_images(&rt, narrow)?;
    let of_narrow = survey_table(NARROW.shape, &narrow);
    let of_wide = survey_table(WIDE.shape, &wide);
    surveyed(&rt, NARROW, of_narrow)?;
    surveyed(&rt, WIDE, of_wide)?;
    pick_retry(&rt, of_narrow, of_wide)?;
    look_up_on(&rt, NARROW, 40960, &narrow)?;
    look_up_on(&rt, WIDE, 40960, &wide)?;
    look_up_on(&rt, WIDE, 5, &wide)?;
    look_up_on(&rt, WIDE, 0, &wide)
}
