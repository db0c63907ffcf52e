// "A running tally takes one entry at a time and is handed back."
ghost use Rattle.std.specs.Prelude.{◌≡◌};
ghost use Rattle.entry.specs.Errors.{j_of};
ghost use Rattle.entry.specs.Inner.Good.{GoodEntry};
ghost use Rattle.survey.specs.Finding.{fresh, value_figures, or_larger};
ghost use Rattle.survey.specs.Tally.{figures_of, state_of, started, tallied_at, reported, tally_report};

use entry::{PlacedEntry, entry_of, entry_placed, larger_of, side_of};
use units::{Fault, GoodShape, Interval, Shape, Side, Worst};

// The largest worst error so far, the smallest n that has it, and that entry's side.
#[derive(Clone, Copy, Debug, PartialEq, Eq)]
pub struct Finding {
    pub worst: Worst,
    pub n: Interval,
    pub side: Side,
}

// The survey's state: the shape, the next n and the finding so far. Its fields may hold anything.
#[derive(Clone, Copy, Debug, PartialEq, Eq)]
pub struct Tally {
    pub shape: Shape,
    pub next: Interval,
    pub finding: Finding,
}

// Why a field was not taken, and the tally as it was: "a refused tally comes back as it was".
#[derive(Clone, Copy, Debug, PartialEq, Eq)]
pub struct NotTaken {
    pub fault: Fault,
    pub tally: Tally,
}

impl Finding {
    // "worst 0, n 0, side 0".
    pub(crate) fn fresh() -> Finding
        ensures { figures_of result ≡ fresh }
    {
        Finding {
            worst: Worst(0),
            n: Interval(0),
            side: Side::Left,
        }
    }

    // "An entry replaces the finding only where its worst is larger."
    pub(crate) fn or_larger(self, entry: PlacedEntry) -> Finding
        ensures { figures_of result ≡ or_larger (figures_of self) (value_figures entry.shape entry.n.0 entry.j.0) }
    {
        let larger = larger_of(entry);
        if self.worst < larger.worst {
            let good = GoodShape { shape: entry.shape };
            return Finding {
                worst: larger.worst,
                n: entry.n,
                side: side_of(good, larger.middle),
            };
        }
        self
    }
}

impl Tally {
    // "A fresh one is given the widths and the first n; its finding is worst 0, n 0, side 0, and
    // starting is never refused." The widths come with the kind.
    pub fn start(shape: Shape, first: Interval) -> Tally
        ensures { state_of result ≡ started shape first.0 }
    {
        Tally {
            shape,
            next: first,
            finding: Finding::fresh(),
        }
    }

    // A method with self takes n and f and returns the next tally. It has no tests of its own, so
    // nobody else can call it.
    fn add(self, n: Interval, f: u16) -> Tally
        requires { GoodEntry self.shape n.0 (j_of self.shape f) }
        ensures { state_of result ≡ tallied_at (state_of self) n.0 f }
    {
        let shape = self.shape;
        let j = entry_of(GoodShape { shape }, f);
        Tally {
            shape,
            next: Interval(n.0 + 1),
            finding: self.finding.or_larger(PlacedEntry { shape, n, j }),
        }
    }

    // "It .. takes the field of that next n."
    #[tactic(auto, using(crate::proofs::Laws::TallyReport::refused_taken))]
    pub fn take(self, f: u16) -> Result<Tally, NotTaken>
        ensures { reported result ≡ tally_report (state_of self) f }
    {
        match entry_placed(self.shape, self.next, f) {
            Ok(_) => Ok(self.add(self.next, f)),
            Err(fault) => Err(NotTaken { fault, tally: self }),
        }
    }
}
