// Drives every call by 40,000 pseudo-random inputs, good and bad ones mixed, over one buffer of 64
// cells that is never cleaned, so that damaged tables arise. Every answer goes into a digest, of
// which a line is written after each 1000 calls: "calls digest". The order of the draws and what is
// folded into the digest are those of `second/README.md`. The file `stdout` is not this program's
// output: the program in `second/` wrote it by `second hostile`.
#![tactic(auto)]

ghost use Rattle.std.specs.Prelude.{◌≤◌};

use programs::{Digest, Draws, digest_of};
use recip::{
    Error, Errors, Fault, Finding, Found, Interval, NotPassed, NotTaken, Refusal, Shape, Tally,
    build, build_bank, check_table, entry_error, look_up, number_of, show_bank, show_bank_number,
    survey_bank, survey_bank_of, survey_table,
};
use std::io;

// What is drawn for a call; op is its number in `second/README.md`, which is folded in.
#[derive(Clone, Copy)]
struct Inputs {
    op: u64,
    shape: Shape,
    h: u32,
    b: u32,
    n: Interval,
    f: u16,
    x: u32,
    lent: usize,
    ghost in_buffer: { lent ≤ 64 },
}

// From 1 to 65535, with every shift as often as any other.
fn good_divisor(draws: &mut Draws) -> u32 {
    let y = 32768 + draws.small(32768);
    y >> draws.small(16)
}

// Every other time a good one.
fn divisor(draws: &mut Draws) -> u32 {
    match draws.pick(8) {
        0 => 0,
        1 => 65536,
        2 => 2147483648,
        3 => 4294967295,
        _ => good_divisor(draws),
    }
}

fn drawn(draws: &mut Draws) -> Inputs {
    let op = draws.pick(10);
    let k = draws.width(20, 6);
    let m = draws.width(20, 6);
    let shape = Shape::of(k, m, draws.kind());
    let h = draws.small(8);
    let b = draws.small(70);
    let n = Interval(draws.small(70));
    let f = draws.small(200) as u16;
    let x = divisor(draws);
    let lent = draws.small(65) as usize;
    Inputs {
        op,
        shape,
        h,
        b,
        n,
        f,
        x,
        lent,
    }
}

// 1 if it is negative and 0 if not, then its size.
fn signed(e: Error) -> [u64; 2] {
    [u64::from(e.is_negative()), e.size().0]
}

// What is folded into the digest of an answer: its number and its values, unused ones zero.
fn of_errors(answer: Result<Errors, Fault>) -> [u64; 8] {
    match answer {
        Ok(e) => {
            let [low_sign, low] = signed(e.low);
            let [high_sign, high] = signed(e.high);
            let side = e.side.number() as u64;
            [0, 0, low_sign, low, high_sign, high, e.worst.0, side]
        }
        Err(fault) => [fault.number() as u64, fault.n().0 as u64, 0, 0, 0, 0, 0, 0],
    }
}

fn of_survey(answer: Result<Finding, Fault>) -> [u64; 4] {
    match answer {
        Ok(f) => [0, f.n.0 as u64, f.worst.0, f.side.number() as u64],
        Err(fault) => [fault.number() as u64, fault.n().0 as u64, 0, 0],
    }
}

fn of_check(answer: Result<(), NotPassed>) -> [u64; 5] {
    match answer {
        Ok(()) => [0, 1, 0, 0, 0],
        Err(NotPassed::NotBest { n, worst, least }) => [0, 0, n.0 as u64, worst.0, least.0],
        Err(NotPassed::Faulty(fault)) => [fault.number() as u64, 0, fault.n().0 as u64, 0, 0],
    }
}

fn of_look_up(answer: Result<Found, Fault>) -> [u32; 4] {
    match answer {
        Ok(found) => [0, found.s.0, found.n.0, found.j.0],
        Err(fault) => [fault.number(), 0, fault.n().0, 0],
    }
}

fn of_tally(t: Tally) -> [u64; 7] {
    let (shape, f) = (t.shape, t.finding);
    [
        shape.k as u64,
        shape.m as u64,
        shape.kind.ones() as u64,
        t.next.0 as u64,
        f.worst.0,
        f.n.0 as u64,
        f.side.number() as u64,
    ]
}

// The number, the length of the stretch, and its digest.
fn shown(digest: &mut Digest, i: Inputs, cells: &[u16]) {
    let k = i.shape.k;
    let number = number_of(show_bank_number(k, i.h, i.b, cells)) as u64;
    let bank = show_bank(k, i.h, i.b, cells);
    digest.stir_all(&[number, bank.len() as u64, digest_of(bank)]);
}

// The calls that write no cell.
fn read(digest: &mut Digest, i: Inputs, cells: &[u16]) {
    let shape = i.shape;
    match i.op {
        2 => shown(digest, i, cells),
        3 => digest.stir_all(&of_errors(entry_error(shape, i.n, i.f))),
        4 => digest.stir_all(&of_survey(survey_table(shape, cells))),
        5 => digest.stir_all(&of_survey(survey_bank(shape, i.h, i.b, cells))),
        6 => digest.stir_all(&of_survey(survey_bank_of(shape, i.h, i.b, cells))),
        7 => digest.stir_all(&of_check(check_table(shape, cells))),
        _ => digest.stir_all(&of_look_up(look_up(shape, i.x, cells))),
    }
}

// The draws, the buffer and the digest.
#[derive(Drop)]
struct Drive {
    draws: Draws,
    cells: [u16; 64],
    digest: Digest,
}

impl Drive {
    fn start() -> Drive {
        Drive {
            draws: Draws::start(),
            cells: [0; 64],
            digest: Digest::new(),
        }
    }

    // The number, and all cells after the call, those that were not lent too.
    fn built(&mut self, answer: Result<(), Refusal>) {
        self.digest.stir(number_of(answer) as u64);
        self.digest.stir_all(&self.cells);
    }

    // The number and the n of a take, and the tally that came back.
    fn take(&mut self, t: Tally, f: u16) -> Tally {
        match t.take(f) {
            Ok(taken) => {
                self.digest.stir_all(&[0u32, 0]);
                taken
            }
            Err(NotTaken { fault, tally }) => {
                self.digest.stir_all(&[fault.number(), fault.n().0]);
                tally
            }
        }
    }

    // Stores f in a cell, where it may be no field; then a tally takes f, and what comes back
    // takes f % 4.
    fn damage(&mut self, i: Inputs) {
        self.cells[i.n.0 as usize % 64] = i.f;
        let first = self.take(Tally::start(i.shape, i.n), i.f);
        let second = self.take(first, i.f % 4);
        self.digest.stir_all(&of_tally(second));
    }

    // The next call.
    fn call(&mut self) {
        let i = drawn(&mut self.draws);
        self.digest.stir(i.op);
        match i.op {
            0 => {
                let answer = build(i.shape, &mut self.cells[..i.lent]);
                self.built(answer);
            }
            1 => {
                let answer = build_bank(i.shape, i.h, i.b, &mut self.cells[..i.lent]);
                self.built(answer);
            }
            9 => self.damage(i),
            _ => read(&mut self.digest, i, &self.cells[..i.lent]),
        }
    }

    fn thousand(&mut self) {
        for _ in 0..1000 {
            self.call();
        }
    }
}

fn main(rt: HostRuntime) -> io::Result<()> {
    let mut drive = Drive::start();
    for calls in (1000u32..=40000).step_by(1000) {
        drive.thousand();
        println!(&rt; "{calls} {}", drive.digest.value())?;
    }
    Ok(())
}
