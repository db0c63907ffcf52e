// The refusal table of document 01: its numbers, and its tests.
ghost use Rattle.std.specs.Prelude.{◌≡◌, [], ◌∷◌, ◌^◌, leb, IfOk};
ghost use Rattle.units.specs.declared.refusals.Fault.TheVariants.{Refused};
ghost use Rattle.units.specs.Refusals.{test, reply, reply_of, fault_reply, refusal_number, refusal, outside, input_width, output_width, few_cells, bank_height, bank_number, place, divisor, width_tests, table_tests};

use crate::counts::Interval;
use crate::good::GoodShape;
use crate::powers::power;
use crate::shapes::Shape;

// The refusals that give a number only. Number 5 names an interval besides, so it stands beside them in
// a `Fault`. Those of a memory text that name a place, 8, 9, 5, 10 and 11, are an error of their own.
#[derive(Clone, Copy, Debug, PartialEq, Eq)]
pub enum Refusal {
    // 1: k is not from 1 to 15.
    InputWidth = 1,
    // 2: m is not from 1 to 15.
    OutputWidth = 2,
    // 3: fewer cells are lent than the table or the bank has.
    FewCells = 3,
    // 4: h, b or n is not a place of the table.
    Place = 4,
    // 6: X is not from 1 to 65535.
    Divisor = 6,
    // 7: the listing's input line has another form.
    Line = 7,
    // 17: the lent text buffer is too short.
    ShortText = 17,
}

impl Refusal {
    // Document 01's number for it.
    pub fn number(self) -> u32
        ensures { result ≡ refusal_number self }
    {
        self as u32
    }
}

// Why a call that reads fields gives no answer: a number that is no field, 5, which names its interval
// besides; or another refusal.
#[derive(Clone, Copy, Debug, PartialEq, Eq)]
pub enum Fault {
    TooWide(Interval),
    Refused(Refusal),
}

impl From<Refusal> for Fault {
    ghost from_gives = { λ r f. f ≡ Refused r };

    fn from(r: Refusal) -> Self {
        Self::Refused(r)
    }
}

impl Fault {
    // Document 01's number for it.
    pub fn number(self) -> u32
        ensures { result ≡ (fault_reply self).number }
    {
        match self {
            Fault::TooWide(_) => 5,
            Fault::Refused(r) => r.number(),
        }
    }

    // The n that it names, or 0.
    pub fn n(self) -> Interval
        ensures { result.0 ≡ (fault_reply self).n }
    {
        match self {
            Fault::TooWide(n) => n,
            Fault::Refused(_) => Interval(0),
        }
    }
}

// Document 01's number for an answer that has no other value.
pub fn number_of(answer: Result<(), Refusal>) -> u32
    ensures { result ≡ (reply_of answer).number }
{
    match answer {
        Ok(()) => 0,
        Err(r) => r.number(),
    }
}

#[tactic(auto, unfolding(crate::specs::Refusals::answer))]
fn refused_if(holds: bool, r: Refusal) -> Result<(), Refusal>
    ensures { reply_of result ≡ refusal (test holds (reply (refusal_number r) 0) ∷ []) }
{
    if holds { Err(r) } else { Ok(()) }
}

// Whether x is not from least to most.
#[tactic(auto, unfolding(crate::specs::Refusals::outside))]
fn is_outside(least: u32, most: u32, x: u32) -> bool
    ensures { result ≡ outside least most x }
{
    x < least || most < x
}

// Whether x is 2^w or more, for any w.
fn reaches(w: u32, x: u64) -> bool
    ensures { result ≡ leb (2 ^ w) x }
{
    w < 64 && power(w) <= x
}

// Refused if x is 2^w or more.
fn refused_past(w: u32, x: u64, r: Refusal) -> Result<(), Refusal>
    ensures { reply_of result ≡ refusal (test (leb (2 ^ w) x) (reply (refusal_number r) 0) ∷ []) }
{
    refused_if(reaches(w, x), r)
}

// "not 1..15", of either width.
fn no_width(w: u32) -> bool
    ensures { result ≡ outside 1 15 w }
{
    is_outside(1, 15, w)
}

fn refused_width(w: u32, r: Refusal) -> Result<(), Refusal>
    ensures { reply_of result ≡ refusal (test (outside 1 15 w) (reply (refusal_number r) 0) ∷ []) }
{
    refused_if(no_width(w), r)
}

// 1: "k not 1..15".
pub fn input_width(k: u32) -> Result<(), Refusal>
    ensures { reply_of result ≡ refusal (input_width k ∷ []) }
{
    refused_width(k, Refusal::InputWidth)
}

// 2: "m not 1..15".
pub fn output_width(m: u32) -> Result<(), Refusal>
    ensures { reply_of result ≡ refusal (output_width m ∷ []) }
{
    refused_width(m, Refusal::OutputWidth)
}

// 3: fewer than 2^w cells lent.
#[tactic(auto, unfolding(crate::specs::Refusals::answer))]
pub fn few_cells(lent: usize, w: u32) -> Result<(), Refusal>
    ensures { reply_of result ≡ refusal (few_cells lent (2 ^ w) ∷ []) }
{
    refused_if(!reaches(w, lent as u64), Refusal::FewCells)
}

// 4: "h > k".
pub fn bank_height(k: u32, h: u32) -> Result<(), Refusal>
    ensures { reply_of result ≡ refusal (bank_height k h ∷ []) }
{
    refused_if(k < h, Refusal::Place)
}

// 4: "b >= 2^h".
pub fn bank_number(h: u32, b: u32) -> Result<(), Refusal>
    ensures { reply_of result ≡ refusal (bank_number h b ∷ []) }
{
    refused_past(h, b as u64, Refusal::Place)
}

// 4: "n >= 2^k".
pub fn interval_place(k: u32, n: Interval) -> Result<(), Refusal>
    ensures { reply_of result ≡ refusal (place k n.0 ∷ []) }
{
    refused_past(k, n.0 as u64, Refusal::Place)
}

// 6, as document 02 has it: "X is 0 or above 65535".
pub fn divisor_range(x: u32) -> Result<(), Refusal>
    ensures { reply_of result ≡ refusal (divisor x ∷ []) }
{
    refused_if(is_outside(1, 65535, x), Refusal::Divisor)
}

// 1 and 2, with which every call that takes both widths begins.
#[tactic(auto, using(crate::proofs::Laws::Tests::refusal_numbered), unfolding(crate::specs::Refusals::answer))]
pub fn widths(shape: Shape) -> Result<GoodShape, Refusal>
    ensures answer { reply_of result ≡ refusal (width_tests shape) }
    ensures same { IfOk result (λ good. good.shape ≡ shape) }
{
    input_width(shape.k)?;
    output_width(shape.m)?;
    Ok(GoodShape { shape })
}

// 1, 2 and 3, with which every call begins that takes a whole table.
#[tactic(auto, using(crate::proofs::Laws::Tests::refusal_numbered), unfolding(crate::specs::Refusals::answer))]
pub fn whole_table(shape: Shape, lent: usize) -> Result<GoodShape, Refusal>
    ensures answer { reply_of result ≡ refusal (table_tests shape lent) }
    ensures same { IfOk result (λ good. good.shape ≡ shape) }
{
    let good = widths(shape)?;
    few_cells(lent, shape.k)?;
    Ok(good)
}
