// The calls "Survey" and the bank surveys of document 01.
ghost use Rattle.std.specs.Prelude.{◌≡◌, [], ◌∷◌, ◌+◌, ◌-◌, ◌≤◌, ◌^◌, length, take, drop};
ghost use Rattle.units.specs.Refusals.{few_cells};
ghost use Rattle.survey.specs.Survey.{reported, survey_after, survey_report, bank_report, bank_of_report};

use crate::tallies::Finding;
use entry::{PlacedEntry, fields_of, larger_of, side_of};
use std::ops::Range;
use table::named_bank;
use units::{Fault, GoodShape, Interval, Refusal, Shape, Worst, power, widths};

// The survey of some cells, the first of them that of interval first. One pass: the first over-wide
// field is the smallest n of 5, whatever was found before it. The side is told at the end: no `Finding`
// is kept, which would cost each entry four instructions (docs/BENCHMARKS.md).
fn survey_fields(good: GoodShape, first: u32, cells: &[u16]) -> Result<Finding, Fault>
    requires { first + length cells.now ≤ 2 ^ good.shape.k }
    ensures { reported result ≡ survey_after [] good.shape first cells.now }
{
    let shape = good.shape;
    let fields = fields_of(good);
    let mut most = Worst(0);
    let mut place = Interval(0);
    let mut middle: u64 = 0;
    for (at, &f) in cells.iter().enumerate() {
        let n = Interval(first + at as u32);
        if fields.is_wide(f) {
            return Err(Fault::TooWide(n));
        }
        let j = fields.entry(f);
        let larger = larger_of(PlacedEntry { shape, n, j });
        if most.0 < larger.worst.0 {
            most = larger.worst;
            place = n;
            middle = larger.middle;
        }
    }
    Ok(Finding {
        worst: most,
        n: place,
        side: side_of(good, middle),
    })
}

// Test 3, and the survey of a part of the cells: it is handed to the survey as a slice starting in the
// middle, with its first index.
fn survey_part(
    good: GoodShape,
    first: u32,
    cells: &[u16],
    part: Range<usize>,
) -> Result<Finding, Fault>
    requires { (part.start ≤ part.end) × (first + (part.end - part.start) ≤ 2 ^ good.shape.k) }
    ensures { reported result ≡ survey_after (few_cells (length cells.now) part.end ∷ []) good.shape first (take (part.end - part.start) (drop part.start cells.now)) }
{
    if cells.len() < part.end {
        return Err(Fault::Refused(Refusal::FewCells));
    }
    survey_fields(good, first, &cells[part])
}

// "Survey reads any table, optimal or not, and gives the largest worst error, the smallest n that has
// it, and that entry's side."
pub fn whole(shape: Shape, table: &[u16]) -> Result<Finding, Fault>
    ensures { reported result ≡ survey_report shape table.now }
{
    let good = widths(shape)?;
    survey_part(good, 0, table, 0..power(shape.k) as usize)
}

// "A bank can be surveyed by itself, given its number; it then answers with n counted in the whole
// table": lent the bank's own cells.
pub fn bank(shape: Shape, h: u32, b: u32, cells: &[u16]) -> Result<Finding, Fault>
    ensures { reported result ≡ bank_report shape h b cells.now }
{
    let bank = named_bank(shape, h, b)?;
    let size = bank.end - bank.first;
    survey_part(GoodShape { shape }, bank.first as u32, cells, 0..size)
}

// The same, lent the table: the part from b·2^(k-h) on.
pub fn bank_of(shape: Shape, h: u32, b: u32, table: &[u16]) -> Result<Finding, Fault>
    ensures { reported result ≡ bank_of_report shape h b table.now }
{
    let bank = named_bank(shape, h, b)?;
    let part = bank.first..bank.end;
    survey_part(GoodShape { shape }, bank.first as u32, table, part)
}
