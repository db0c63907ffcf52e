// The tests of a table's fields: 5, looked for in the whole lent table, after 1, 2 and 3.
ghost use Rattle.std.specs.Prelude.{◌≡◌, [], ◌∷◌, ◌≤◌, ◌^◌, IfOk, length};
ghost use Rattle.units.specs.Refusals.{refusal, fault_reply_of};
ghost use Rattle.table.specs.Inner.Largest.{largest_of};
ghost use Rattle.table.specs.Wide.{wide_among, field_tests};

use entry::is_wide;
use units::{Fault, GoodShape, Interval, Shape, power, whole_table};

// The largest of some fields, or 0 of none.
fn largest(cells: &[u16]) -> u16
    ensures { result ≡ largest_of cells.now }
{
    let mut most = 0;
    for &f in cells {
        most = f.max(most);
    }
    most
}

// 5: "number and the smallest such n". The largest field alone says whether there is one.
fn wide_among(good: GoodShape, cells: &[u16]) -> Result<(), Fault>
    requires { length cells.now ≤ 2 ^ good.shape.k }
    ensures { fault_reply_of result ≡ refusal (wide_among good.shape 0 cells.now ∷ []) }
{
    if is_wide(good, largest(cells)) {
        for (n, &f) in cells.iter().enumerate() {
            if is_wide(good, f) {
                return Err(Fault::TooWide(Interval(n as u32)));
            }
        }
    }
    Ok(())
}

// 1, 2, 3, 5: "look for 5 in the whole lent table first".
pub fn whole_fields(shape: Shape, table: &[u16]) -> Result<GoodShape, Fault>
    ensures answer { fault_reply_of result ≡ refusal (field_tests shape table.now) }
    ensures same { IfOk result (λ good. good.shape ≡ shape) }
{
    let good = whole_table(shape, table.len())?;
    let size = power(shape.k) as usize;
    wide_among(good, &table[..size])?;
    Ok(good)
}
