// The call "Read memory" of document 02.
ghost use Rattle.std.specs.Prelude.{◌≡◌, ◌^◌, ◌≤◌, length, replicate};
ghost use Rattle.memory_text.specs.Read.{reported, missing, ended, reading, left_by, read_report, read_cells};
ghost use Rattle.memory_text.specs.Inner.Steps.{count_given, Came};

use crate::errors::ReadError;
use crate::storing::{MISSING, Progress, obey};
use memory_tokens::next_token;
use units::{GoodShape, Interval, Shape, power, whole_table};

// What a text without a faulty token comes to: the smallest n whose cell was not given, if there is one.
// That every cell was given is told by counting.
fn end_of(given: usize, cells: &[u16]) -> Result<(), ReadError>
    requires { (length cells.now ≤ 2 ^ 15) × (given ≡ count_given cells.now) }
    ensures { Came (ended cells.now) result cells.now }
{
    if given < cells.len() {
        for (n, &cell) in cells.iter().enumerate() {
            if cell == MISSING {
                return Err(ReadError::Missing(Interval(n as u32)));
            }
        }
    }
    Ok(())
}

// Obeys every token, from cells of which none was given. One pass over the text.
fn obey_all(good: GoodShape, text: &[u8], cells: &mut [u16]) -> Result<(), ReadError>
    requires { cells.old ≡ replicate (2 ^ good.shape.k) missing }
    ensures { Came (reading good.shape text.now) result cells.new }
{
    let mut reached = Progress {
        address: 0,
        given: 0,
    };
    let mut at = 0;
    while let Some((word, end)) = next_token(text, at)? {
        reached = obey(good, reached, word, cells)?;
        at = end;
    }
    end_of(reached.given, cells)
}

// The cells of the table are written once nothing can fail any more. One pass over them.
fn read_through(
    good: GoodShape,
    text: &[u8],
    cells: &mut [u16],
    table: &mut [u16],
) -> Result<(), ReadError>
    requires { (cells.old ≡ replicate (2 ^ good.shape.k) missing) × (2 ^ good.shape.k ≤ length table.old) }
    ensures answer { reported result ≡ (reading good.shape text.now).report }
    ensures cells { table.new ≡ left_by good.shape (reading good.shape text.now) table.old }
{
    obey_all(good, text, cells)?;
    table[..cells.len()].copy_from_slice(cells);
    Ok(())
}

// "Read back, a written table is the same table; a refused file leaves the lent cells as they stood."
pub fn read_memory(shape: Shape, text: &[u8], table: &mut [u16]) -> Result<(), ReadError>
    ensures answer { reported result ≡ read_report shape text.now (length table.old) }
    ensures cells { table.new ≡ read_cells shape text.now table.old }
{
    let good = whole_table(shape, table.len())?;
    // Cells of which none was given, as many as the largest table has.
    let mut space = [MISSING; 32768];
    let size = power(shape.k) as usize;
    read_through(good, text, &mut space[..size], table)
}
