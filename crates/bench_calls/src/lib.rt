// The calls that `bench/run` counts, as C calls them. A slice comes as a pointer and a length. What a
// call answers goes into `out`: document 01's number, and then its values, unused ones zero.
#![tactic(auto)]

ghost use Rattle.std.specs.Prelude.{◌≡◌, length};
ghost use Rattle.units.specs.Refusals.{refusal, table_tests};
ghost use Rattle.table.specs.Build.{built};
ghost use Rattle.table.specs.Lookup.{lookup_report};
ghost use Rattle.survey.specs.Survey.{survey_report};
ghost use Rattle.verdict.specs.Check.{check_report};
ghost use Rattle.memory_text.specs.Write.{write_report, written_bytes};
ghost use Rattle.memory_text.specs.Read.{read_report, read_cells};
ghost use Rattle.bench_calls.specs.Numbers.{shape_of, check_numbers, survey_numbers, lookup_numbers, write_numbers, read_numbers};

use recip::{
    Kind, NotPassed, Shape, build, check_table, look_up, number_of, read_memory, survey_table,
    write_memory,
};

// A table's shape: `one` says whether it is a table with one.
fn shape_of(k: u32, m: u32, one: bool) -> Shape
    ensures { result ≡ shape_of k m one }
{
    Shape::of(k, m, if one { Kind::WithOne } else { Kind::Plain })
}

// It answers the number itself.
#[unsafe(no_mangle)]
pub extern "C" fn quirelinnet_build(k: u32, m: u32, one: bool, table: &mut [u16]) -> u32
    ensures answer { result ≡ (refusal (table_tests (shape_of k m one) (length table.old))).number }
    ensures cells { table.new ≡ built (shape_of k m one) table.old }
{
    number_of(build(shape_of(k, m, one), table))
}

// out: number, 1 for yes, n, its worst error, the least one.
#[unsafe(no_mangle)]
pub extern "C" fn quirelinnet_check(k: u32, m: u32, one: bool, table: &[u16], out: &mut [u64; 5])
    ensures { out.new ≡ check_numbers (check_report (shape_of k m one) table.now) }
{
    *out = match check_table(shape_of(k, m, one), table) {
        Ok(()) => [0, 1, 0, 0, 0],
        Err(NotPassed::NotBest { n, worst, least }) => [0, 0, n.0 as u64, worst.0, least.0],
        Err(NotPassed::Faulty(f)) => [f.number() as u64, 0, f.n().0 as u64, 0, 0],
    };
}

// out: number, worst error, n, side.
#[unsafe(no_mangle)]
pub extern "C" fn quirelinnet_survey(k: u32, m: u32, one: bool, table: &[u16], out: &mut [u64; 4])
    ensures { out.new ≡ survey_numbers (survey_report (shape_of k m one) table.now) }
{
    *out = match survey_table(shape_of(k, m, one), table) {
        Ok(found) => [
            0,
            found.worst.0,
            found.n.0 as u64,
            found.side.number() as u64,
        ],
        Err(f) => [f.number() as u64, 0, f.n().0 as u64, 0],
    };
}

// out: number, s, n, j.
#[unsafe(no_mangle)]
pub extern "C" fn quirelinnet_look_up(
    k: u32,
    m: u32,
    one: bool,
    x: u32,
    table: &[u16],
    out: &mut [u64; 4],
)
    ensures { out.new ≡ lookup_numbers (lookup_report (shape_of k m one) x table.now) }
{
    *out = match look_up(shape_of(k, m, one), x, table) {
        Ok(found) => [0, found.s.0 as u64, found.n.0 as u64, found.j.0 as u64],
        Err(f) => [f.number() as u64, 0, f.n().0 as u64, 0],
    };
}

// out: number, length, n.
#[unsafe(no_mangle)]
pub extern "C" fn quirelinnet_write_memory(
    k: u32,
    m: u32,
    one: bool,
    table: &[u16],
    text: &mut [u8],
    out: &mut [u64; 3],
)
    ensures answer { out.new ≡ write_numbers (write_report (shape_of k m one) table.now (length text.old)) }
    ensures bytes { text.new ≡ written_bytes (shape_of k m one) table.now text.old }
{
    *out = match write_memory(shape_of(k, m, one), table, text) {
        Ok(end) => [0, end.0 as u64, 0],
        Err(f) => [f.number() as u64, 0, f.n().0 as u64],
    };
}

// out: number, offset, n.
#[unsafe(no_mangle)]
pub extern "C" fn quirelinnet_read_memory(
    k: u32,
    m: u32,
    one: bool,
    text: &[u8],
    table: &mut [u16],
    out: &mut [u64; 3],
)
    ensures answer { out.new ≡ read_numbers (read_report (shape_of k m one) text.now (length table.old)) }
    ensures cells { table.new ≡ read_cells (shape_of k m one) text.now table.old }
{
    *out = match read_memory(shape_of(k, m, one), text, table) {
        Ok(()) => [0, 0, 0],
        Err(e) => [e.number() as u64, e.offset().0 as u64, e.n().0 as u64],
    };
}
