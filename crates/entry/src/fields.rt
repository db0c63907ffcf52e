// What a field may be, and the value it stands for.
ghost use Rattle.std.specs.Prelude.{◌≡◌, ◌+◌, ◌^◌, ◌≤◌, leb};
ghost use Rattle.entry.specs.Errors.{j_of};
ghost use Rattle.entry.specs.Fields.{fields_end, is_wide};

use units::{Entry, GoodShape, small_power};

// The fields of a table: the value that field 0 stands for, and the first number that is no field.
#[derive(Clone, Copy)]
pub struct Fields {
    pub first: Entry,
    pub end: u32,
    pub ghost fits: { first.0 ≤ 2 ^ 16 },
}

// Every test of a field and every value of one is by this one function.
pub fn fields_of(good: GoodShape) -> Fields
    ensures { (result.first.0 ≡ 2 ^ good.shape.m) × (result.end ≡ fields_end good.shape) }
{
    let size = small_power(good.shape.m);
    Fields {
        first: Entry(size),
        end: size + good.shape.kind.ones(),
    }
}

impl Fields {
    // Whether f is no field.
    pub fn is_wide(self, f: u16) -> bool
        ensures { result ≡ leb self.end f }
    {
        self.end <= f as u32
    }

    // The value that f stands for.
    pub fn entry(self, f: u16) -> Entry
        ensures { result.0 ≡ self.first.0 + f }
    {
        Entry(self.first.0 + f as u32)
    }
}

// Whether f is no field of the shape.
pub fn is_wide(good: GoodShape, f: u16) -> bool
    ensures { result ≡ is_wide good.shape f }
{
    fields_of(good).is_wide(f)
}

// j = 2^m + f.
pub fn entry_of(good: GoodShape, f: u16) -> Entry
    ensures { result.0 ≡ j_of good.shape f }
{
    fields_of(good).entry(f)
}
