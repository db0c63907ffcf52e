// The lines of the listing.
ghost use Rattle.std.specs.Prelude.{◌+◌, ◌≤◌, length};
ghost use Rattle.units.specs.Sides.{side_number};
ghost use Rattle.units.specs.Refusals.{refusal_number};
ghost use Rattle.entry.specs.Inner.Good.{GoodEntry};
ghost use Rattle.entry.specs.Errors.{j_of};
ghost use Rattle.survey.specs.Tally.{figures_of};
ghost use Rattle.listing_text.specs.Text.{side_end, entry_start, errors_end, first_line, entry_line, last_line, refused_line};
ghost use Rattle.listing_text.specs.Inner.Pages.{Put, line_most};
ghost use Rattle.listing_text.specs.Inner.Room.{HasRoom, Grown};

use crate::page::Page;
use entry::{Errors, Place, PlacedEntry, entry_of, errors_of, left_end, unit_of};
use survey::Finding;
use units::{Entry, GoodShape, Interval, LeftEnd, Refusal, Shape, Side};

// The most bytes that a line has.
pub const LINE_MOST: usize = 134;

impl Page<'_> {
    // " left" or " right", and the end of the line.
    fn put_side(&mut self, s: Side)
        requires { HasRoom 7 self.old }
        ensures { Grown (side_end (side_number s)) 7 self.old self.new }
    {
        match s {
            Side::Left => self.put(b" left\n"),
            Side::Right => self.put(b" right\n"),
        }
    }

    // "n, i, j".
    fn put_numbers(&mut self, n: Interval, i: LeftEnd, j: Entry)
        requires { HasRoom 62 self.old }
        ensures { Grown (entry_start n.0 i.0 j.0) 62 self.old self.new }
    {
        self.put_field(b"", n.0 as u64);
        self.put_field(b" ", i.0 as u64);
        self.put_field(b" ", j.0 as u64);
    }

    // "low, high, worst, side", and the end of the line.
    fn put_errors(&mut self, e: Errors)
        requires { HasRoom 72 self.old }
        ensures { Grown (errors_end e.low.0 e.high.0 e.worst.0 (side_number e.side)) 72 self.old self.new }
    {
        self.put_error(e.low);
        self.put_error(e.high);
        self.put_field(b" ", e.worst.0);
        self.put_side(e.side);
    }

    // "First line: widths and 2^P."
    pub fn put_first(&mut self, good: GoodShape)
        requires { HasRoom line_most self.old }
        ensures { Grown (first_line good.shape) line_most self.old self.new }
    {
        self.put_field(b"k=", good.shape.k as u64);
        self.put_field(b" m=", good.shape.m as u64);
        self.put_field(b" unit=", unit_of(good));
        self.put(b"\n");
    }

    // "Then per entry: n, i, j, low, high, worst, side."
    pub fn put_entry(&mut self, shape: Shape, n: Interval, f: u16)
        requires { (GoodEntry shape n.0 (j_of shape f)) × (HasRoom line_most self.old) }
        ensures { Grown (entry_line shape n.0 f) line_most self.old self.new }
    {
        let j = entry_of(GoodShape { shape }, f);
        self.put_numbers(n, left_end(Place { shape, n }), j);
        self.put_errors(errors_of(PlacedEntry { shape, n, j }));
    }

    // "Last: survey's worst, its n, its side."
    pub fn put_last(&mut self, f: Finding)
        requires { HasRoom line_most self.old }
        ensures { Grown (last_line (figures_of f)) line_most self.old self.new }
    {
        self.put_field(b"worst ", f.worst.0);
        self.put_field(b" ", f.n.0 as u64);
        self.put_side(f.side);
    }
}

// "A refusal is the single line "refused" with its number."
pub fn put_refused(page: &mut [u8], at: usize, r: Refusal) -> usize
    requires { at + line_most ≤ length page.old }
    ensures { Put (refused_line (refusal_number r)) line_most page.old at page.new result }
{
    let mut text = Page {
        bytes: page,
        end: at,
    };
    text.put_field(b"refused ", r.number() as u64);
    text.put(b"\n");
    text.end
}
