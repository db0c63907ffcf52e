// The text of a listing, page by page.
ghost use Rattle.std.specs.Prelude.{◌≡◌, ◌+◌, ◌≤◌, ◌<◌, length};
ghost use Rattle.listing_text.specs.Inner.Pages.{line_most, Paged};
ghost use Rattle.listing_text.specs.Inner.Room.{HasRoom, Grown};
ghost use Rattle.listing_text.specs.Listing.{line_of, line_count, table_text};

use crate::best::BestTable;
use crate::lines::LINE_MOST;
use crate::page::Page;
use units::{GoodShape, Interval, power, small_power};

// The lines before `next` are in the page, in its bytes up to `end`.
#[derive(Clone, Copy)]
pub struct Filled {
    pub next: u32,
    pub end: usize,
}

// How many lines the listing of a table has.
pub fn line_count(k: u32) -> u32
    requires { k ≤ 15 }
    ensures { result ≡ line_count k }
{
    small_power(k) + 2
}

impl Page<'_> {
    // Line t.
    #[tactic(auto, using(crate::proofs::Laws::Pages::put_lines))]
    fn put_line(&mut self, best: BestTable, t: u32)
        requires { (t < line_count best.shape.k) × (HasRoom line_most self.old) }
        ensures { Grown (line_of best.entry.shape t) line_most self.old self.new }
    {
        let shape = best.shape;
        if t == 0 {
            return self.put_first(GoodShape { shape });
        }
        let n = t - 1;
        if (n as u64) < power(shape.k) {
            return self.put_entry(shape, Interval(n), best.cells[n as usize]);
        }
        self.put_last(best.worst)
    }
}

// Fills the page with whole lines from line `from` on, as many as fit: one at least.
#[tactic(auto, using(crate::proofs::Laws::Pages::filled_lines))]
pub fn fill_page(page: &mut [u8], best: BestTable, from: u32) -> Filled
    requires { (from < line_count best.shape.k) × (line_most ≤ length page.old) }
    ensures { Paged (table_text best.entry.shape) from page.new result.next result.end }
{
    let lines = line_count(best.shape.k);
    let mut text = Page {
        bytes: page,
        end: 0,
    };
    for next in from..lines {
        // Never before the first line: the empty page has room for it.
        if text.bytes.len() - text.end < LINE_MOST {
            return Filled {
                next,
                end: text.end,
            };
        }
        text.put_line(best, next);
    }
    Filled {
        next: lines,
        end: text.end,
    }
}
