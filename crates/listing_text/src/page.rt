// A page that text is put into, piece after piece.
ghost use Rattle.std.specs.Prelude.{◌+◌, length};
ghost use Rattle.listing_text.specs.Text.{decimal, field, signed};
ghost use Rattle.listing_text.specs.Inner.Room.{HasRoom, Grown};

use crate::digits::{places, put_digits};
use units::Error;

// The bytes of a page, with text up to `end`.
#[derive(Drop)]
pub struct Page<'a> {
    pub bytes: &'a mut [u8],
    pub end: usize,
}

impl Page<'_> {
    // Puts a text.
    pub fn put(&mut self, text: &[u8])
        requires { HasRoom (length text.now) self.old }
        ensures { Grown text.now (length text.now) self.old self.new }
    {
        let end = self.end + text.len();
        self.bytes[self.end..end].copy_from_slice(text);
        self.end = end;
    }

    // A number of at most 20 digits.
    #[tactic(auto, using(crate::proofs::Laws::Decimal::put_places), unfolding(crate::specs::Text::decimal))]
    fn put_number(&mut self, n: u64)
        requires { HasRoom 20 self.old }
        ensures { Grown (decimal n) 20 self.old self.new }
    {
        let end = self.end + places(n);
        put_digits(&mut self.bytes[self.end..end], n);
        self.end = end;
    }

    // A number of at most 20 digits, after its label.
    pub fn put_field(&mut self, label: &[u8], n: u64)
        requires { HasRoom (length label.now + 20) self.old }
        ensures { Grown (field label.now n) (length label.now + 20) self.old self.new }
    {
        self.put(label);
        self.put_number(n);
    }

    // An error, after a space.
    pub fn put_error(&mut self, e: Error)
        requires { HasRoom 22 self.old }
        ensures { Grown (signed e.0) 22 self.old self.new }
    {
        if e.is_negative() {
            self.put(b" -");
        } else {
            self.put(b" ");
        }
        self.put_number(e.size().0);
    }
}
