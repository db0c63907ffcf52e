// The text of a round: how it is made, damaged, read and written over.
ghost use Rattle.std.specs.Prelude.{◌<◌, ◌≤◌};

use programs::Draws;
use recip::{Fault, Offset, ReadError, Shape, read_memory, write_memory};

// Bytes that mean something to a reader, and some that have no place in a text.
const PALETTE: [u8; 16] = *b"09aF_@ \n\t\x0c\r/*xg\0";

const LOWER: [u8; 16] = *b"0123456789abcdef";

const UPPER: [u8; 16] = *b"0123456789ABCDEF";

fn palette(draws: &mut Draws) -> u8 {
    PALETTE[draws.small(16) as usize]
}

// 2^w, of a width from 1 to 4. Another counts as 1. (An arm for each: the check finds no bound of a power,
// be it `1 << w` or `small_power(w)`.)
fn size_of(w: u32) -> u32
    ensures { (0 < result) × (result ≤ 16) }
{
    match w {
        2 => 4,
        3 => 8,
        4 => 16,
        _ => 2,
    }
}

// The text is the first `len` of the bytes.
#[derive(Clone, Copy)]
pub struct Text {
    pub bytes: [u8; 600],
    len: usize,
    ghost inside: { len ≤ 600 },
}

impl Text {
    pub fn new() -> Text {
        Text {
            bytes: [0; 600],
            len: 0,
        }
    }

    // One byte more, where there is room.
    fn push(&mut self, byte: u8) {
        if self.len < 600 {
            self.bytes[self.len] = byte;
            self.len += 1;
        }
    }

    fn push_all(&mut self, bytes: &[u8]) {
        for &byte in bytes {
            self.push(byte);
        }
    }

    // White space or a comment.
    fn gap(&mut self, draws: &mut Draws) {
        match draws.pick(8) {
            0 => self.push(b' '),
            1 => self.push(b'\n'),
            2 => self.push(b'\t'),
            3 => self.push(b'\x0c'),
            4 => self.push_all(&[b'/', b'/', palette(draws), b'\n']),
            5 => self.push_all(b"/**/"),
            6 => self.push_all(&[b'/', b'*', palette(draws), b'*', b'/']),
            _ => self.push_all(b"\n\n"),
        }
    }

    // A number of at most 16, after as many as two zeros.
    fn numeral(&mut self, draws: &mut Draws, value: u32) {
        for _ in 0..draws.pick(3) {
            self.push(b'0');
        }
        // The first of two digits, where there are two.
        if 16 <= value {
            self.push(b'1');
        }
        let digit = value as usize % 16;
        match draws.pick(4) {
            0 => self.push(UPPER[digit]),
            1 => self.push_all(&[LOWER[digit], b'_']),
            _ => self.push(LOWER[digit]),
        }
    }

    fn push_address(&mut self, draws: &mut Draws, n: u32) {
        self.gap(draws);
        self.push(b'@');
        self.numeral(draws, n);
    }

    fn push_value(&mut self, draws: &mut Draws, fields: u32)
        requires { 0 < fields }
    {
        self.gap(draws);
        let value = draws.small(fields);
        self.numeral(draws, value);
    }

    // A good text of a shape, from some cell on and round to the one before it.
    pub fn make(&mut self, draws: &mut Draws, shape: Shape) {
        self.len = 0;
        let count = size_of(shape.k);
        let fields = size_of(shape.m) + shape.kind.ones();
        let first = draws.small(count);
        // The address at which the text begins may be left out where it is 0.
        if draws.pick(2) == 0 || first != 0 {
            self.push_address(draws, first);
        }
        for c in 0..count {
            let n = (first + c) % count;
            // Past the last cell the text goes back to the first, unless it began there.
            if n == 0 && c != 0 {
                self.push_address(draws, 0);
            }
            self.push_value(draws, fields);
        }
        self.gap(draws);
    }

    // The bytes after p move down by one.
    fn drop_byte(&mut self, p: usize)
        requires { p < self.old.len }
    {
        self.bytes.copy_within(p + 1..self.len, p);
        self.len -= 1;
    }

    // The bytes from p on move up by one, where there is room, and byte p stays where it was too.
    fn double_byte(&mut self, p: usize)
        requires { p < self.old.len }
    {
        if self.len < 600 {
            self.bytes.copy_within(p..self.len, p + 1);
            self.len += 1;
        }
    }

    // Cuts the text off, or drops, doubles or changes one byte.
    fn damage(&mut self, draws: &mut Draws) {
        if self.len == 0 {
            return;
        }
        let way = draws.pick(10);
        let p = draws.pick(self.len as u64) as usize;
        match way {
            0 => self.len = p,
            1 | 2 => self.drop_byte(p),
            3 | 4 => self.double_byte(p),
            _ => self.bytes[p] = palette(draws),
        }
    }

    pub fn damage_once_or_twice(&mut self, draws: &mut Draws) {
        for _ in 0..1 + draws.pick(2) {
            self.damage(draws);
        }
    }

    pub fn read(&self, shape: Shape, cells: &mut [u16]) -> Result<(), ReadError> {
        read_memory(shape, &self.bytes[..self.len], cells)
    }

    // Writes cells over the first `room` bytes. What is written, if it is, is the text. (It is never longer
    // than the bytes lent for it.)
    pub fn write(&mut self, shape: Shape, cells: &[u16], room: usize) -> Result<Offset, Fault>
        requires { room ≤ 600 }
    {
        // Lent first as a whole: the borrow checker does not cover a part of an array in a struct with a ghost
        // field.
        let bytes = &mut self.bytes[..];
        let length = write_memory(shape, cells, &mut bytes[..room])?;
        self.len = length.0.min(600);
        Ok(length)
    }
}
