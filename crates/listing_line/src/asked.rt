// What a line was read as.
ghost use Rattle.std.specs.Prelude.{◌≡◌};
ghost use Rattle.listing_line.specs.Line.{asks, line_read};

use units::Shape;

// A line, and the shape that it asks for.
#[derive(Clone, Copy)]
pub struct Asked<'a> {
    pub line: &'a [u8],
    pub shape: Shape,
    pub ghost asked: { line_read line.now ≡ asks shape },
}
