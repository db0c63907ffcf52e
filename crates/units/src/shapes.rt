ghost use Rattle.std.specs.Prelude.{◌≡◌};
ghost use Rattle.units.specs.Shapes.{shape};

use crate::kinds::Kind;

// What a card claims of its table: k bits of a divisor in, m bits of its reciprocal out, and its kind.
// Any numbers can stand here; every call tests them.
#[derive(Clone, Copy, Debug, PartialEq, Eq)]
pub struct Shape {
    pub k: u32,
    pub m: u32,
    pub kind: Kind,
}

impl Shape {
    // k bits in, m bits out, and the kind.
    pub fn of(k: u32, m: u32, kind: Kind) -> Shape
        ensures { result ≡ shape k m kind }
    {
        Shape { k, m, kind }
    }
}
