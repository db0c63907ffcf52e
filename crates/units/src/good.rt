// What the tests of a call let through, as values: a function below a call takes one, and needs no test.
ghost use Rattle.units.specs.Inner.Good.{GoodWidths};

use crate::shapes::Shape;

// A shape whose widths are from 1 to 15.
#[derive(Clone, Copy)]
pub struct GoodShape {
    pub shape: Shape,
    pub ghost good: { GoodWidths shape },
}
