// What is listed.
ghost use Rattle.survey.specs.Tally.{figures_of};
ghost use Rattle.listing_text.specs.Inner.Pages.{Listed};

use survey::Finding;
use units::Shape;

// The best table of a shape, with its survey.
#[derive(Clone, Copy)]
pub struct BestTable<'a> {
    pub shape: Shape,
    pub cells: &'a [u16],
    pub worst: Finding,
    pub ghost listed: { Listed shape cells.now (figures_of worst) },
}
