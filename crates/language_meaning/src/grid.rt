ghost use Rattle.language_meaning.specs.declared.grid.GridAxis.{GridAxis};

use crate::tree::Literal;
use logic_meaning::Name;

/// A fraction as it is written: `above / below`. A `-` makes `above` negative, and what has no `/` has the denominator 1.
#[derive(Clone, Copy)]
pub struct Ratio {
    pub above: Literal,
    pub below: Literal,
}

/// The values that a grid gives to one name: `low`, and each one `step` above the one before it, as far as `high`.
#[derive(Clone, Copy)]
pub struct GridAxis {
    pub name: Name,
    pub low: Ratio,
    pub high: Ratio,
    pub step: Ratio,
}
