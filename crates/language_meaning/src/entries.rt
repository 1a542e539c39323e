ghost use Rattle.language_meaning.specs.declared.entries.PointEntry.{PointEntry};

use crate::tree::Literal;
use logic_meaning::Name;

/// The value that a point gives to one name: `above / below`. A `-` makes `above` negative, and what has no
/// `/` has the denominator 1.
#[derive(Clone, Copy)]
pub struct PointEntry {
    pub name: Name,
    pub above: Literal,
    pub below: Literal,
}
