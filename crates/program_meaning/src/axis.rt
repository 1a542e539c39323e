use exact_numbers::Fraction;
use logic_meaning::VarId;

/// The values `low`, `low + step`, and so on, that are at most `high`, for a name.
#[derive(Clone, Copy, Debug)]
pub struct Axis {
    pub name: VarId,
    pub low: Fraction,
    pub high: Fraction,
    pub step: Fraction,
}
