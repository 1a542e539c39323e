/// The sort of all numbers, which the logic of a script chooses.
#[derive(Clone, Copy, Debug, PartialEq, Eq)]
pub enum Sort {
    Real,
    Int,
}
