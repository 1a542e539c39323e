/// A number as it is written in a formula: its value, or `Past` where that is above 2^127 - 1.
#[derive(Clone, Copy, Debug, PartialEq, Eq)]
pub enum Literal {
    Fits(i128),
    Past,
}

/// How a comparison compares.
#[derive(Clone, Copy, Debug, PartialEq, Eq)]
pub enum Relation {
    Equal,
    Differs,
    Less,
    AtMost,
    Greater,
    AtLeast,
}
