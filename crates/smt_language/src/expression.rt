/// What stands first in parentheses and takes the members that follow.
#[derive(Clone, Copy, Debug, PartialEq, Eq)]
pub enum Operator {
    Not,
    And,
    Or,
    Implies,
    Equal,
    Less,
    AtMost,
    Greater,
    AtLeast,
    Distinct,
    Plus,
    Times,
    Minus,
    Divided,
}
