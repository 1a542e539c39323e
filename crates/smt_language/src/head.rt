use crate::expression::Operator;
use language_meaning::Literal;
use logic_meaning::Quantifier;

/// What stands at the front of the members of a term or a formula.
#[derive(Clone, Copy)]
pub enum Head {
    Operator(Operator),
    Divisible(Literal),
    Quantifier(Quantifier),
    Let,
}
