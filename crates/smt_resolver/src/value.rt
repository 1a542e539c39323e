use crate::parts::FormulaValue;
use crate::terms::TermValue;

/// What is read of an expression that is a term or a formula.
#[derive(Drop)]
pub enum Value<Id> {
    Term(TermValue),
    Formula(FormulaValue<Id>),
}

/// What is read of the members of an operator, the terms and the formulas each in their order.
#[derive(Drop)]
pub struct MemberValues<Id> {
    pub terms: Vec<TermValue>,
    pub formulas: Vec<FormulaValue<Id>>,
}
