use crate::expression::Expression;
use crate::names::Names;
use smt_language::{Sort, SortedName};

/// A command of a script.
#[derive(Drop)]
pub enum SmtCommand {
    /// Chooses the logic, of which the sort is kept.
    Choose(Sort),
    /// Has no effect.
    Ignored,
    Declare(SortedName),
    Assert(Expression),
    /// Asks whether all that is asserted can be true together.
    Check,
    /// Asks for the values of these names.
    Values(Names),
    Exit,
}
