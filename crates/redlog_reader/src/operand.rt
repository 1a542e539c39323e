ghost use Rattle.std.specs.Prelude.{◌≡◌, Some, None, MatchOption, IfOk, IfErr};
ghost use Rattle.written_syntax.specs.CodeTrees.{term_tree, whole_formula};
ghost use Rattle.redlog_reader.specs.Machine.{term_of, formula_of};
ghost use Rattle.redlog_reader.specs.Machine as Reading;
ghost use Rattle.redlog_reader.specs.View.{reading_of, named_reading};

use language_meaning::ReadError;
use logic_meaning::Name;
use std::alloc::Global;
use written_syntax::{Formula, Term};

/// What has been read, each in a box, so that steps move few bytes. A name alone, in brackets or not, is a term and a formula; it
/// is kept as a term.
#[derive(Drop)]
pub enum Operand {
    Term(Box<Term>),
    Formula(Box<Formula>),
    Name(Box<Term>),
}

/// The term that was read.
#[tactic(auto, using(written_syntax::proofs::TreeEquations::trees, written_syntax::proofs::TreeEquations::wholes))]
pub fn term_of(operand: Operand) -> Option<Box<Term>>
    ensures { MatchOption result (term_of (reading_of operand) ≡ None) (λ t. term_of (reading_of operand) ≡ Some (term_tree t.value)) }
{
    match operand {
        Operand::Term(term) | Operand::Name(term) => Some(term),
        Operand::Formula(_formula) => None,
    }
}

/// The formula that was read.
#[tactic(auto, using(written_syntax::proofs::TreeEquations::trees, written_syntax::proofs::TreeEquations::wholes))]
pub fn formula_of(operand: Operand) -> Option<Formula>
    ensures { MatchOption result (formula_of (reading_of operand) ≡ None) (λ f. formula_of (reading_of operand) ≡ Some (whole_formula f)) }
{
    match operand {
        Operand::Formula(formula) => Some(Box::into_inner(formula)),
        Operand::Name(term) => named(Box::into_inner(term)),
        Operand::Term(_term) => None,
    }
}

/// The formula that a term is: a name.
#[tactic(auto, using(written_syntax::proofs::TreeEquations::trees, written_syntax::proofs::TreeEquations::wholes))]
fn named(term: Term) -> Option<Formula>
    ensures { MatchOption result (formula_of (named_reading term) ≡ None) (λ f. formula_of (named_reading term) ≡ Some (whole_formula f)) }
{
    match term {
        Term::Name(name) => Some(Formula::Named(name)),
        _ => None,
    }
}

/// A term that was read.
pub fn term_operand(alloc: Global, term: Term) -> Result<Operand, ReadError>
    ensures read { IfOk result (λ o. reading_of o ≡ Reading.Term (term_tree term)) }
    ensures memory { IfErr result (λ e. e ≡ ReadError.Memory) }
{
    let term = Box::new(alloc, term)?;
    Ok(Operand::Term(term))
}

/// A formula that was read.
pub fn formula_operand(alloc: Global, formula: Formula) -> Result<Operand, ReadError>
    ensures read { IfOk result (λ o. reading_of o ≡ Reading.Formula (whole_formula formula)) }
    ensures memory { IfErr result (λ e. e ≡ ReadError.Memory) }
{
    let formula = Box::new(alloc, formula)?;
    Ok(Operand::Formula(formula))
}

/// A name that was read.
pub fn name_operand(alloc: Global, name: Name) -> Result<Operand, ReadError>
    ensures read { IfOk result (λ o. reading_of o ≡ Reading.Bare name) }
    ensures memory { IfErr result (λ e. e ≡ ReadError.Memory) }
{
    let term = Box::new(alloc, Term::Name(name))?;
    Ok(Operand::Name(term))
}
