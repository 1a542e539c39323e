//! The problem of a target under constraints, as one formula.

ghost use Rattle.std.specs.Prelude.{◌≡◌, ◌<◌, ◌∷◌, List, true, IfOk, OnOk, length, map};
ghost use Rattle.std.specs.List.{AllByRecursion, fold};
ghost use Rattle.logic_meaning.specs.declared.quantifier.Quantifier.TheVariants.{Exists};
ghost use Rattle.language_meaning.specs.Names.{IsVariable};
ghost use Rattle.language_meaning.specs.Trees.{FormulaTree, formulas_of};
ghost use Rattle.language_meaning.specs.Holes.{alone};
ghost use Rattle.written_syntax.specs.CodeTrees.{term_tree, formula_tree, inner_of};
ghost use Rattle.written_syntax.specs.Writable.{IsWritableTerm, AreWritableFormulas};
ghost use Rattle.language_meaning.specs.Constraints.{is_weak_constraint};
ghost use Rattle.written_syntax.specs.ConstraintLists.{AreWeakConstraints};
ghost use Rattle.language_meaning.specs.QuantifiedNames.{quantified_names};
ghost use Rattle.logic_meaning.specs.Names.{with_name};
ghost use Rattle.language_meaning.specs.Resolving.{all_variables};
ghost use Rattle.program_meaning.specs.Targets.{target_name as name_of_target, together as all_together, problem_of};

use crate::copies::{copied_comparison, copied_term};
use formula_tree::Names;
use language_meaning::Relation;
use logic_meaning::{Name, VarId};
use std::alloc::{AllocError, Global};
use written_syntax::{Formula, Formulas, Term, comparison, existential};

/// The name of the target's value, which no text spells.
fn target_name() -> Name
    ensures { result ≡ name_of_target }
{
    Name::of(b"?")
}

/// That some values of the names meet the constraints and give the target the value of its name.
pub(crate) fn problem(
    alloc: Global,
    written: &[Formula],
    target: &Term,
) -> Result<Formula, AllocError>
    requires proper { AreWritableFormulas (formulas_of (map formula_tree written.now)) }
    requires weak { AreWeakConstraints (formulas_of (map formula_tree written.now)) }
    requires target { IsWritableTerm (term_tree target.now) }
    ensures tree { IfOk result (λ f. formula_tree f ≡ problem_of (formulas_of (map formula_tree written.now)) (term_tree target.now)) }
    ensures plain { IfOk result (λ f. inner_of f ≡ alone) }
{
    let mut names = Names::new(alloc);
    let mut members = copies(alloc, written, &mut names)?;
    let target = copied_term(alloc, target, &mut names)?;
    let equation = comparison(alloc, Relation::Equal, Term::Name(target_name()), target)?;
    members.insert(0, equation)?;
    let matrix = together(members);
    with_quantifiers(alloc, &names, matrix)
}

/// Copies of the constraints, whose names are numbered behind the others.
fn copies(alloc: Global, written: &[Formula], names: &mut Names) -> Result<Vec<Formula>, AllocError>
    requires { AllByRecursion (λ f. is_weak_constraint (formula_tree f) ≡ true) written.now }
    ensures same { IfOk result (λ v. map formula_tree v.items ≡ map formula_tree written.now) }
    ensures plain { IfOk result (λ v. AllByRecursion (λ f. inner_of f ≡ alone) v.items) }
    ensures numbered { OnOk result (names.new ≡ fold with_name names.old (all_variables (formulas_of (map formula_tree written.now)))) }
{
    let mut copies = Vec::new(alloc);
    for formula in written {
        copies.push(copied_comparison(alloc, formula, names)?)?;
    }
    Ok(copies)
}

/// The conjunction of the members, or the member where there is one alone.
fn together(mut members: Vec<Formula>) -> Formula
    requires some { 0 < length members.items }
    requires plain { AllByRecursion (λ f. inner_of f ≡ alone) members.items }
    ensures tree { (f : FormulaTree) (fs : List FormulaTree) → map formula_tree members.items ≡ f ∷ fs → formula_tree result ≡ all_together f (formulas_of fs) }
    ensures plain { inner_of result ≡ alone }
{
    if members.len() > 1 {
        return Formula::And(Formulas::of(members));
    }
    match members.pop() {
        Some(formula) => formula,
        None => unreachable!(),
    }
}

/// The formula behind a quantifier for each name, the first one outermost.
fn with_quantifiers(alloc: Global, names: &Names, formula: Formula) -> Result<Formula, AllocError>
    requires variables { AllByRecursion IsVariable names.now }
    requires plain { inner_of formula ≡ alone }
    ensures tree { IfOk result (λ f. formula_tree f ≡ quantified_names Exists names.now (formula_tree formula)) }
    ensures plain { IfOk result (λ f. inner_of f ≡ alone) }
{
    let mut quantified = formula;
    for number in (0..names.count()).rev() {
        if let Some(text) = names.text(VarId { number }) {
            quantified = existential(alloc, Name::of(text), quantified)?;
        }
    }
    Ok(quantified)
}
