ghost use Rattle.std.specs.Prelude.{◌≡◌, ◌≤◌, length, IfOk, IfErr, OnOk, OnErr};
ghost use Rattle.std.specs.List.{AllByRecursion};
ghost use Rattle.written_syntax.specs.Proper.{IsProperFormula};
ghost use Rattle.language_meaning.specs.Holes.{command_count};
ghost use Rattle.written_syntax.specs.CodeTrees.{formula_tree, named_tree, inner_of};
ghost use Rattle.normal_atoms.specs.Atoms.{context_of};
ghost use Rattle.written_atoms.specs.FromResolvedFormulas.{IsAccepted};
ghost use Rattle.formula_tree.specs.Makers.{IsMade, Keeps};
ghost use Rattle.language_meaning.specs.Resolving.{resolve};
ghost use Rattle.language_meaning.specs.NamesAfter.{names_after};
ghost use Rattle.formula_resolving.specs.Numbering.{Grows};
ghost use Rattle.formula_resolving.specs.BoundIds.{AreIds, answered_trees};
ghost use Rattle.formula_resolving.specs.FirstCause.{IsFirstCause};

use crate::numbering::number_formula;
use crate::reading::{Scope, read_formula};
use formula_tree::{Bindings, Maker, Names};
use language_meaning::StaticError;
use normal_atoms::Context;
use std::alloc::Global;
use written_syntax::Formula;

/// The resolved formula: bound names by their trees, each comparison and congruence by its normal atom, and each command inside
/// the formula by the tree of its answer, where `inner` has the answers of the commands in the order of the text, and maybe
/// more; nothing else inside a command is looked at. The new variables get the next numbers, in the order of the text. The first cause of a refusal is answered,
/// else `Memory`; then the names are as before, and formulas may have been made that nothing needs.
pub fn linearise<M: Maker>(
    alloc: Global,
    formula: &Formula,
    bound: &Bindings<M::Id>,
    inner: &[M::Id],
    context: Context,
    names: &mut Names,
    maker: &mut M,
) -> Result<M::Id, StaticError>
    requires proper { IsProperFormula (formula_tree formula.now) }
    requires ids { AreIds (M.is_id maker.old) bound.now }
    requires answers { AllByRecursion (M.is_id maker.old) inner.now }
    requires places { command_count (inner_of formula.now) ≤ length inner.now }
    ensures accepted { OnOk result (IsAccepted (context_of context) (answered_trees (M.tree maker.old) inner.now bound.now) names.old (named_tree 0 formula.now)) }
    ensures resolved { IfOk result (λ id. IsMade (M.is_id maker.new) (M.tree maker.new) id (resolve (context_of context) (answered_trees (M.tree maker.old) inner.now bound.now) (names_after names.old (named_tree 0 formula.now)) (named_tree 0 formula.now))) }
    ensures names { OnOk result (names.new ≡ names_after names.old (named_tree 0 formula.now)) }
    ensures refused { IfErr result (IsFirstCause (context_of context) (answered_trees (M.tree maker.old) inner.now bound.now) names.old (named_tree 0 formula.now)) }
    ensures unchanged { OnErr result (names.new ≡ names.old) }
    ensures kept { Keeps (M.is_id maker.old) (M.tree maker.old) (M.is_id maker.new) (M.tree maker.new) }
{
    let count = names.count();
    match resolved(alloc, formula, bound, inner, context, names, maker) {
        Ok(id) => Ok(id),
        Err(error) => {
            names.keep_first(count);
            Err(error)
        }
    }
}

/// The same, where the names may have grown after an `Err`. The names are numbered in a pass of their own, so that what is
/// read of a part does not change with the names after it.
fn resolved<M: Maker>(
    alloc: Global,
    formula: &Formula,
    bound: &Bindings<M::Id>,
    inner: &[M::Id],
    context: Context,
    names: &mut Names,
    maker: &mut M,
) -> Result<M::Id, StaticError>
    requires proper { IsProperFormula (formula_tree formula.now) }
    requires ids { AreIds (M.is_id maker.old) bound.now }
    requires answers { AllByRecursion (M.is_id maker.old) inner.now }
    requires places { command_count (inner_of formula.now) ≤ length inner.now }
    ensures accepted { OnOk result (IsAccepted (context_of context) (answered_trees (M.tree maker.old) inner.now bound.now) names.old (named_tree 0 formula.now)) }
    ensures resolved { IfOk result (λ id. IsMade (M.is_id maker.new) (M.tree maker.new) id (resolve (context_of context) (answered_trees (M.tree maker.old) inner.now bound.now) (names_after names.old (named_tree 0 formula.now)) (named_tree 0 formula.now))) }
    ensures names { OnOk result (names.new ≡ names_after names.old (named_tree 0 formula.now)) }
    ensures refused { IfErr result (IsFirstCause (context_of context) (answered_trees (M.tree maker.old) inner.now bound.now) names.old (named_tree 0 formula.now)) }
    ensures grown { Grows names.old names.new }
    ensures kept { Keeps (M.is_id maker.old) (M.tree maker.old) (M.is_id maker.new) (M.tree maker.new) }
{
    let Ok(named) = number_formula(formula, bound, names) else {
        return Err(StaticError::Memory);
    };
    let scope = Scope {
        alloc,
        context,
        bound,
        inner,
        names,
    };
    let mut taken = 0;
    let Ok(part) = read_formula(&scope, formula, &mut taken, maker) else {
        return Err(StaticError::Memory);
    };
    match part.causes.first(named, part.height) {
        Some(cause) => Err(cause),
        None => match part.id {
            Some(id) => Ok(id),
            None => unreachable!(),
        },
    }
}
