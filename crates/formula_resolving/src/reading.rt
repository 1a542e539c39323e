//! A written formula is read: the causes of a refusal in it, its height, and its resolved formula.

ghost use Rattle.std.specs.Prelude.{◌≡◌, ◌≤◌, ◌<◌, ◌+◌, ℕ, length, IfOk, OnOk, map};
ghost use Rattle.std.specs.List.{AllByRecursion};
ghost use Rattle.logic_meaning.specs.Fold.{joined};
ghost use Rattle.logic_meaning.specs.Formula.{One};
ghost use Rattle.written_atoms.specs.Read.{congruence_tree};
ghost use Rattle.written_syntax.specs.Proper.{IsProperTerm, IsProperFormula, AreProperFormulas};
ghost use Rattle.language_meaning.specs.Trees.{formulas_of, Compare};
ghost use Rattle.language_meaning.specs.Holes.{command_count, inner_name, all_of};
ghost use Rattle.written_syntax.specs.CodeTrees.{term_tree, formula_tree, whole_formula, named_tree, inner_of};
ghost use Rattle.written_syntax.specs.Valued.{matrix_of, IsUnquantified};
ghost use Rattle.normal_atoms.specs.Atoms.{context_of};
ghost use Rattle.formula_tree.specs.Makers.{Keeps};
ghost use Rattle.logic_meaning.specs.Names.{place};
ghost use Rattle.formula_resolving.specs.BoundIds.{AreIds, answered_trees};
ghost use Rattle.formula_resolving.specs.Parts.{IsPart, IsNamePart};
ghost use Rattle.formula_resolving.specs.Connectives.{Opens, paired};

use crate::causes::{Causes, above};
use crate::parts::{
    Members, Opening, Pair, Part, atom_part, finish, is_fields, joined, made_part, name_part,
    negation,
};
use formula_tree::{Bindings, Maker, Names, Shape};
use language_meaning::Relation;
use logic_meaning::{Junction, Quantifier};
use normal_atoms::Context;
use std::alloc::{AllocError, Global};
use written_atoms::{read_comparison, read_congruence};
use written_syntax::{Formula, Term};

/// The quantifiers with which the formula begins, and what stands after them.
fn prefix<'a>(
    alloc: Global,
    formula: &'a Formula,
    names: &Names,
) -> Result<(Vec<Opening>, &'a Formula), AllocError>
    ensures opens { IfOk result (λ r. (k : ℕ) → Opens names.now r.0.items (named_tree k formula.now) (named_tree k r.1.now)) }
    ensures matrix { IfOk result (λ r. formula_tree r.1.now ≡ matrix_of (formula_tree formula.now)) }
    ensures inner { IfOk result (λ r. inner_of r.1.now ≡ inner_of formula.now) }
{
    let mut quantifiers = Vec::new(alloc);
    let mut inner = formula;
    'prefix: loop {
        match inner {
            Formula::Ex(name, body) => {
                quantifiers.push(Opening {
                    quantifier: Quantifier::Exists,
                    name: names.place(name),
                })?;
                inner = body;
            }
            Formula::All(name, body) => {
                quantifiers.push(Opening {
                    quantifier: Quantifier::ForAll,
                    name: names.place(name),
                })?;
                inner = body;
            }
            _ => return Ok((quantifiers, inner)),
        }
    }
}

/// What a formula is read with: the theory, what names of formulas stand for, the answers of the commands inside the formula
/// in the order of the text, and the variables' numbers.
#[derive(Drop)]
pub(crate) struct Scope<'a, Id> {
    pub alloc: Global,
    pub context: Context,
    pub bound: &'a Bindings<Id>,
    pub inner: &'a [Id],
    pub names: &'a Names,
}

/// Reads a comparison.
fn comparison_part<M: Maker>(
    scope: &Scope<'_, M::Id>,
    relation: Relation,
    left: &Term,
    right: &Term,
    maker: &mut M,
) -> Result<Part<M::Id>, AllocError>
    requires left_proper { IsProperTerm (term_tree left.now) }
    requires right_proper { IsProperTerm (term_tree right.now) }
    ensures read { IfOk result (IsPart (context_of scope.now.context) (answered_trees (M.tree maker.old) scope.now.inner.now scope.now.bound.now) scope.now.names.now (M.is_id maker.new) (M.tree maker.new) (One (Compare relation (term_tree left.now) (term_tree right.now)))) }
    ensures kept { Keeps (M.is_id maker.old) (M.tree maker.old) (M.is_id maker.new) (M.tree maker.new) }
{
    let alloc = scope.alloc;
    let context = scope.context;
    let read = read_comparison(alloc, context, scope.names, relation, left, right)?;
    atom_part(read, false, maker)
}

/// Reads a congruence, or for false its negation.
fn congruence_part<M: Maker>(
    scope: &Scope<'_, M::Id>,
    holds: bool,
    left: &Term,
    right: &Term,
    modulus: &Term,
    maker: &mut M,
) -> Result<Part<M::Id>, AllocError>
    requires left_proper { IsProperTerm (term_tree left.now) }
    requires right_proper { IsProperTerm (term_tree right.now) }
    requires modulus_proper { IsProperTerm (term_tree modulus.now) }
    ensures read { IfOk result (IsPart (context_of scope.now.context) (answered_trees (M.tree maker.old) scope.now.inner.now scope.now.bound.now) scope.now.names.now (M.is_id maker.new) (M.tree maker.new) (One (congruence_tree holds (term_tree left.now) (term_tree right.now) (term_tree modulus.now)))) }
    ensures kept { Keeps (M.is_id maker.old) (M.tree maker.old) (M.is_id maker.new) (M.tree maker.new) }
{
    let alloc = scope.alloc;
    let context = scope.context;
    let names = scope.names;
    let read = read_congruence(alloc, context, names, holds, left, right, modulus)?;
    atom_part(read, is_fields(context), maker)
}

/// The part of the next answer, which is taken.
fn answer_part<M: Maker>(scope: &Scope<'_, M::Id>, taken: &mut usize, maker: &M) -> Part<M::Id>
    requires answers { AllByRecursion (M.is_id maker.now) scope.now.inner.now }
    requires room { taken.old < length scope.now.inner.now }
    ensures read { IsNamePart (answered_trees (M.tree maker.now) scope.now.inner.now scope.now.bound.now) (M.is_id maker.now) (M.tree maker.now) (inner_name taken.old) result }
    ensures taken { taken.new ≡ taken.old + 1 }
{
    let id = scope.inner[*taken];
    *taken += 1;
    made_part(id, maker)
}

/// Reads a formula, with the answers of its commands from the place `taken` on, and takes these. The formulas that the maker
/// made stay.
#[cycle(reading)]
pub(crate) fn read_formula<M: Maker>(
    scope: &Scope<'_, M::Id>,
    formula: &Formula,
    taken: &mut usize,
    maker: &mut M,
) -> Result<Part<M::Id>, AllocError>
    requires proper { IsProperFormula (formula_tree formula.now) }
    requires ids { AreIds (M.is_id maker.old) scope.now.bound.now }
    requires answers { AllByRecursion (M.is_id maker.old) scope.now.inner.now }
    requires room { taken.old + command_count (inner_of formula.now) ≤ length scope.now.inner.now }
    ensures read { IfOk result (IsPart (context_of scope.now.context) (answered_trees (M.tree maker.old) scope.now.inner.now scope.now.bound.now) scope.now.names.now (M.is_id maker.new) (M.tree maker.new) (named_tree taken.old formula.now)) }
    ensures taken { OnOk result (taken.new ≡ taken.old + command_count (inner_of formula.now)) }
    ensures kept { Keeps (M.is_id maker.old) (M.tree maker.old) (M.is_id maker.new) (M.tree maker.new) }
{
    let (mut quantifiers, matrix) = prefix(scope.alloc, formula, scope.names)?;
    let mut part = read_matrix(scope, matrix, taken, maker)?;
    'prefix: while let Some(quantifier) = quantifiers.pop() {
        part = finish(
            part.causes,
            above(part.height),
            quantifier.over(part.id),
            maker,
        )?;
    }
    Ok(part)
}

/// Reads a formula that begins with no quantifier.
#[tactic(auto, using(written_syntax::proofs::TreeEquations::trees, written_syntax::proofs::TreeEquations::inners))]
#[cycle(reading)]
fn read_matrix<M: Maker>(
    scope: &Scope<'_, M::Id>,
    formula: &Formula,
    taken: &mut usize,
    maker: &mut M,
) -> Result<Part<M::Id>, AllocError>
    requires unquantified { IsUnquantified (formula_tree formula.now) }
    requires proper { IsProperFormula (formula_tree formula.now) }
    requires ids { AreIds (M.is_id maker.old) scope.now.bound.now }
    requires answers { AllByRecursion (M.is_id maker.old) scope.now.inner.now }
    requires room { taken.old + command_count (inner_of formula.now) ≤ length scope.now.inner.now }
    ensures read { IfOk result (IsPart (context_of scope.now.context) (answered_trees (M.tree maker.old) scope.now.inner.now scope.now.bound.now) scope.now.names.now (M.is_id maker.new) (M.tree maker.new) (named_tree taken.old formula.now)) }
    ensures taken { OnOk result (taken.new ≡ taken.old + command_count (inner_of formula.now)) }
    ensures kept { Keeps (M.is_id maker.old) (M.tree maker.old) (M.is_id maker.new) (M.tree maker.new) }
{
    match formula {
        Formula::True => finish(Causes::none(), 1, Some(Shape::True), maker),
        Formula::False => finish(Causes::none(), 1, Some(Shape::False), maker),
        Formula::Compare(relation, left, right) => {
            comparison_part(scope, *relation, left, right, maker)
        }
        Formula::Cong(left, right, modulus) => {
            congruence_part(scope, true, left, right, modulus, maker)
        }
        Formula::Ncong(left, right, modulus) => {
            congruence_part(scope, false, left, right, modulus, maker)
        }
        Formula::Named(name) => Ok(name_part(name, scope.bound, maker)),
        Formula::Computed(_) => Ok(answer_part(scope, taken, maker)),
        Formula::Not(inner) => {
            let part = read_formula(scope, inner, taken, maker)?;
            finish(part.causes, above(part.height), negation(part.id), maker)
        }
        Formula::And(members) => read_joint(
            scope,
            Junction::Conjunction,
            members.items(),
            taken,
            maker,
        ),
        Formula::Or(members) => read_joint(
            scope,
            Junction::Disjunction,
            members.items(),
            taken,
            maker,
        ),
        Formula::Impl(left, right) => read_pair(scope, Pair::Impl, left, right, taken, maker),
        Formula::Repl(left, right) => read_pair(scope, Pair::Repl, left, right, taken, maker),
        Formula::Equiv(left, right) => read_pair(scope, Pair::Equiv, left, right, taken, maker),
        Formula::Ex(..) | Formula::All(..) => unreachable!(),
    }
}

/// Reads two formulas with a connective between them.
#[cycle(reading)]
fn read_pair<M: Maker>(
    scope: &Scope<'_, M::Id>,
    pair: Pair,
    left: &Formula,
    right: &Formula,
    taken: &mut usize,
    maker: &mut M,
) -> Result<Part<M::Id>, AllocError>
    requires left_proper { IsProperFormula (formula_tree left.now) }
    requires right_proper { IsProperFormula (formula_tree right.now) }
    requires ids { AreIds (M.is_id maker.old) scope.now.bound.now }
    requires answers { AllByRecursion (M.is_id maker.old) scope.now.inner.now }
    requires room { taken.old + (command_count (inner_of left.now) + command_count (inner_of right.now)) ≤ length scope.now.inner.now }
    ensures read { IfOk result (IsPart (context_of scope.now.context) (answered_trees (M.tree maker.old) scope.now.inner.now scope.now.bound.now) scope.now.names.now (M.is_id maker.new) (M.tree maker.new) (paired pair (named_tree taken.old left.now) (named_tree (taken.old + command_count (inner_of left.now)) right.now))) }
    ensures taken { OnOk result (taken.new ≡ taken.old + (command_count (inner_of left.now) + command_count (inner_of right.now))) }
    ensures kept { Keeps (M.is_id maker.old) (M.tree maker.old) (M.is_id maker.new) (M.tree maker.new) }
{
    let left = read_formula(scope, left, taken, maker)?;
    let right = read_formula(scope, right, taken, maker)?;
    finish(
        left.causes.or(right.causes),
        above(left.height.max(right.height)),
        pair.over(left.id, right.id),
        maker,
    )
}

/// Reads a conjunction or a disjunction of the formulas.
#[cycle(reading)]
fn read_joint<M: Maker>(
    scope: &Scope<'_, M::Id>,
    junction: Junction,
    formulas: &[Formula],
    taken: &mut usize,
    maker: &mut M,
) -> Result<Part<M::Id>, AllocError>
    requires proper { AreProperFormulas (formulas_of (map formula_tree formulas.now)) }
    requires ids { AreIds (M.is_id maker.old) scope.now.bound.now }
    requires answers { AllByRecursion (M.is_id maker.old) scope.now.inner.now }
    requires room { taken.old + command_count (all_of (map whole_formula formulas.now)).inner ≤ length scope.now.inner.now }
    ensures read { IfOk result (IsPart (context_of scope.now.context) (answered_trees (M.tree maker.old) scope.now.inner.now scope.now.bound.now) scope.now.names.now (M.is_id maker.new) (M.tree maker.new) (joined junction ((all_of (map whole_formula formulas.now)).named taken.old))) }
    ensures taken { OnOk result (taken.new ≡ taken.old + command_count (all_of (map whole_formula formulas.now)).inner) }
    ensures kept { Keeps (M.is_id maker.old) (M.tree maker.old) (M.is_id maker.new) (M.tree maker.new) }
{
    let mut members = Members::none(scope.alloc);
    for formula in formulas {
        let part = read_formula(scope, formula, taken, maker)?;
        members.add(part)?;
    }
    finish(
        members.causes,
        above(members.height),
        Some(joined(junction, members.ids)),
        maker,
    )
}
