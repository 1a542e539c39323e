//! Whether a symbol of an expression is neither declared nor bound.

ghost use Rattle.std.specs.Prelude.{◌≡◌, ◌||◌, ◌++◌, ◌∷◌, [], ℕ, List, map, is_some, IfOk, OnOk};
ghost use Rattle.logic_meaning.specs.Bindings.{bound_to};
ghost use Rattle.smt_tokens.specs.TreeLists.{expressions_of, locals_of};
ghost use Rattle.smt_tokens.specs.CodeTrees.{expression_tree, local_tree};
ghost use Rattle.smt_language.specs.Undeclared.{Known, known_inside, known_locals, has_unknown, have_unknown, values_have_unknown};
ghost use Rattle.smt_resolver.specs.KnownAt.{IsKnownAt};

use crate::frames::{Frame, Frames};
use formula_tree::Names;
use smt_language::SortedName;
use smt_tokens::{Expression, LocalValue};
use std::alloc::{AllocError, Global};

/// The names of a quantifier as a place that binds them.
fn quantified_frame(alloc: Global, names: &[SortedName]) -> Result<Frame<()>, AllocError>
    ensures { IfOk result (λ r. (known : Known) (x : List ℕ) → known_inside names.now known x ≡ (is_some (bound_to r x) || known x)) }
{
    let mut frame = Frame::new(alloc);
    for name in names {
        frame.put(&name.name, ())?;
    }
    Ok(frame)
}

/// The names of a `let` as a place that binds them.
fn local_frame(alloc: Global, locals: &[LocalValue]) -> Result<Frame<()>, AllocError>
    ensures { IfOk result (λ r. (known : Known) (x : List ℕ) → known_locals (locals_of (map local_tree locals.now)) known x ≡ (is_some (bound_to r x) || known x)) }
{
    let mut frame = Frame::new(alloc);
    for local in locals {
        frame.put(&local.name, ())?;
    }
    Ok(frame)
}

/// Whether a symbol of the expression is neither declared nor bound. An `Err` is want of memory.
#[tactic(auto, using(smt_tokens::proofs::TreeEquations::trees))]
#[cycle(unknown)]
pub(crate) fn has_unknown(
    alloc: Global,
    declared: &Names,
    expression: &Expression,
    bound: &mut Frames<()>,
) -> Result<bool, AllocError>
    ensures found { IfOk result (λ r. (known : Known) → IsKnownAt declared.now bound.old known → r ≡ has_unknown known (expression_tree expression.now)) }
    ensures bound { OnOk result (bound.new ≡ bound.old) }
{
    match expression {
        Expression::True | Expression::False | Expression::Numeral(_) | Expression::Decimal(_, _) =>
            Ok(false),
        Expression::Named(name) => {
            Ok(bound.get(name).is_none() && declared.find(name).is_none())
        }
        Expression::Apply(_, members) => have_unknown(alloc, declared, members.items(), bound),
        Expression::Divisible(_, inner) => has_unknown(alloc, declared, inner, bound),
        Expression::Quantified(_, names, body) => {
            let frame = quantified_frame(alloc, names.items())?;
            unknown_inside(alloc, declared, frame, body, bound)
        }
        Expression::Let(locals, body) => {
            let locals = locals.items();
            if values_have_unknown(alloc, declared, locals, bound)? {
                return Ok(true);
            }
            let frame = local_frame(alloc, locals)?;
            unknown_inside(alloc, declared, frame, body, bound)
        }
    }
}

/// The same inside a place that binds these symbols.
#[cycle(unknown)]
fn unknown_inside(
    alloc: Global,
    declared: &Names,
    frame: Frame<()>,
    body: &Expression,
    bound: &mut Frames<()>,
) -> Result<bool, AllocError>
    ensures found { IfOk result (λ r. (known : Known) → IsKnownAt declared.now (bound.old ++ frame ∷ []) known → r ≡ has_unknown known (expression_tree body.now)) }
    ensures bound { OnOk result (bound.new ≡ bound.old) }
{
    bound.enter(frame)?;
    let found = has_unknown(alloc, declared, body, bound)?;
    bound.leave();
    Ok(found)
}

/// The same of the members of an operator.
#[cycle(unknown)]
fn have_unknown(
    alloc: Global,
    declared: &Names,
    members: &[Expression],
    bound: &mut Frames<()>,
) -> Result<bool, AllocError>
    ensures found { IfOk result (λ r. (known : Known) → IsKnownAt declared.now bound.old known → r ≡ have_unknown known (expressions_of (map expression_tree members.now))) }
    ensures bound { OnOk result (bound.new ≡ bound.old) }
{
    for member in members {
        if has_unknown(alloc, declared, member, bound)? {
            return Ok(true);
        }
    }
    Ok(false)
}

/// The same of the values of a `let`.
#[cycle(unknown)]
fn values_have_unknown(
    alloc: Global,
    declared: &Names,
    locals: &[LocalValue],
    bound: &mut Frames<()>,
) -> Result<bool, AllocError>
    ensures found { IfOk result (λ r. (known : Known) → IsKnownAt declared.now bound.old known → r ≡ values_have_unknown known (locals_of (map local_tree locals.now))) }
    ensures bound { OnOk result (bound.new ≡ bound.old) }
{
    for local in locals {
        if has_unknown(alloc, declared, &local.value, bound)? {
            return Ok(true);
        }
    }
    Ok(false)
}
