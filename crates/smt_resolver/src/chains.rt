//! The relations between neighbours, and between each two, of the members of an operator.

ghost use Rattle.std.specs.Prelude.{◌≤◌, ◌<◌, ◌∷◌, ◌++◌, List, map, IsTrue, IfOk};
ghost use Rattle.std.specs.Bool.{MatchBool};
ghost use Rattle.std.specs.List.{AllByRecursion};
ghost use Rattle.std.specs.Option.{ForSome};
ghost use Rattle.logic_meaning.specs.Context as meaning;
ghost use Rattle.logic_meaning.specs.Formula.{Equiv};
ghost use Rattle.normal_atoms.specs.Atoms.{context_of};
ghost use Rattle.language_meaning.specs.declared.tree.Relation.TheVariants.{Differs};
ghost use Rattle.language_meaning.specs.Trees.{TermTree, FormulaTree, formulas_of};
ghost use Rattle.formula_tree.specs.Makers.{Keeps};
ghost use Rattle.smt_language.specs.Nodes.{formulas_nodes};
ghost use Rattle.smt_language.specs.Shapes.{comparison, neighbours, pairs};
ghost use Rattle.smt_resolver.specs.Values.{IsTermValue, AreTermValues, IsFormulaValue, AreFormulaValues, HasId, HaveIds, ArePartsBelow, ArePartsOf};

use crate::formulas::{comparison, connected};
use crate::parts::{FormulaValue, Parts};
use crate::setting::Setting;
use crate::terms::TermValue;
use formula_resolving::Pair;
use formula_tree::Maker;
use language_meaning::Relation;
use std::alloc::{AllocError, Global};

/// The comparisons of neighbours; `None` where they are too large together. An `Err` is want of memory.
pub(crate) fn comparisons<M: Maker>(
    setting: &Setting<'_>,
    relation: Relation,
    first: &TermValue,
    others: &[TermValue],
    maker: &mut M,
) -> Result<Option<Parts<M::Id>>, AllocError>
    ensures read { IfOk result (λ r. (t : TermTree) (ts : List TermTree) → IsTermValue (context_of setting.now.context) setting.now.limit t first.now → AreTermValues (context_of setting.now.context) setting.now.limit ts others.now
        → ArePartsOf (context_of setting.now.context) setting.now.limit (M.is_id maker.new) (M.tree maker.new) (neighbours (comparison relation) (t ∷ ts)) r) }
    ensures within { IfOk result (λ r. ForSome r (λ p. p.nodes ≤ setting.now.limit)) }
    ensures ids { IfOk result (λ r. ForSome r (HaveIds (M.is_id maker.new))) }
    ensures kept { Keeps (M.is_id maker.old) (M.tree maker.old) (M.is_id maker.new) (M.tree maker.new) }
{
    let mut parts = Parts::none(setting.alloc);
    let mut left = first;
    for right in others {
        let value = comparison(setting, relation, left, right, maker)?;
        if !parts.add(setting.limit, &value)? {
            return Ok(None);
        }
        left = right;
    }
    Ok(Some(parts))
}

/// The equivalences of neighbours; `None` where they are too large together. An `Err` is want of memory.
pub(crate) fn equivalences<M: Maker>(
    alloc: Global,
    limit: u64,
    first: &FormulaValue<M::Id>,
    others: &[FormulaValue<M::Id>],
    maker: &mut M,
) -> Result<Option<Parts<M::Id>>, AllocError>
    requires first { HasId (M.is_id maker.old) first.now }
    requires others { AllByRecursion (HasId (M.is_id maker.old)) others.now }
    ensures read { IfOk result (λ r. (c : meaning.Context) (f : FormulaTree) (fs : List FormulaTree) → IsFormulaValue c limit (M.is_id maker.old) (M.tree maker.old) f first.now → AreFormulaValues c limit (M.is_id maker.old) (M.tree maker.old) fs others.now
        → ArePartsOf c limit (M.is_id maker.new) (M.tree maker.new) (neighbours Equiv (f ∷ fs)) r) }
    ensures within { IfOk result (λ r. ForSome r (λ p. p.nodes ≤ limit)) }
    ensures ids { IfOk result (λ r. ForSome r (HaveIds (M.is_id maker.new))) }
    ensures kept { Keeps (M.is_id maker.old) (M.tree maker.old) (M.is_id maker.new) (M.tree maker.new) }
{
    let mut parts = Parts::none(alloc);
    let mut left = first;
    for right in others {
        let value = connected(limit, Pair::Equiv, left, right, maker)?;
        if !parts.add(limit, &value)? {
            return Ok(None);
        }
        left = right;
    }
    Ok(Some(parts))
}

/// Takes in that the first term differs from each of the others, and answers whether all are not too large together. An
/// `Err` is want of memory.
fn add_differences<M: Maker>(
    setting: &Setting<'_>,
    first: &TermValue,
    others: &[TermValue],
    parts: &mut Parts<M::Id>,
    maker: &mut M,
) -> Result<bool, AllocError>
    requires within { parts.old.nodes ≤ setting.now.limit }
    requires ids { HaveIds (M.is_id maker.old) parts.old }
    ensures read { IfOk result (λ b. (fs : List FormulaTree) (t : TermTree) (ts : List TermTree) → ArePartsBelow (context_of setting.now.context) (M.is_id maker.old) (M.tree maker.old) fs parts.old
        → IsTermValue (context_of setting.now.context) setting.now.limit t first.now → AreTermValues (context_of setting.now.context) setting.now.limit ts others.now
        → MatchBool b (ArePartsBelow (context_of setting.now.context) (M.is_id maker.new) (M.tree maker.new) (fs ++ map (comparison Differs t) ts) parts.new) (setting.now.limit < formulas_nodes (formulas_of (fs ++ map (comparison Differs t) ts)))) }
    ensures within { IfOk result (λ b. IsTrue b → parts.new.nodes ≤ setting.now.limit) }
    ensures ids { IfOk result (λ b. IsTrue b → HaveIds (M.is_id maker.new) parts.new) }
    ensures kept { Keeps (M.is_id maker.old) (M.tree maker.old) (M.is_id maker.new) (M.tree maker.new) }
{
    for other in others {
        let value = comparison(setting, Relation::Differs, first, other, maker)?;
        if !parts.add(setting.limit, &value)? {
            return Ok(false);
        }
    }
    Ok(true)
}

/// That each two of the terms differ; `None` where that is too large. An `Err` is want of memory.
pub(crate) fn differences<M: Maker>(
    setting: &Setting<'_>,
    terms: &[TermValue],
    maker: &mut M,
) -> Result<Option<Parts<M::Id>>, AllocError>
    ensures read { IfOk result (λ r. (ts : List TermTree) → AreTermValues (context_of setting.now.context) setting.now.limit ts terms.now
        → ArePartsOf (context_of setting.now.context) setting.now.limit (M.is_id maker.new) (M.tree maker.new) (pairs (comparison Differs) ts) r) }
    ensures within { IfOk result (λ r. ForSome r (λ p. p.nodes ≤ setting.now.limit)) }
    ensures ids { IfOk result (λ r. ForSome r (HaveIds (M.is_id maker.new))) }
    ensures kept { Keeps (M.is_id maker.old) (M.tree maker.old) (M.is_id maker.new) (M.tree maker.new) }
{
    let mut parts = Parts::none(setting.alloc);
    for (place, first) in terms.iter().enumerate() {
        let others = &terms[place + 1..];
        if !add_differences(setting, first, others, &mut parts, maker)? {
            return Ok(None);
        }
    }
    Ok(Some(parts))
}
