//! What is read of formulas, with their nodes. No step but want of memory fails.

ghost use Rattle.std.specs.Prelude.{◌≡◌, ◌<◌, ◌≤◌, ◌+◌, ◌^◌, ◌∷◌, List, length, IfOk};
ghost use Rattle.std.specs.List.{AllByRecursion};
ghost use Rattle.logic_meaning.specs.Context as meaning;
ghost use Rattle.logic_meaning.specs.Fold.{neutral};
ghost use Rattle.logic_meaning.specs.Formula.{Not};
ghost use Rattle.logic_meaning.specs.Shape.{quantified};
ghost use Rattle.normal_atoms.specs.Atoms.{context_of};
ghost use Rattle.written_syntax.specs.Proper.{IsNumeral};
ghost use Rattle.language_meaning.specs.Trees.{TermTree, FormulaTree};
ghost use Rattle.formula_tree.specs.Makers.{Keeps};
ghost use Rattle.formula_resolving.specs.Connectives.{paired};
ghost use Rattle.smt_language.specs.Levels.{level, closed};
ghost use Rattle.smt_language.specs.Shapes.{comparison, divides};
ghost use Rattle.smt_resolver.specs.Values.{IsTermValue, IsFormulaValue, AreFormulaValues, HasId, implied_by};

use crate::parts::FormulaValue;
use crate::setting::Setting;
use crate::sized::{Sized, counted};
use crate::terms::TermValue;
use formula_resolving::{
    Pair, compared_part, congruent_part, constant_part, negated_part, paired_part, quantified_part,
};
use formula_tree::Maker;
use language_meaning::{Literal, Relation};
use logic_meaning::{Junction, Quantifier, VarId};
use smt_language::SortedName;
use std::alloc::AllocError;
use written_atoms::{ReadTerm, comparison_of, congruence_of};

/// The junction of no formulas, a constant.
pub fn constant<M: Maker>(
    limit: u64,
    junction: Junction,
    maker: &mut M,
) -> Result<FormulaValue<M::Id>, AllocError>
    ensures read { IfOk result (λ r. (c : meaning.Context) → IsFormulaValue c limit (M.is_id maker.new) (M.tree maker.new) (neutral junction) r) }
    ensures ids { IfOk result (HasId (M.is_id maker.new)) }
    ensures kept { Keeps (M.is_id maker.old) (M.tree maker.old) (M.is_id maker.new) (M.tree maker.new) }
{
    let Some(nodes) = counted(limit, 1, 0) else {
        return Ok(Sized::TooLarge);
    };
    let read = constant_part(junction, maker)?;
    Ok(Sized::Within { nodes, read })
}

/// The comparison of two terms.
pub(crate) fn comparison<M: Maker>(
    setting: &Setting<'_>,
    relation: Relation,
    left: &TermValue,
    right: &TermValue,
    maker: &mut M,
) -> Result<FormulaValue<M::Id>, AllocError>
    ensures read { IfOk result (λ r. (s t : TermTree) → IsTermValue (context_of setting.now.context) setting.now.limit s left.now → IsTermValue (context_of setting.now.context) setting.now.limit t right.now
        → IsFormulaValue (context_of setting.now.context) setting.now.limit (M.is_id maker.new) (M.tree maker.new) (comparison relation s t) r) }
    ensures ids { IfOk result (HasId (M.is_id maker.new)) }
    ensures kept { Keeps (M.is_id maker.old) (M.tree maker.old) (M.is_id maker.new) (M.tree maker.new) }
{
    let Sized::Within {
        nodes: before,
        read: left,
    } = left
    else {
        return Ok(Sized::TooLarge);
    };
    let Sized::Within {
        nodes: behind,
        read: right,
    } = right
    else {
        return Ok(Sized::TooLarge);
    };
    let Some(both) = counted(setting.limit, *before, *behind) else {
        return Ok(Sized::TooLarge);
    };
    let Some(nodes) = counted(setting.limit, both, 1) else {
        return Ok(Sized::TooLarge);
    };
    let difference = left.difference(setting.alloc, right)?;
    let read = comparison_of(setting.alloc, setting.context, relation, difference)?;
    let read = compared_part(read, maker)?;
    Ok(Sized::Within { nodes, read })
}

/// That the numeral divides the term.
pub(crate) fn divisible<M: Maker>(
    setting: &Setting<'_>,
    divisor: Literal,
    term: &TermValue,
    maker: &mut M,
) -> Result<FormulaValue<M::Id>, AllocError>
    requires { IsNumeral divisor }
    ensures read { IfOk result (λ r. (t : TermTree) → IsTermValue (context_of setting.now.context) setting.now.limit t term.now
        → IsFormulaValue (context_of setting.now.context) setting.now.limit (M.is_id maker.new) (M.tree maker.new) (divides divisor t) r) }
    ensures ids { IfOk result (HasId (M.is_id maker.new)) }
    ensures kept { Keeps (M.is_id maker.old) (M.tree maker.old) (M.is_id maker.new) (M.tree maker.new) }
{
    let Sized::Within {
        nodes: inside,
        read: term,
    } = term
    else {
        return Ok(Sized::TooLarge);
    };
    let Some(nodes) = counted(setting.limit, *inside, 3) else {
        return Ok(Sized::TooLarge);
    };
    let zero = ReadTerm::literal(setting.alloc, Literal::Fits(0));
    let difference = term.difference(setting.alloc, &zero)?;
    let modulus = ReadTerm::literal(setting.alloc, divisor);
    let read = congruence_of(setting.alloc, setting.context, true, difference, modulus)?;
    let read = congruent_part(setting.context, true, read, maker)?;
    Ok(Sized::Within { nodes, read })
}

/// The negation.
pub(crate) fn negated<M: Maker>(
    limit: u64,
    value: &FormulaValue<M::Id>,
    maker: &mut M,
) -> Result<FormulaValue<M::Id>, AllocError>
    requires { HasId (M.is_id maker.old) value.now }
    ensures read { IfOk result (λ r. (c : meaning.Context) (f : FormulaTree) → IsFormulaValue c limit (M.is_id maker.old) (M.tree maker.old) f value.now → IsFormulaValue c limit (M.is_id maker.new) (M.tree maker.new) (Not f) r) }
    ensures ids { IfOk result (HasId (M.is_id maker.new)) }
    ensures kept { Keeps (M.is_id maker.old) (M.tree maker.old) (M.is_id maker.new) (M.tree maker.new) }
{
    let Sized::Within {
        nodes: inside,
        read,
    } = value
    else {
        return Ok(Sized::TooLarge);
    };
    let Some(nodes) = counted(limit, *inside, 1) else {
        return Ok(Sized::TooLarge);
    };
    let read = negated_part(*read, maker)?;
    Ok(Sized::Within { nodes, read })
}

/// Two formulas with a connective between them.
pub(crate) fn connected<M: Maker>(
    limit: u64,
    pair: Pair,
    left: &FormulaValue<M::Id>,
    right: &FormulaValue<M::Id>,
    maker: &mut M,
) -> Result<FormulaValue<M::Id>, AllocError>
    requires left { HasId (M.is_id maker.old) left.now }
    requires right { HasId (M.is_id maker.old) right.now }
    ensures read { IfOk result (λ r. (c : meaning.Context) (f g : FormulaTree) → IsFormulaValue c limit (M.is_id maker.old) (M.tree maker.old) f left.now → IsFormulaValue c limit (M.is_id maker.old) (M.tree maker.old) g right.now
        → IsFormulaValue c limit (M.is_id maker.new) (M.tree maker.new) (paired pair f g) r) }
    ensures ids { IfOk result (HasId (M.is_id maker.new)) }
    ensures kept { Keeps (M.is_id maker.old) (M.tree maker.old) (M.is_id maker.new) (M.tree maker.new) }
{
    let Sized::Within {
        nodes: before,
        read: left,
    } = left
    else {
        return Ok(Sized::TooLarge);
    };
    let Sized::Within {
        nodes: behind,
        read: right,
    } = right
    else {
        return Ok(Sized::TooLarge);
    };
    let Some(both) = counted(limit, *before, *behind) else {
        return Ok(Sized::TooLarge);
    };
    let Some(nodes) = counted(limit, both, 1) else {
        return Ok(Sized::TooLarge);
    };
    let read = paired_part(pair, *left, *right, maker)?;
    Ok(Sized::Within { nodes, read })
}

/// The formula with a quantifier before it, over the name of a level.
fn quantified<M: Maker>(
    limit: u64,
    quantifier: Quantifier,
    number: usize,
    value: &FormulaValue<M::Id>,
    maker: &mut M,
) -> Result<FormulaValue<M::Id>, AllocError>
    requires { HasId (M.is_id maker.old) value.now }
    ensures read { IfOk result (λ r. (c : meaning.Context) (f : FormulaTree) → IsFormulaValue c limit (M.is_id maker.old) (M.tree maker.old) f value.now
        → IsFormulaValue c limit (M.is_id maker.new) (M.tree maker.new) (quantified quantifier (level number) f) r) }
    ensures ids { IfOk result (HasId (M.is_id maker.new)) }
    ensures kept { Keeps (M.is_id maker.old) (M.tree maker.old) (M.is_id maker.new) (M.tree maker.new) }
{
    let Sized::Within {
        nodes: inside,
        read,
    } = value
    else {
        return Ok(Sized::TooLarge);
    };
    let Some(nodes) = counted(limit, *inside, 1) else {
        return Ok(Sized::TooLarge);
    };
    let read = quantified_part(quantifier, VarId { number }, *read, maker)?;
    Ok(Sized::Within { nodes, read })
}

/// The formula with a quantifier for each of the names before it, which have the levels from this one on.
pub(crate) fn closed<M: Maker>(
    limit: u64,
    quantifier: Quantifier,
    level: usize,
    names: &[SortedName],
    value: FormulaValue<M::Id>,
    maker: &mut M,
) -> Result<FormulaValue<M::Id>, AllocError>
    requires id { HasId (M.is_id maker.old) value }
    requires levels { level + length names.now < 2 ^ 64 }
    ensures read { IfOk result (λ r. (c : meaning.Context) (f : FormulaTree) → IsFormulaValue c limit (M.is_id maker.old) (M.tree maker.old) f value
        → IsFormulaValue c limit (M.is_id maker.new) (M.tree maker.new) (closed quantifier level names.now f) r) }
    ensures ids { IfOk result (HasId (M.is_id maker.new)) }
    ensures kept { Keeps (M.is_id maker.old) (M.tree maker.old) (M.is_id maker.new) (M.tree maker.new) }
{
    let mut inner = value;
    let mut count = names.len();
    'outwards: while count > 0 {
        count -= 1;
        inner = quantified(limit, quantifier, level + count, &inner, maker)?;
    }
    Ok(inner)
}

/// The implications of the rest, grouped to the right.
pub(crate) fn implied<M: Maker>(
    limit: u64,
    values: &[FormulaValue<M::Id>],
    last: FormulaValue<M::Id>,
    maker: &mut M,
) -> Result<FormulaValue<M::Id>, AllocError>
    requires ids { AllByRecursion (HasId (M.is_id maker.old)) values.now }
    requires last { HasId (M.is_id maker.old) last }
    ensures read { IfOk result (λ r. (c : meaning.Context) (fs : List FormulaTree) (f : FormulaTree) → AreFormulaValues c limit (M.is_id maker.old) (M.tree maker.old) fs values.now → IsFormulaValue c limit (M.is_id maker.old) (M.tree maker.old) f last
        → IsFormulaValue c limit (M.is_id maker.new) (M.tree maker.new) (implied_by fs f) r) }
    ensures ids { IfOk result (HasId (M.is_id maker.new)) }
    ensures kept { Keeps (M.is_id maker.old) (M.tree maker.old) (M.is_id maker.new) (M.tree maker.new) }
{
    let mut total = last;
    let mut count = values.len();
    'outwards: while count > 0 {
        count -= 1;
        total = connected(limit, Pair::Impl, &values[count], &total, maker)?;
    }
    Ok(total)
}
