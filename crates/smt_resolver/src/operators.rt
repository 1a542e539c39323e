//! What is read of an operator, from what is read of its members.

ghost use Rattle.std.specs.Prelude.{◌≡◌, List, IfOk};
ghost use Rattle.std.specs.List.{AllByRecursion};
ghost use Rattle.std.specs.Option.{ForSome};
ghost use Rattle.logic_meaning.specs.Context as meaning;
ghost use Rattle.normal_atoms.specs.Atoms.{context_of};
ghost use Rattle.language_meaning.specs.declared.tree.Relation.TheVariants.{Differs};
ghost use Rattle.language_meaning.specs.Trees.{TermTree, FormulaTree};
ghost use Rattle.formula_tree.specs.Makers.{Keeps};
ghost use Rattle.smt_language.specs.declared.expression.Operator.TheVariants.{Minus, Divided, Implies, Equal};
ghost use Rattle.smt_language.specs.Operators.{Meaning, of_terms, of_formulas, of_one_kind, of_members};
ghost use Rattle.smt_language.specs.Shapes.{comparison, chained, all_pairs};
ghost use Rattle.smt_language.specs.Meaning.{as_term, as_formula, and_then};
ghost use Rattle.smt_resolver.specs.Values.{AreTermValues, AreFormulaValues, HasId};
ghost use Rattle.smt_resolver.specs.Readings.{IsMeant, IsTermFound, IsFormulaFound, HasValueId, AreMembersOf, HaveMemberIds, chain_relation, if_many};

use crate::chains::{comparisons, differences, equivalences};
use crate::formulas::{implied, negated};
use crate::parts::{FormulaValue, joined, joint, same};
use crate::setting::Setting;
use crate::terms::{TermValue, difference, negative, product, quotient, sum};
use crate::value::{MemberValues, Value};
use formula_tree::Maker;
use language_meaning::Relation;
use logic_meaning::Junction;
use normal_atoms::Context;
use smt_language::Operator;
use std::alloc::{AllocError, Global};

/// The relation that an operator states between neighbours among terms.
fn chain_relation(operator: Operator) -> Option<Relation>
    ensures { result ≡ chain_relation operator }
{
    match operator {
        Operator::Equal => Some(Relation::Equal),
        Operator::Less => Some(Relation::Less),
        Operator::AtMost => Some(Relation::AtMost),
        Operator::Greater => Some(Relation::Greater),
        Operator::AtLeast => Some(Relation::AtLeast),
        _ => None,
    }
}

/// The term with the other sign, or the first term, from which the others are taken away.
fn minus(alloc: Global, limit: u64, terms: &[TermValue]) -> Result<Option<TermValue>, AllocError>
    ensures { IfOk result (λ r. (c : meaning.Context) (ts : List TermTree) → AreTermValues c limit ts terms.now → IsTermFound c limit (as_term (of_terms c Minus ts)) r) }
{
    let [first, others @ ..] = terms else {
        return Ok(None);
    };
    if terms.len() == 1 {
        return Ok(Some(negative(alloc, limit, first)?));
    }
    Ok(Some(difference(alloc, limit, first, others)?))
}

/// Over the fields, the quotient of two terms.
fn divided(setting: &Setting<'_>, terms: &[TermValue]) -> Result<Option<TermValue>, AllocError>
    ensures { IfOk result (λ r. (ts : List TermTree) → AreTermValues (context_of setting.now.context) setting.now.limit ts terms.now
        → IsTermFound (context_of setting.now.context) setting.now.limit (as_term (of_terms (context_of setting.now.context) Divided ts)) r) }
{
    let [dividend, divisor] = terms else {
        return Ok(None);
    };
    match setting.context {
        Context::Integers => Ok(None),
        Context::Fields => {
            let (alloc, limit) = (setting.alloc, setting.limit);
            let value = quotient(alloc, setting.context, limit, dividend, divisor)?;
            Ok(Some(value))
        }
    }
}

/// The term that the operator makes of terms, if it makes one.
fn term_of(
    setting: &Setting<'_>,
    operator: Operator,
    terms: &[TermValue],
) -> Result<Option<TermValue>, AllocError>
    ensures { IfOk result (λ r. (ts : List TermTree) → AreTermValues (context_of setting.now.context) setting.now.limit ts terms.now
        → IsTermFound (context_of setting.now.context) setting.now.limit (as_term (of_terms (context_of setting.now.context) operator ts)) r) }
{
    match operator {
        Operator::Minus => minus(setting.alloc, setting.limit, terms),
        Operator::Divided => divided(setting, terms),
        Operator::Plus => {
            if terms.len() < 2 {
                return Ok(None);
            }
            Ok(Some(sum(setting.alloc, setting.limit, terms)?))
        }
        Operator::Times => {
            if terms.len() < 2 {
                return Ok(None);
            }
            Ok(Some(product(setting.alloc, setting.limit, terms)?))
        }
        _ => Ok(None),
    }
}

/// The relation between all neighbours of two terms or more.
fn chain<M: Maker>(
    setting: &Setting<'_>,
    relation: Relation,
    terms: &[TermValue],
    maker: &mut M,
) -> Result<Option<FormulaValue<M::Id>>, AllocError>
    ensures read { IfOk result (λ r. (ts : List TermTree) → AreTermValues (context_of setting.now.context) setting.now.limit ts terms.now
        → IsFormulaFound (context_of setting.now.context) setting.now.limit (M.is_id maker.new) (M.tree maker.new) (if_many ts (chained (comparison relation) ts)) r) }
    ensures ids { IfOk result (λ r. ForSome r (HasId (M.is_id maker.new))) }
    ensures kept { Keeps (M.is_id maker.old) (M.tree maker.old) (M.is_id maker.new) (M.tree maker.new) }
{
    let [first, others @ ..] = terms else {
        return Ok(None);
    };
    if terms.len() == 1 {
        return Ok(None);
    }
    let (alloc, limit) = (setting.alloc, setting.limit);
    let parts = comparisons(setting, relation, first, others, maker)?;
    let value = joined(alloc, limit, Junction::Conjunction, parts, maker)?;
    Ok(Some(value))
}

/// That each two of two terms or more differ.
fn distinct<M: Maker>(
    setting: &Setting<'_>,
    terms: &[TermValue],
    maker: &mut M,
) -> Result<Option<FormulaValue<M::Id>>, AllocError>
    ensures read { IfOk result (λ r. (ts : List TermTree) → AreTermValues (context_of setting.now.context) setting.now.limit ts terms.now
        → IsFormulaFound (context_of setting.now.context) setting.now.limit (M.is_id maker.new) (M.tree maker.new) (if_many ts (all_pairs (comparison Differs) ts)) r) }
    ensures ids { IfOk result (λ r. ForSome r (HasId (M.is_id maker.new))) }
    ensures kept { Keeps (M.is_id maker.old) (M.tree maker.old) (M.is_id maker.new) (M.tree maker.new) }
{
    if terms.len() < 2 {
        return Ok(None);
    }
    let (alloc, limit) = (setting.alloc, setting.limit);
    let parts = differences(setting, terms, maker)?;
    let value = joined(alloc, limit, Junction::Conjunction, parts, maker)?;
    Ok(Some(value))
}

/// The formula that the operator makes of terms, if it makes one.
fn formula_of_terms<M: Maker>(
    setting: &Setting<'_>,
    operator: Operator,
    terms: &[TermValue],
    maker: &mut M,
) -> Result<Option<FormulaValue<M::Id>>, AllocError>
    ensures read { IfOk result (λ r. (ts : List TermTree) → AreTermValues (context_of setting.now.context) setting.now.limit ts terms.now
        → IsFormulaFound (context_of setting.now.context) setting.now.limit (M.is_id maker.new) (M.tree maker.new) (as_formula (of_terms (context_of setting.now.context) operator ts)) r) }
    ensures ids { IfOk result (λ r. ForSome r (HasId (M.is_id maker.new))) }
    ensures kept { Keeps (M.is_id maker.old) (M.tree maker.old) (M.is_id maker.new) (M.tree maker.new) }
{
    match chain_relation(operator) {
        Some(relation) => chain(setting, relation, terms, maker),
        None => match operator {
            Operator::Distinct => distinct(setting, terms, maker),
            _ => Ok(None),
        },
    }
}

/// The implications of the formulas, grouped to the right.
fn implications<M: Maker>(
    limit: u64,
    formulas: &[FormulaValue<M::Id>],
    maker: &mut M,
) -> Result<Option<FormulaValue<M::Id>>, AllocError>
    requires { AllByRecursion (HasId (M.is_id maker.old)) formulas.now }
    ensures read { IfOk result (λ r. (c : meaning.Context) (fs : List FormulaTree) → AreFormulaValues c limit (M.is_id maker.old) (M.tree maker.old) fs formulas.now
        → IsFormulaFound c limit (M.is_id maker.new) (M.tree maker.new) (as_formula (of_formulas Implies fs)) r) }
    ensures ids { IfOk result (λ r. ForSome r (HasId (M.is_id maker.new))) }
    ensures kept { Keeps (M.is_id maker.old) (M.tree maker.old) (M.is_id maker.new) (M.tree maker.new) }
{
    let [premises @ .., conclusion] = formulas else {
        return Ok(None);
    };
    if formulas.len() == 1 {
        return Ok(None);
    }
    let value = implied(limit, premises, same(conclusion), maker)?;
    Ok(Some(value))
}

/// The equivalence of all neighbours.
fn equal<M: Maker>(
    alloc: Global,
    limit: u64,
    formulas: &[FormulaValue<M::Id>],
    maker: &mut M,
) -> Result<Option<FormulaValue<M::Id>>, AllocError>
    requires { AllByRecursion (HasId (M.is_id maker.old)) formulas.now }
    ensures read { IfOk result (λ r. (c : meaning.Context) (fs : List FormulaTree) → AreFormulaValues c limit (M.is_id maker.old) (M.tree maker.old) fs formulas.now
        → IsFormulaFound c limit (M.is_id maker.new) (M.tree maker.new) (as_formula (of_formulas Equal fs)) r) }
    ensures ids { IfOk result (λ r. ForSome r (HasId (M.is_id maker.new))) }
    ensures kept { Keeps (M.is_id maker.old) (M.tree maker.old) (M.is_id maker.new) (M.tree maker.new) }
{
    let [first, others @ ..] = formulas else {
        return Ok(None);
    };
    if formulas.len() == 1 {
        return Ok(None);
    }
    let parts = equivalences(alloc, limit, first, others, maker)?;
    let value = joined(alloc, limit, Junction::Conjunction, parts, maker)?;
    Ok(Some(value))
}

/// The formula that the operator makes of formulas, if it makes one.
fn formula_of_formulas<M: Maker>(
    setting: &Setting<'_>,
    operator: Operator,
    formulas: &[FormulaValue<M::Id>],
    maker: &mut M,
) -> Result<Option<FormulaValue<M::Id>>, AllocError>
    requires { AllByRecursion (HasId (M.is_id maker.old)) formulas.now }
    ensures read { IfOk result (λ r. (c : meaning.Context) (fs : List FormulaTree) → AreFormulaValues c setting.now.limit (M.is_id maker.old) (M.tree maker.old) fs formulas.now
        → IsFormulaFound c setting.now.limit (M.is_id maker.new) (M.tree maker.new) (as_formula (of_formulas operator fs)) r) }
    ensures ids { IfOk result (λ r. ForSome r (HasId (M.is_id maker.new))) }
    ensures kept { Keeps (M.is_id maker.old) (M.tree maker.old) (M.is_id maker.new) (M.tree maker.new) }
{
    let (alloc, limit) = (setting.alloc, setting.limit);
    match operator {
        Operator::Not => {
            let [only] = formulas else {
                return Ok(None);
            };
            Ok(Some(negated(limit, only, maker)?))
        }
        Operator::And => {
            if formulas.is_empty() {
                return Ok(None);
            }
            let value = joint(alloc, limit, Junction::Conjunction, formulas, maker)?;
            Ok(Some(value))
        }
        Operator::Or => {
            if formulas.is_empty() {
                return Ok(None);
            }
            let value = joint(alloc, limit, Junction::Disjunction, formulas, maker)?;
            Ok(Some(value))
        }
        Operator::Implies => implications(limit, formulas, maker),
        Operator::Equal => equal(alloc, limit, formulas, maker),
        _ => Ok(None),
    }
}

/// What the operator makes of its members; `None` where it takes no such members. An `Err` is want of memory.
pub fn applied<M: Maker>(
    setting: &Setting<'_>,
    operator: Operator,
    members: &MemberValues<M::Id>,
    maker: &mut M,
) -> Result<Option<Value<M::Id>>, AllocError>
    requires { HaveMemberIds (M.is_id maker.old) members.now }
    ensures read { IfOk result (λ r. (ms : List Meaning) → AreMembersOf (context_of setting.now.context) setting.now.limit (M.is_id maker.old) (M.tree maker.old) ms members.now
        → IsMeant (context_of setting.now.context) setting.now.limit (M.is_id maker.new) (M.tree maker.new) (and_then (of_one_kind ms) (of_members (context_of setting.now.context) operator)) r) }
    ensures ids { IfOk result (λ r. ForSome r (HasValueId (M.is_id maker.new))) }
    ensures kept { Keeps (M.is_id maker.old) (M.tree maker.old) (M.is_id maker.new) (M.tree maker.new) }
{
    if members.terms.is_empty() {
        return match formula_of_formulas(setting, operator, &members.formulas, maker)? {
            Some(value) => Ok(Some(Value::Formula(value))),
            None => Ok(None),
        };
    }
    if !members.formulas.is_empty() {
        return Ok(None);
    }
    if let Some(value) = term_of(setting, operator, &members.terms)? {
        return Ok(Some(Value::Term(value)));
    }
    match formula_of_terms(setting, operator, &members.terms, maker)? {
        Some(value) => Ok(Some(Value::Formula(value))),
        None => Ok(None),
    }
}
