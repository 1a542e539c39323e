//! What is read of names, decimals, quantifiers and divisibility. A value of a `let` is read once, and what was read of it stands for
//! its name.

ghost use Rattle.std.specs.Prelude.{◌≡◌, ◌+◌, ◌<◌, ◌^◌, ℕ, length, Option, option_map, IfOk, OnOk};
ghost use Rattle.std.specs.Option.{ForSome};
ghost use Rattle.logic_meaning.specs.Context as meaning;
ghost use Rattle.normal_atoms.specs.Atoms.{context_of};
ghost use Rattle.written_syntax.specs.Proper.{IsNumeral};
ghost use Rattle.language_meaning.specs.Trees.{Number};
ghost use Rattle.formula_tree.specs.Makers.{Keeps};
ghost use Rattle.smt_language.specs.Levels.{closed};
ghost use Rattle.smt_language.specs.Operators.{Meaning, Formula};
ghost use Rattle.smt_language.specs.Meaning.{Scope, meaning, opened, are_numbers, decimal, divisible, as_term, as_formula, and_then};
ghost use Rattle.smt_meaning.specs.Proper.{IsPositive};
ghost use Rattle.smt_resolver.specs.Readings.{IsTermFound, IsMeant, IsMeaning, IsMemberAdded, HasValueId, IsScope, IsFrame, HaveFrameIds, HaveSymbolIds};

use crate::formulas::{closed, divisible};
use crate::frames::{Frame, Frames};
use crate::operators::applied;
use crate::parts::same;
use crate::setting::Setting;
use crate::terms::{TermValue, copied, numeral, quotient, variable};
use crate::value::{MemberValues, Value};
use formula_tree::Maker;
use language_meaning::Literal;
use logic_meaning::{Name, Quantifier};
use normal_atoms::Context;
use smt_language::SortedName;
use std::alloc::{AllocError, Global};

/// What is bound at the places around an expression.
pub type Symbols<Id> = Frames<Value<Id>>;

/// A decimal: over the fields, its digits divided by the power of ten.
pub fn decimal_term(
    setting: &Setting<'_>,
    digits: Literal,
    power: Literal,
) -> Result<Option<TermValue>, AllocError>
    requires digits { IsNumeral digits }
    requires power { IsNumeral power }
    ensures { IfOk result (IsTermFound (context_of setting.now.context) setting.now.limit (as_term (decimal (context_of setting.now.context) (Number digits) (Number power)))) }
{
    match setting.context {
        Context::Integers => Ok(None),
        Context::Fields => {
            let (alloc, limit) = (setting.alloc, setting.limit);
            let digits = numeral(alloc, limit, digits);
            let power = numeral(alloc, limit, power);
            let value = quotient(alloc, setting.context, limit, &digits, &power)?;
            Ok(Some(value))
        }
    }
}

/// The same once more.
pub fn value_copied<M: Maker>(
    alloc: Global,
    value: &Value<M::Id>,
) -> Result<Value<M::Id>, AllocError>
    ensures read { IfOk result (λ r. (m : M) (c : meaning.Context) (limit : ℕ) (k : Meaning) → IsMeaning c limit (M.is_id m) (M.tree m) k value.now → IsMeaning c limit (M.is_id m) (M.tree m) k r) }
    ensures ids { IfOk result (λ r. (m : M) → HasValueId (M.is_id m) value.now → HasValueId (M.is_id m) r) }
{
    match value {
        Value::Term(term) => Ok(Value::Term(copied(alloc, term)?)),
        Value::Formula(formula) => Ok(Value::Formula(same(formula))),
    }
}

/// What a symbol stands for: what is bound to it, or the variable that it is declared as.
pub fn named<M: Maker>(
    setting: &Setting<'_>,
    name: &Name,
    symbols: &Symbols<M::Id>,
) -> Result<Option<Value<M::Id>>, AllocError>
    ensures read { IfOk result (λ r. (m : M) (s : Scope) → IsScope (context_of setting.now.context) setting.now.limit setting.now.declared.now (M.is_id m) (M.tree m) symbols.now s
        → IsMeant (context_of setting.now.context) setting.now.limit (M.is_id m) (M.tree m) (s name.now) r) }
    ensures ids { IfOk result (λ r. (m : M) → HaveSymbolIds (M.is_id m) symbols.now → ForSome r (HasValueId (M.is_id m))) }
{
    if let Some(value) = symbols.get(name) {
        let value = value_copied::<M>(setting.alloc, value)?;
        return Ok(Some(value));
    }
    match setting.declared.find(name) {
        Some(id) => {
            let value = variable(setting.alloc, setting.limit, id.number)?;
            Ok(Some(Value::Term(value)))
        }
        None => Ok(None),
    }
}

/// Takes in one member more.
pub fn add_member<Id: Copy>(
    members: &mut MemberValues<Id>,
    value: Value<Id>,
) -> Result<(), AllocError>
    ensures { OnOk result (IsMemberAdded members.old value members.new) }
{
    match value {
        Value::Term(term) => members.terms.push(term)?,
        Value::Formula(formula) => members.formulas.push(formula)?,
    }
    Ok(())
}

/// Whether each name has the sort of all numbers.
pub fn are_numbers(context: Context, names: &[SortedName]) -> bool
    ensures { result ≡ are_numbers (context_of context) names.now }
{
    let sort = match context {
        Context::Fields => Name::of(b"Real"),
        Context::Integers => Name::of(b"Int"),
    };
    names.iter().all(|name| sort == name.sort)
}

/// The names of a quantifier, which stand for the levels from this one on.
pub fn opened_frame<M: Maker>(
    setting: &Setting<'_>,
    level: usize,
    names: &[SortedName],
) -> Result<Frame<Value<M::Id>>, AllocError>
    requires { level + length names.now < 2 ^ 64 }
    ensures read { IfOk result (λ r. (m : M) (s : Scope) → IsFrame (context_of setting.now.context) setting.now.limit (M.is_id m) (M.tree m) r s (opened level names.now s)) }
    ensures ids { IfOk result (λ r. (m : M) → HaveFrameIds (M.is_id m) r) }
{
    let mut frame = Frame::new(setting.alloc);
    for (place, name) in names.iter().enumerate() {
        let value = variable(setting.alloc, setting.limit, level + place)?;
        frame.put(&name.name, Value::Term(value))?;
    }
    Ok(frame)
}

/// Over the integers, that the number divides the term that was read; `None` where no term was.
pub fn divided_by<M: Maker>(
    setting: &Setting<'_>,
    divisor: Literal,
    value: &Option<Value<M::Id>>,
    maker: &mut M,
) -> Result<Option<Value<M::Id>>, AllocError>
    requires { IsPositive divisor }
    ensures read { IfOk result (λ r. (o : Option Meaning) → IsMeant (context_of setting.now.context) setting.now.limit (M.is_id maker.old) (M.tree maker.old) o value.now
        → IsMeant (context_of setting.now.context) setting.now.limit (M.is_id maker.new) (M.tree maker.new) (and_then (as_term o) (divisible (context_of setting.now.context) divisor)) r) }
    ensures ids { IfOk result (λ r. ForSome r (HasValueId (M.is_id maker.new))) }
    ensures kept { Keeps (M.is_id maker.old) (M.tree maker.old) (M.is_id maker.new) (M.tree maker.new) }
{
    let Some(value) = value else {
        return Ok(None);
    };
    let Value::Term(term) = value else {
        return Ok(None);
    };
    match setting.context {
        Context::Fields => Ok(None),
        Context::Integers => {
            let value = divisible(setting, divisor, term, maker)?;
            Ok(Some(Value::Formula(value)))
        }
    }
}

/// The formula that was read, with a quantifier for each of the names before it; `None` where no formula was.
pub fn closed_over<M: Maker>(
    limit: u64,
    quantifier: Quantifier,
    level: usize,
    names: &[SortedName],
    value: &Option<Value<M::Id>>,
    maker: &mut M,
) -> Result<Option<Value<M::Id>>, AllocError>
    requires id { ForSome value.now (HasValueId (M.is_id maker.old)) }
    requires levels { level + length names.now < 2 ^ 64 }
    ensures read { IfOk result (λ r. (c : meaning.Context) (o : Option Meaning) → IsMeant c limit (M.is_id maker.old) (M.tree maker.old) o value.now
        → IsMeant c limit (M.is_id maker.new) (M.tree maker.new) (option_map (λ f. Formula (closed quantifier level names.now f)) (as_formula o)) r) }
    ensures ids { IfOk result (λ r. ForSome r (HasValueId (M.is_id maker.new))) }
    ensures kept { Keeps (M.is_id maker.old) (M.tree maker.old) (M.is_id maker.new) (M.tree maker.new) }
{
    let Some(value) = value else {
        return Ok(None);
    };
    let Value::Formula(formula) = value else {
        return Ok(None);
    };
    let value = closed(limit, quantifier, level, names, same(formula), maker)?;
    Ok(Some(Value::Formula(value)))
}
