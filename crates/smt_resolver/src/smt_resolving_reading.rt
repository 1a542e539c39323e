//! The meaning of an expression, read from what is read of its parts. A value of a `let` is read once.

ghost use Rattle.std.specs.Prelude.{map, IfOk};
ghost use Rattle.normal_atoms.specs.Atoms.{context_of};
ghost use Rattle.formula_tree.specs.Makers.{Keeps};
ghost use Rattle.smt_language.specs.Trees.{Quantified};
ghost use Rattle.smt_tokens.specs.TreeLists.{expressions_of, locals_of};
ghost use Rattle.smt_tokens.specs.CodeTrees.{expression_tree, local_tree};
ghost use Rattle.smt_language.specs.Meaning.{meaning, meanings, local_scope};
ghost use Rattle.smt_meaning.specs.Proper.{IsProper, AreProper, AreProperLocals};
ghost use Rattle.smt_resolver.specs.Readings.{HaveSymbolIds};
ghost use Rattle.smt_resolver.specs.Reading.{IsReading, AreReadings, IsFrameReading};

use crate::formulas::constant;
use crate::frames::Frame;
use crate::operators::applied;
use crate::reading::{
    Symbols, add_member, are_numbers, closed_over, decimal_term, divided_by, named, opened_frame,
};
use crate::setting::Setting;
use crate::terms::numeral;
use crate::value::{MemberValues, Value};
use formula_tree::Maker;
use logic_meaning::{Junction, Quantifier};
use smt_language::SortedName;
use smt_tokens::{Expression, LocalValue};
use std::alloc::AllocError;

/// Reads an expression inside so many names; `None` where it has no meaning. An `Err` is want of memory. The formulas that the
/// maker made stay.
#[tactic(auto, using(smt_tokens::proofs::TreeEquations::trees))]
#[cycle(reading)]
pub(crate) fn read<M: Maker>(
    setting: &Setting<'_>,
    level: usize,
    expression: &Expression,
    symbols: &mut Symbols<M::Id>,
    maker: &mut M,
) -> Result<Option<Value<M::Id>>, AllocError>
    requires proper { IsProper (expression_tree expression.now) }
    requires ids { HaveSymbolIds (M.is_id maker.old) symbols.old }
    ensures read { IfOk result (IsReading (context_of setting.now.context) setting.now.limit setting.now.declared.now (M.is_id maker.old) (M.tree maker.old) (M.is_id maker.new) (M.tree maker.new) symbols.old symbols.new (λ s. meaning (context_of setting.now.context) s level (expression_tree expression.now))) }
    ensures kept { Keeps (M.is_id maker.old) (M.tree maker.old) (M.is_id maker.new) (M.tree maker.new) }
{
    let (alloc, limit) = (setting.alloc, setting.limit);
    match expression {
        Expression::True => {
            let value = constant(limit, Junction::Conjunction, maker)?;
            Ok(Some(Value::Formula(value)))
        }
        Expression::False => {
            let value = constant(limit, Junction::Disjunction, maker)?;
            Ok(Some(Value::Formula(value)))
        }
        Expression::Numeral(literal) => Ok(Some(Value::Term(numeral(alloc, limit, *literal)))),
        Expression::Decimal(digits, power) => match decimal_term(setting, *digits, *power)? {
            Some(value) => Ok(Some(Value::Term(value))),
            None => Ok(None),
        },
        Expression::Named(name) => named::<M>(setting, name, symbols),
        Expression::Apply(operator, members) => {
            let Some(members) = read_members(setting, level, members.items(), symbols, maker)?
            else {
                return Ok(None);
            };
            applied(setting, *operator, &members, maker)
        }
        Expression::Divisible(divisor, inner) => {
            let value = read(setting, level, inner, symbols, maker)?;
            divided_by(setting, *divisor, &value, maker)
        }
        Expression::Quantified(quantifier, names, body) => {
            read_quantified(
                setting,
                level,
                *quantifier,
                names.items(),
                body,
                symbols,
                maker,
            )
        }
        Expression::Let(locals, body) => {
            let Some(frame) = read_locals(setting, level, locals.items(), symbols, maker)? else {
                return Ok(None);
            };
            symbols.enter(frame)?;
            let value = read(setting, level, body, symbols, maker)?;
            symbols.leave();
            Ok(value)
        }
    }
}

/// Reads the body of a quantifier.
#[cycle(reading)]
fn read_quantified<M: Maker>(
    setting: &Setting<'_>,
    level: usize,
    quantifier: Quantifier,
    names: &[SortedName],
    body: &Expression,
    symbols: &mut Symbols<M::Id>,
    maker: &mut M,
) -> Result<Option<Value<M::Id>>, AllocError>
    requires proper { IsProper (expression_tree body.now) }
    requires ids { HaveSymbolIds (M.is_id maker.old) symbols.old }
    ensures read { IfOk result (IsReading (context_of setting.now.context) setting.now.limit setting.now.declared.now (M.is_id maker.old) (M.tree maker.old) (M.is_id maker.new) (M.tree maker.new) symbols.old symbols.new (λ s. meaning (context_of setting.now.context) s level (Quantified quantifier names.now (expression_tree body.now)))) }
    ensures kept { Keeps (M.is_id maker.old) (M.tree maker.old) (M.is_id maker.new) (M.tree maker.new) }
{
    if !are_numbers(setting.context, names) {
        return Ok(None);
    }
    let Some(inner) = level.checked_add(names.len()) else {
        return Err(AllocError);
    };
    symbols.enter(opened_frame::<M>(setting, level, names)?)?;
    let value = read(setting, inner, body, symbols, maker)?;
    symbols.leave();
    closed_over(setting.limit, quantifier, level, names, &value, maker)
}

/// Reads the members of an operator; `None` where one has no meaning.
#[cycle(reading)]
fn read_members<M: Maker>(
    setting: &Setting<'_>,
    level: usize,
    expressions: &[Expression],
    symbols: &mut Symbols<M::Id>,
    maker: &mut M,
) -> Result<Option<MemberValues<M::Id>>, AllocError>
    requires proper { AreProper (expressions_of (map expression_tree expressions.now)) }
    requires ids { HaveSymbolIds (M.is_id maker.old) symbols.old }
    ensures read { IfOk result (AreReadings (context_of setting.now.context) setting.now.limit setting.now.declared.now (M.is_id maker.old) (M.tree maker.old) (M.is_id maker.new) (M.tree maker.new) symbols.old symbols.new (λ s. meanings (context_of setting.now.context) s level (expressions_of (map expression_tree expressions.now)))) }
    ensures kept { Keeps (M.is_id maker.old) (M.tree maker.old) (M.is_id maker.new) (M.tree maker.new) }
{
    let mut members = MemberValues {
        terms: Vec::new(setting.alloc),
        formulas: Vec::new(setting.alloc),
    };
    for expression in expressions {
        let Some(value) = read(setting, level, expression, symbols, maker)? else {
            return Ok(None);
        };
        add_member(&mut members, value)?;
    }
    Ok(Some(members))
}

/// Reads the values of a `let` outside it; `None` where one has no meaning.
#[cycle(reading)]
fn read_locals<M: Maker>(
    setting: &Setting<'_>,
    level: usize,
    locals: &[LocalValue],
    symbols: &mut Symbols<M::Id>,
    maker: &mut M,
) -> Result<Option<Frame<Value<M::Id>>>, AllocError>
    requires proper { AreProperLocals (locals_of (map local_tree locals.now)) }
    requires ids { HaveSymbolIds (M.is_id maker.old) symbols.old }
    ensures read { IfOk result (IsFrameReading (context_of setting.now.context) setting.now.limit setting.now.declared.now (M.is_id maker.old) (M.tree maker.old) (M.is_id maker.new) (M.tree maker.new) symbols.old symbols.new (λ s. local_scope (context_of setting.now.context) s level (locals_of (map local_tree locals.now)) s)) }
    ensures kept { Keeps (M.is_id maker.old) (M.tree maker.old) (M.is_id maker.new) (M.tree maker.new) }
{
    let mut frame = Frame::new(setting.alloc);
    for local in locals {
        let Some(value) = read(setting, level, &local.value, symbols, maker)? else {
            return Ok(None);
        };
        frame.put(&local.name, value)?;
    }
    Ok(Some(frame))
}
