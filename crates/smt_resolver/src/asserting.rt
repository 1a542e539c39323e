//! The formula that an assertion adds.

ghost use Rattle.std.specs.Prelude.{◌≡◌, Some, IsSome, IfOk, IfErr};
ghost use Rattle.normal_atoms.specs.Atoms.{context_of};
ghost use Rattle.formula_tree.specs.Makers.{Keeps};
ghost use Rattle.smt_tokens.specs.CodeTrees.{expression_tree};
ghost use Rattle.smt_meaning.specs.Proper.{IsProper};
ghost use Rattle.smt_resolver.specs.Outcomes.{IsAsserted, IsRefusedFor, told_as};

use crate::error::AssertError;
use crate::frames::Frames;
use crate::setting::Setting;
use crate::sized::Sized;
use crate::smt_resolving_reading::read;
use crate::unknown::has_unknown;
use crate::value::Value;
use formula_tree::Maker;
use language_meaning::StaticError;
use smt_tokens::Expression;

/// The formula that an assertion means, resolved, with nothing bound and the declared names as the first variables. An `Err` is the
/// first cause for which there is none; formulas may have been made then that nothing needs.
pub fn asserted<M: Maker>(
    setting: &Setting<'_>,
    expression: &Expression,
    maker: &mut M,
) -> Result<M::Id, AssertError>
    requires proper { IsProper (expression_tree expression.now) }
    ensures asserted { IfOk result (IsAsserted (context_of setting.now.context) setting.now.limit setting.now.declared.now (M.is_id maker.new) (M.tree maker.new) (expression_tree expression.now)) }
    ensures refused { IfErr result (IsRefusedFor (context_of setting.now.context) setting.now.limit setting.now.declared.now (expression_tree expression.now)) }
    ensures kept { Keeps (M.is_id maker.old) (M.tree maker.old) (M.is_id maker.new) (M.tree maker.new) }
{
    let mut bound = Frames::new(setting.alloc);
    if has_unknown(setting.alloc, setting.declared, expression, &mut bound)? {
        return Err(AssertError::Undeclared);
    }
    let mut symbols = Frames::new(setting.alloc);
    let level = setting.declared.count();
    let value = read(setting, level, expression, &mut symbols, maker)?;
    let Some(meant) = &value else {
        return Err(AssertError::Sort);
    };
    let Value::Formula(formula) = meant else {
        return Err(AssertError::Sort);
    };
    let Sized::Within { read: part, .. } = formula else {
        return Err(AssertError::Nodes);
    };
    match part.accepted() {
        Ok(id) => Ok(id),
        Err(cause) => Err(told(cause)),
    }
}

/// The cause of a refused formula, as an assertion tells it.
fn told(cause: StaticError) -> AssertError
    requires { IsSome (told_as cause) }
    ensures { told_as cause ≡ Some result }
{
    match cause {
        StaticError::Nonlinear => AssertError::Nonlinear,
        StaticError::Division => AssertError::Division,
        StaticError::Depth => AssertError::Depth,
        StaticError::Overflow => AssertError::Overflow,
        StaticError::Memory => AssertError::Memory,
        StaticError::Unbound
        | StaticError::FormulaAsTerm
        | StaticError::CongruenceContext
        | StaticError::Modulus => unreachable!(),
    }
}
