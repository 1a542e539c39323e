//! A formula of a command, resolved.

ghost use Rattle.std.specs.Prelude.{◌≡◌, IfOk, IfErr, OnOk};
ghost use Rattle.logic_meaning.specs.Replaced.{replaced};
ghost use Rattle.logic_meaning.specs.Quantified.{has_quantifier};
ghost use Rattle.language_meaning.specs.Causes.{atom_in_place};
ghost use Rattle.formula_tree.specs.Makers.{IsMade};
ghost use Rattle.language_meaning.specs.Resolving.{resolve};
ghost use Rattle.formula_resolving.specs.FirstCause.{IsFirstCause};
ghost use Rattle.formula_store.specs.Nodes.{tree, IsId};
ghost use Rattle.written_syntax.specs.Writable.{IsWritableFormula};
ghost use Rattle.written_syntax.specs.CodeTrees.{formula_tree};
ghost use Rattle.form_commands.specs.Reading.{HasNumbers, IsUnread, IsReadable};
ghost use Rattle.program_meaning.specs.State.{known};
ghost use Rattle.session_state.specs.Keeping.{state_of, HasIds};
ghost use Rattle.session_state.specs.Growth.{KeepsState};
ghost use Rattle.session_state.specs.Scripted.{HasAnswers, answered_tree};

use crate::refusals::static_refusal;
use formula_resolving::linearise;
use formula_store::FormulaId;
use free_names::is_quantified;
use language_meaning::StaticError;
use program_meaning::StatementError;
use session_state::SessionState;
use written_syntax::Formula;

/// The resolved formula, with the answers of the commands inside it.
pub fn resolved(state: &mut SessionState, formula: &Formula) -> Result<FormulaId, StatementError>
    requires answers { HasAnswers state.old formula.now }
    requires ids { HasIds state.old }
    requires numbered { HasNumbers state.old.names (answered_tree formula.now) }
    ensures made { IfOk result (λ id. IsMade (IsId state.new.store) (tree state.new.store) id (resolve (state_of state.old).context (known (state_of state.old)) state.old.names (answered_tree formula.now))) }
    ensures readable { OnOk result (IsReadable (state_of state.old) (answered_tree formula.now)) }
    ensures unread { IfErr result (IsUnread (state_of state.old) (answered_tree formula.now)) }
    ensures kept { KeepsState state.old state.new }
{
    match resolved_part(state, formula) {
        Ok(id) => Ok(id),
        Err(error) => Err(static_refusal(error)),
    }
}

/// The resolved formula, with the answers of the commands inside it, or the first cause why there is none.
pub fn resolved_part(state: &mut SessionState, formula: &Formula) -> Result<FormulaId, StaticError>
    requires answers { HasAnswers state.old formula.now }
    requires ids { HasIds state.old }
    requires numbered { HasNumbers state.old.names (answered_tree formula.now) }
    ensures made { IfOk result (λ id. IsMade (IsId state.new.store) (tree state.new.store) id (resolve (state_of state.old).context (known (state_of state.old)) state.old.names (answered_tree formula.now))) }
    ensures readable { OnOk result (IsReadable (state_of state.old) (answered_tree formula.now)) }
    ensures unread { IfErr result (IsFirstCause (state_of state.old).context (known (state_of state.old)) state.old.names (answered_tree formula.now)) }
    ensures kept { KeepsState state.old state.new }
{
    linearise(
        state.alloc,
        formula,
        &state.bindings,
        &state.answers,
        state.context,
        &mut state.names,
        &mut state.store,
    )
}

/// The resolved formula, inside which no command stands, or the first cause why there is none.
pub(crate) fn resolved_plain(
    state: &mut SessionState,
    formula: &Formula,
) -> Result<FormulaId, StaticError>
    requires proper { IsWritableFormula (formula_tree formula.now) }
    requires ids { HasIds state.old }
    requires numbered { HasNumbers state.old.names (formula_tree formula.now) }
    ensures made { IfOk result (λ id. IsMade (IsId state.new.store) (tree state.new.store) id (resolve (state_of state.old).context (known (state_of state.old)) state.old.names (formula_tree formula.now))) }
    ensures readable { OnOk result (IsReadable (state_of state.old) (formula_tree formula.now)) }
    ensures unread { IfErr result (IsFirstCause (state_of state.old).context (known (state_of state.old)) state.old.names (formula_tree formula.now)) }
    ensures kept { KeepsState state.old state.new }
{
    resolved_part(state, formula)
}

/// Whether a quantifier stands in the formula, with the answers of the commands inside it and the bound formulas in their places. It takes
/// no memory.
pub fn holds_quantifier(state: &SessionState, formula: &Formula) -> bool
    requires answers { HasAnswers state.now formula.now }
    requires ids { HasIds state.now }
    ensures { result ≡ has_quantifier (replaced (atom_in_place (known (state_of state.now))) (λ x. 0) (answered_tree formula.now)) }
{
    is_quantified(formula, &state.bindings, &state.answers, &state.store)
}
