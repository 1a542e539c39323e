//! Lines that are printed or not, and the texts of formulas in them.

ghost use Rattle.std.specs.Prelude.{◌≡◌, ◌⊎◌, ◌<◌, ◌≤◌, length, IfOk, IfErr, OnOk};
ghost use Rattle.logic_meaning.specs.Members.{HasTwoMembers};
ghost use Rattle.formula_laws.specs.Within.{IsTreeWithin};
ghost use Rattle.formula_store.specs.Nodes.{tree, IsId};
ghost use Rattle.logic_meaning.specs.Text.{tree_text};
ghost use Rattle.logic_meaning.specs.Writing.{text_limit};
ghost use Rattle.program_meaning.specs.Reply.{IsLine};
ghost use Rattle.program_meaning.specs.Words.{truth_text};

use crate::refusals::print_refusal;
use formula_store::FormulaId;
use program_meaning::{Line, StatementError};
use session_state::{SessionState, stored_text};
use std::alloc::Global;

/// The line that is this text, if it is printed.
pub fn printed_line(alloc: Global, text: &[u8], printed: bool) -> Result<Line, StatementError>
    requires short { length text.now ≤ text_limit }
    ensures line { IfOk result (IsLine printed text.now) }
    ensures memory { IfErr result (λ e. e ≡ StatementError.Memory) }
{
    if !printed {
        return Ok(Line::Nothing);
    }
    let Ok(line) = Vec::from_slice(alloc, text) else {
        return Err(StatementError::Memory);
    };
    Ok(Line::Printed(line))
}

/// The text of a formula. `Text` comes exactly where it is longer than 32 MiB, else `Memory`.
pub fn text_of(state: &SessionState, id: FormulaId) -> Result<Vec<u8>, StatementError>
    requires id { IsId state.now.store id }
    requires within { IsTreeWithin (length state.now.names) (tree state.now.store id) }
    requires members { HasTwoMembers (tree state.now.store id) }
    ensures text { IfOk result (λ v. v.items ≡ tree_text state.now.names (tree state.now.store id)) }
    ensures short { OnOk result (length (tree_text state.now.names (tree state.now.store id)) ≤ text_limit) }
    ensures fault { IfErr result (λ e. ((e ≡ StatementError.Text) × (text_limit < length (tree_text state.now.names (tree state.now.store id)))) ⊎ (e ≡ StatementError.Memory)) }
{
    match stored_text(state.alloc, &state.store, &state.names, id) {
        Ok(text) => Ok(text),
        Err(error) => Err(print_refusal(error)),
    }
}

/// The text of a truth.
pub fn text_of_truth(truth: bool) -> &'static [u8]
    ensures { result.now ≡ truth_text truth }
{
    if truth {
        b"true".as_slice()
    } else {
        b"false".as_slice()
    }
}
