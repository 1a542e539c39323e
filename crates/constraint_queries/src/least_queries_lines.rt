//! The lines of targets.

ghost use Rattle.std.specs.Prelude.{◌≡◌, ◌<◌, ◌≤◌, IfOk, IfErr, OnOk, IsErrOf, length};
ghost use Rattle.redlog_printer.specs.Within.{AreValuesWithin};
ghost use Rattle.sample_reference.specs.Seen.{values_of};
ghost use Rattle.exact_numbers.specs.Fraction.{frac_of};
ghost use Rattle.logic_meaning.specs.Writing.{text_limit};
ghost use Rattle.program_meaning.specs.Reply.{IsLine};
ghost use Rattle.program_meaning.specs.Targets.{Attained, target_text};
ghost use Rattle.least_search.specs.Found.{found_of};
ghost use Rattle.constraint_queries.specs.LeastQueriesSteps.{HasNamesWithin};

use exact_numbers::Fraction;
use form_commands::printed_line;
use formula_tree::Names;
use least_search::Found;
use logic_meaning::VarId;
use program_meaning::{Line, StatementError};
use redlog_printer::{Output, PrintError, point_text, put_fraction};
use session_state::SessionState;
use std::alloc::Global;

/// The line of what was found, if it is printed.
pub(crate) fn target_line(
    state: &SessionState,
    found: &Found,
    printed: bool,
) -> Result<Line, StatementError>
    requires within { HasNamesWithin (length state.now.names) (found_of found.now) }
    requires short { length (target_text state.now.names (found_of found.now)) ≤ text_limit }
    ensures line { IfOk result (IsLine printed (target_text state.now.names (found_of found.now))) }
    ensures memory { IfErr result (λ e. e ≡ StatementError.Memory) }
{
    match found {
        Found::Infeasible => printed_line(state.alloc, b"infeasible", printed),
        Found::Unbounded => printed_line(state.alloc, b"unbounded", printed),
        Found::Attained(least, values) => {
            attained_line(state.alloc, &state.names, *least, values, printed)
        }
    }
}

/// The line of a least value, if it is printed.
fn attained_line(
    alloc: Global,
    names: &Names,
    least: Fraction,
    values: &[(VarId, Fraction)],
    printed: bool,
) -> Result<Line, StatementError>
    requires within { AreValuesWithin (length names.now) (values_of values.now) }
    requires short { length (target_text names.now (Attained (frac_of least) (values_of values.now))) ≤ text_limit }
    ensures line { IfOk result (IsLine printed (target_text names.now (Attained (frac_of least) (values_of values.now)))) }
    ensures memory { IfErr result (λ e. e ≡ StatementError.Memory) }
{
    if !printed {
        return Ok(Line::Nothing);
    }
    match attained_text(alloc, names, least, values) {
        Ok(text) => Ok(Line::Printed(text)),
        Err(PrintError::Text) => unreachable!(),
        Err(PrintError::Memory) => Err(StatementError::Memory),
    }
}

/// The text of a least value, with values that attain it.
fn attained_text(
    alloc: Global,
    names: &Names,
    least: Fraction,
    values: &[(VarId, Fraction)],
) -> Result<Vec<u8>, PrintError>
    requires within { AreValuesWithin (length names.now) (values_of values.now) }
    ensures text { IfOk result (λ v. v.items ≡ target_text names.now (Attained (frac_of least) (values_of values.now))) }
    ensures short { OnOk result (length (target_text names.now (Attained (frac_of least) (values_of values.now))) ≤ text_limit) }
    ensures long { IsErrOf result PrintError.Text → text_limit < length (target_text names.now (Attained (frac_of least) (values_of values.now))) }
{
    let point = point_text(alloc, values, names)?;
    let mut out = Output::new(alloc);
    out.put(b"{")?;
    put_fraction(&mut out, least)?;
    out.put(b",")?;
    out.put(&point)?;
    out.put(b"}")?;
    Ok(out.into_bytes())
}
