// The text of a case list.
ghost use Rattle.std.specs.Prelude.{◌≡◌, ◌<◌, ◌≤◌, ◌+◌, ◌++◌, [], map, IfOk, OnOk, IsErrOf, length};
ghost use Rattle.logic_meaning.specs.Writing.{text_limit};
ghost use Rattle.reference_engine.specs.Case.{case_seen};
ghost use Rattle.logic_meaning.specs.AnswerTexts.{separated, case_text, cases_text};
ghost use Rattle.redlog_printer.specs.Within.{IsCaseWithin, AreCasesWithin};

use crate::answers::put_answers;
use crate::error::PrintError;
use crate::formulas::put_tree;
use crate::output::Output;
use formula_tree::Names;
use reference_engine::PrintedCase;
use std::alloc::Global;

// A case with something before it.
fn put_case(
    out: &mut Output,
    names: &Names,
    before: &[u8],
    case: &PrintedCase,
) -> Result<(), PrintError>
    requires { IsCaseWithin (length names.now) (case_seen case.now) }
    ensures wrote { OnOk result (out.new ≡ out.old ++ (before.now ++ case_text names.now (case_seen case.now))) }
    ensures long { IsErrOf result PrintError.Text → text_limit < length out.old + length (before.now ++ case_text names.now (case_seen case.now)) }
{
    out.put(before)?;
    out.put(b"{")?;
    put_tree(out, names, &case.guard)?;
    out.put(b",{")?;
    put_answers(out, names, &case.answers)?;
    out.put(b"}}")
}

// The cases with commas between them.
fn put_cases(out: &mut Output, names: &Names, cases: &[PrintedCase]) -> Result<(), PrintError>
    requires { AreCasesWithin (length names.now) (map case_seen cases.now) }
    ensures wrote { OnOk result (out.new ≡ out.old ++ separated [] (map (case_text names.now) (map case_seen cases.now))) }
    ensures long { IsErrOf result PrintError.Text → text_limit < length out.old + length (separated [] (map (case_text names.now) (map case_seen cases.now))) }
{
    let mut before: &[u8] = b"";
    for case in cases {
        put_case(out, names, before, case)?;
        before = b",";
    }
    Ok(())
}

// The cases in braces.
fn put_list(out: &mut Output, names: &Names, cases: &[PrintedCase]) -> Result<(), PrintError>
    requires { AreCasesWithin (length names.now) (map case_seen cases.now) }
    ensures wrote { OnOk result (out.new ≡ out.old ++ cases_text names.now (map case_seen cases.now)) }
    ensures long { IsErrOf result PrintError.Text → text_limit < length out.old + length (cases_text names.now (map case_seen cases.now)) }
{
    out.put(b"{")?;
    put_cases(out, names, cases)?;
    out.put(b"}")
}

/// The text of a case list, where the names of the list are numbered by their places: each case is its guard and the places of its
/// names, in the order in which they are evaluated. `Text` comes exactly where the text is longer than 32 MiB, else `Memory`.
pub fn cases_text(
    alloc: Global,
    cases: &[PrintedCase],
    names: &Names,
) -> Result<Vec<u8>, PrintError>
    requires { AreCasesWithin (length names.now) (map case_seen cases.now) }
    ensures text { IfOk result (λ v. v.items ≡ cases_text names.now (map case_seen cases.now)) }
    ensures short { OnOk result (length (cases_text names.now (map case_seen cases.now)) ≤ text_limit) }
    ensures long { IsErrOf result PrintError.Text → text_limit < length (cases_text names.now (map case_seen cases.now)) }
{
    let mut out = Output::new(alloc);
    put_list(&mut out, names, cases)?;
    Ok(out.into_bytes())
}
