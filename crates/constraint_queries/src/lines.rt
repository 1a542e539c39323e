//! The lines of certificates.

ghost use Rattle.std.specs.Prelude.{◌≡◌, ◌<◌, ◌≤◌, ◌+◌, ◌++◌, [], All, IfOk, IfErr, OnOk, IsErrOf, codes, length, map};
ghost use Rattle.exact_numbers.specs.Frac.{whole_frac};
ghost use Rattle.sample_reference.specs.Seen.{values_of as seen_values};
ghost use Rattle.certificates.specs.Certificates.{certificate_of as meant_certificate, value_of, IsWithin, HasNumbersWithin};
ghost use Rattle.logic_meaning.specs.Writing.{text_limit};
ghost use Rattle.redlog_printer.specs.Within.{AreValuesWithin};
ghost use Rattle.logic_meaning.specs.AnswerTexts.{separated};
ghost use Rattle.logic_meaning.specs.PointTexts.{fraction_text, point_text as text_of_point};
ghost use Rattle.program_meaning.specs.Certificates.{certificate_text as text_of_certificate};
ghost use Rattle.program_meaning.specs.Reply.{IsLine};
ghost use Rattle.form_commands.specs.Refusals.{LineFault};
ghost use Rattle.constraint_queries.specs.Steps.{HasNamesWithin};

use certificates::Certificate;
use exact_numbers::Fraction;
use form_commands::print_refusal;
use formula_tree::Names;
use logic_meaning::VarId;
use program_meaning::{Line, StatementError};
use redlog_printer::{Output, PrintError, point_text};
use session_state::SessionState;
use std::alloc::{AllocError, Global};

/// The line of a certificate, if it is printed.
pub fn certificate_line(
    state: &SessionState,
    found: &Certificate,
    printed: bool,
) -> Result<Line, StatementError>
    requires within { HasNumbersWithin found.now }
    requires names { HasNamesWithin (length state.now.names) (meant_certificate found.now) }
    ensures line { IfOk result (IsLine printed (text_of_certificate state.now.names (meant_certificate found.now))) }
    ensures fault { IfErr result (LineFault printed (text_of_certificate state.now.names (meant_certificate found.now))) }
{
    if !printed {
        return Ok(Line::Nothing);
    }
    match certificate_text(state.alloc, &state.names, found) {
        Ok(text) => Ok(Line::Printed(text)),
        Err(error) => Err(print_refusal(error)),
    }
}

/// The text of a certificate.
fn certificate_text(
    alloc: Global,
    names: &Names,
    found: &Certificate,
) -> Result<Vec<u8>, PrintError>
    requires within { HasNumbersWithin found.now }
    requires names { HasNamesWithin (length names.now) (meant_certificate found.now) }
    ensures text { IfOk result (λ v. v.items ≡ text_of_certificate names.now (meant_certificate found.now)) }
    ensures short { OnOk result (length (text_of_certificate names.now (meant_certificate found.now)) ≤ text_limit) }
    ensures long { IsErrOf result PrintError.Text → text_limit < length (text_of_certificate names.now (meant_certificate found.now)) }
{
    let mut out = Output::new(alloc);
    match found {
        Certificate::Point(point) => put_point(alloc, &mut out, names, point)?,
        Certificate::Farkas(multipliers) => put_multipliers(&mut out, multipliers)?,
    }
    Ok(out.into_bytes())
}

/// A point, told as one that meets the constraints.
fn put_point(
    alloc: Global,
    out: &mut Output,
    names: &Names,
    point: &[(VarId, i128, i128)],
) -> Result<(), PrintError>
    requires within { All IsWithin point.now }
    requires names { AreValuesWithin (length names.now) (map value_of point.now) }
    ensures wrote { OnOk result (out.new ≡ out.old ++ (codes "{point," ++ text_of_point names.now (map value_of point.now) ++ codes "}")) }
    ensures long { IsErrOf result PrintError.Text → text_limit < length out.old + length (codes "{point," ++ text_of_point names.now (map value_of point.now) ++ codes "}") }
{
    let Ok(values) = values_of(alloc, point) else {
        return Err(PrintError::Memory);
    };
    let text = point_text(alloc, &values, names)?;
    out.put(b"{point,")?;
    out.put(&text)?;
    out.put(b"}")
}

/// The values of a point as fractions.
fn values_of(
    alloc: Global,
    point: &[(VarId, i128, i128)],
) -> Result<Vec<(VarId, Fraction)>, AllocError>
    requires { All IsWithin point.now }
    ensures { IfOk result (λ v. seen_values v.items ≡ map value_of point.now) }
{
    let mut values = Vec::new(alloc);
    for (name, numerator, denominator) in point {
        values.push((
            *name,
            Fraction {
                numerator: *numerator,
                denominator: *denominator,
            },
        ))?;
    }
    Ok(values)
}

/// Multipliers, told as ones by which no point meets the constraints.
fn put_multipliers(out: &mut Output, multipliers: &[i128]) -> Result<(), PrintError>
    ensures wrote { OnOk result (out.new ≡ out.old ++ (codes "{farkas,{" ++ separated [] (map (λ m. fraction_text (whole_frac m)) multipliers.now) ++ codes "}}")) }
    ensures long { IsErrOf result PrintError.Text → text_limit < length out.old + length (codes "{farkas,{" ++ separated [] (map (λ m. fraction_text (whole_frac m)) multipliers.now) ++ codes "}}") }
{
    out.put(b"{farkas,{")?;
    put_numbers(out, multipliers)?;
    out.put(b"}}")
}

/// A whole number, with something before it.
fn put_whole(out: &mut Output, before: &[u8], number: i128) -> Result<(), PrintError>
    ensures wrote { OnOk result (out.new ≡ out.old ++ (before.now ++ fraction_text (whole_frac number))) }
    ensures long { IsErrOf result PrintError.Text → text_limit < length out.old + length (before.now ++ fraction_text (whole_frac number)) }
{
    out.put(before)?;
    out.put(if number < 0 { b"-" } else { b"" })?;
    out.put_number(number.unsigned_abs())
}

/// Whole numbers with commas between them.
fn put_numbers(out: &mut Output, numbers: &[i128]) -> Result<(), PrintError>
    ensures wrote { OnOk result (out.new ≡ out.old ++ separated [] (map (λ m. fraction_text (whole_frac m)) numbers.now)) }
    ensures long { IsErrOf result PrintError.Text → text_limit < length out.old + length (separated [] (map (λ m. fraction_text (whole_frac m)) numbers.now)) }
{
    let mut before: &[u8] = b"";
    for number in numbers {
        put_whole(out, before, *number)?;
        before = b",";
    }
    Ok(())
}
