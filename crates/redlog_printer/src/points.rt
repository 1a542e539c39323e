// The text of a point.
ghost use Rattle.std.specs.Prelude.{◌≡◌, ◌<◌, ◌≤◌, ◌+◌, ◌++◌, [], map, IfOk, OnOk, IsErrOf, length};
ghost use Rattle.exact_numbers.specs.Fraction.{frac_of};
ghost use Rattle.logic_meaning.specs.Writing.{text_limit};
ghost use Rattle.sample_reference.specs.Seen.{value_of, values_of};
ghost use Rattle.logic_meaning.specs.AnswerTexts.{separated};
ghost use Rattle.logic_meaning.specs.PointTexts.{fraction_text, value_text, point_text};
ghost use Rattle.redlog_printer.specs.Within.{AreValuesWithin};

use crate::error::PrintError;
use crate::output::Output;
use exact_numbers::Fraction;
use formula_tree::Names;
use logic_meaning::VarId;
use std::alloc::Global;

/// Writes a fraction; a denominator 1 is not written. `Text` comes exactly where the text passes 32 MiB, else `Memory`.
pub fn put_fraction(out: &mut Output, value: Fraction) -> Result<(), PrintError>
    ensures wrote { OnOk result (out.new ≡ out.old ++ fraction_text (frac_of value)) }
    ensures long { IsErrOf result PrintError.Text → text_limit < length out.old + length (fraction_text (frac_of value)) }
    ensures few { length out.new ≤ text_limit }
{
    out.put(if value.numerator < 0 { b"-" } else { b"" })?;
    out.put_number(value.numerator.unsigned_abs())?;
    if value.denominator == 1 {
        return Ok(());
    }
    out.put(b"/")?;
    out.put_number(value.denominator.unsigned_abs())
}

// A name and its value, with something before them.
fn put_value(
    out: &mut Output,
    names: &Names,
    before: &[u8],
    name: VarId,
    value: Fraction,
) -> Result<(), PrintError>
    requires { name.number < length names.now }
    ensures wrote { OnOk result (out.new ≡ out.old ++ (before.now ++ value_text names.now (value_of (name, value)))) }
    ensures long { IsErrOf result PrintError.Text → text_limit < length out.old + length (before.now ++ value_text names.now (value_of (name, value))) }
{
    out.put(before)?;
    out.put_name(names, name)?;
    out.put(b" = ")?;
    put_fraction(out, value)
}

// The names and their values with commas between them.
fn put_values(
    out: &mut Output,
    names: &Names,
    values: &[(VarId, Fraction)],
) -> Result<(), PrintError>
    requires { AreValuesWithin (length names.now) (values_of values.now) }
    ensures wrote { OnOk result (out.new ≡ out.old ++ separated [] (map (value_text names.now) (values_of values.now))) }
    ensures long { IsErrOf result PrintError.Text → text_limit < length out.old + length (separated [] (map (value_text names.now) (values_of values.now))) }
{
    let mut before: &[u8] = b"";
    for value in values {
        put_value(out, names, before, value.0, value.1)?;
        before = b",";
    }
    Ok(())
}

// The same in braces.
fn put_point(
    out: &mut Output,
    names: &Names,
    values: &[(VarId, Fraction)],
) -> Result<(), PrintError>
    requires { AreValuesWithin (length names.now) (values_of values.now) }
    ensures wrote { OnOk result (out.new ≡ out.old ++ point_text names.now (values_of values.now)) }
    ensures long { IsErrOf result PrintError.Text → text_limit < length out.old + length (point_text names.now (values_of values.now)) }
{
    out.put(b"{")?;
    put_values(out, names, values)?;
    out.put(b"}")
}

/// The text of a point, where the names of the list are numbered by their places: each name and its value, a denominator 1 not
/// written. `Text` comes exactly where the text is longer than 32 MiB, else `Memory`.
pub fn point_text(
    alloc: Global,
    values: &[(VarId, Fraction)],
    names: &Names,
) -> Result<Vec<u8>, PrintError>
    requires { AreValuesWithin (length names.now) (values_of values.now) }
    ensures text { IfOk result (λ v. v.items ≡ point_text names.now (values_of values.now)) }
    ensures short { OnOk result (length (point_text names.now (values_of values.now)) ≤ text_limit) }
    ensures long { IsErrOf result PrintError.Text → text_limit < length (point_text names.now (values_of values.now)) }
{
    let mut out = Output::new(alloc);
    put_point(&mut out, names, values)?;
    Ok(out.into_bytes())
}
