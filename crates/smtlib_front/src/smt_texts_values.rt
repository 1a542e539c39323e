// The line of the values of symbols.
ghost use Rattle.std.specs.Prelude.{◌≡◌, ◌<◌, ◌≤◌, ◌+◌, ◌++◌, map, IfOk, OnOk, IsErrOf, length};
ghost use Rattle.exact_numbers.specs.Fraction.{frac_of};
ghost use Rattle.logic_meaning.specs.Writing.{text_limit};
ghost use Rattle.program_meaning.specs.Texts.{quotient_text, value_text, pair_text, value_among, spaced, values_text};
ghost use Rattle.smtlib_front.specs.Pairs.{IsDeclared, AreDeclared, pair_texts};

use crate::symbols::put_symbol;
use exact_numbers::Fraction;
use formula_tree::Names;
use logic_meaning::Name;
use redlog_printer::{Output, PrintError};
use std::alloc::Global;

// A numeral, or the quotient of two.
fn put_quotient(out: &mut Output, numerator: u128, denominator: u128) -> Result<(), PrintError>
    ensures wrote { OnOk result (out.new ≡ out.old ++ quotient_text numerator denominator) }
    ensures long { IsErrOf result PrintError.Text → text_limit < length out.old + length (quotient_text numerator denominator) }
{
    if denominator == 1 {
        return out.put_number(numerator);
    }
    out.put(b"(/ ")?;
    out.put_number(numerator)?;
    out.put(b" ")?;
    out.put_number(denominator)?;
    out.put(b")")
}

// A value, under a minus where it is negative.
fn put_value(out: &mut Output, value: Fraction) -> Result<(), PrintError>
    ensures wrote { OnOk result (out.new ≡ out.old ++ value_text (frac_of value)) }
    ensures long { IsErrOf result PrintError.Text → text_limit < length out.old + length (value_text (frac_of value)) }
{
    let numerator = value.numerator.unsigned_abs();
    let denominator = value.denominator.unsigned_abs();
    if value.numerator >= 0 {
        return put_quotient(out, numerator, denominator);
    }
    out.put(b"(- ")?;
    put_quotient(out, numerator, denominator)?;
    out.put(b")")
}

// A symbol and its value, with something before them.
fn put_pair(
    out: &mut Output,
    before: &[u8],
    symbol: &Name,
    value: Fraction,
) -> Result<(), PrintError>
    ensures wrote { OnOk result (out.new ≡ out.old ++ (before.now ++ pair_text symbol.now (frac_of value))) }
    ensures long { IsErrOf result PrintError.Text → text_limit < length out.old + length (before.now ++ pair_text symbol.now (frac_of value)) }
{
    out.put(before)?;
    out.put(b"(")?;
    put_symbol(out, symbol)?;
    out.put(b" ")?;
    put_value(out, value)?;
    out.put(b")")
}

// The value of a declared name.
fn value_of(declared: &Names, values: &[Fraction], symbol: &Name) -> Fraction
    requires count { length values.now ≡ length declared.now }
    requires declared { IsDeclared declared.now symbol.now }
    ensures { frac_of result ≡ value_among declared.now (map frac_of values.now) symbol.now }
{
    values[declared.place(symbol).number]
}

// The symbols with their values and spaces between them.
fn put_pairs(
    out: &mut Output,
    declared: &Names,
    values: &[Fraction],
    asked: &[Name],
) -> Result<(), PrintError>
    requires count { length values.now ≡ length declared.now }
    requires declared { AreDeclared declared.now asked.now }
    ensures wrote { OnOk result (out.new ≡ out.old ++ spaced (pair_texts declared.now (map frac_of values.now) asked.now)) }
    ensures long { IsErrOf result PrintError.Text → text_limit < length out.old + length (spaced (pair_texts declared.now (map frac_of values.now) asked.now)) }
{
    let mut before: &[u8] = b"";
    for symbol in asked {
        let value = value_of(declared, values, symbol);
        put_pair(out, before, symbol, value)?;
        before = b" ";
    }
    Ok(())
}

// The same in parentheses.
fn put_list(
    out: &mut Output,
    declared: &Names,
    values: &[Fraction],
    asked: &[Name],
) -> Result<(), PrintError>
    requires count { length values.now ≡ length declared.now }
    requires declared { AreDeclared declared.now asked.now }
    ensures wrote { OnOk result (out.new ≡ out.old ++ values_text declared.now (map frac_of values.now) asked.now) }
    ensures long { IsErrOf result PrintError.Text → text_limit < length out.old + length (values_text declared.now (map frac_of values.now) asked.now) }
{
    out.put(b"(")?;
    put_pairs(out, declared, values, asked)?;
    out.put(b")")
}

/// The line of a `get-value` of these symbols, where the declared names have these values, in their order. `Text` comes exactly where
/// the line is longer than 32 MiB, else `Memory`.
pub fn values_text(
    alloc: Global,
    declared: &Names,
    values: &[Fraction],
    asked: &[Name],
) -> Result<Vec<u8>, PrintError>
    requires count { length values.now ≡ length declared.now }
    requires declared { AreDeclared declared.now asked.now }
    ensures text { IfOk result (λ v. v.items ≡ values_text declared.now (map frac_of values.now) asked.now) }
    ensures short { OnOk result (length (values_text declared.now (map frac_of values.now) asked.now) ≤ text_limit) }
    ensures long { IsErrOf result PrintError.Text → text_limit < length (values_text declared.now (map frac_of values.now) asked.now) }
{
    let mut out = Output::new(alloc);
    put_list(&mut out, declared, values, asked)?;
    Ok(out.into_bytes())
}
