//! The text of linear forms and atoms.

ghost use Rattle.std.specs.Prelude.{◌≡◌, ◌<◌, ◌≤◌, ◌+◌, ◌++◌, OnOk, IsErrOf, length, drop};
ghost use Rattle.std.specs.List.{flat_map};
ghost use Rattle.normal_atoms.specs.Atoms.{atom_of, relation_of};
ghost use Rattle.logic_meaning.specs.Text.{first_sign, later_sign, multiple_text, later_multiple, later_constant, form_text, relation_text, congruence_text, atom_text};
ghost use Rattle.formula_laws.specs.Within.{AreTermsWithin, IsAtomWithin};
ghost use Rattle.logic_meaning.specs.Writing.{text_limit};

use crate::error::PrintError;
use crate::output::Output;
use formula_tree::Names;
use linear_forms::Linear;
use logic_meaning::VarId;
use normal_atoms::{Atom, Rel};

// The sign before the first part of a sum.
fn first_sign(number: i128) -> &'static [u8]
    ensures { result.now ≡ first_sign number }
{
    if number < 0 { b"-" } else { b"" }
}

// The sign before each later part.
fn later_sign(number: i128) -> &'static [u8]
    ensures { result.now ≡ later_sign number }
{
    if number < 0 { b" - " } else { b" + " }
}

// The multiple of a name without its sign; a factor 1 is not written.
fn put_multiple(out: &mut Output, names: &Names, name: VarId, times: i128) -> Result<(), PrintError>
    requires { name.number < length names.now }
    ensures wrote { OnOk result (out.new ≡ out.old ++ multiple_text names.now (record { times = times; name = name.number })) }
    ensures long { IsErrOf result PrintError.Text → text_limit < length out.old + length (multiple_text names.now (record { times = times; name = name.number })) }
    ensures few { length out.new ≤ text_limit }
{
    let factor = times.unsigned_abs();
    if factor != 1 {
        out.put_number(factor)?;
        out.put(b"*")?;
    }
    out.put_name(names, name)
}

// A multiple behind the first, with its sign.
fn put_later_multiple(
    out: &mut Output,
    names: &Names,
    name: VarId,
    times: i128,
) -> Result<(), PrintError>
    requires { name.number < length names.now }
    ensures wrote { OnOk result (out.new ≡ out.old ++ later_multiple names.now (record { times = times; name = name.number })) }
    ensures long { IsErrOf result PrintError.Text → text_limit < length out.old + length (later_multiple names.now (record { times = times; name = name.number })) }
    ensures few { length out.new ≤ text_limit }
{
    out.put(later_sign(times))?;
    put_multiple(out, names, name, times)
}

// The multiples behind the first.
fn put_later_multiples(out: &mut Output, names: &Names, form: &Linear) -> Result<(), PrintError>
    requires { AreTermsWithin (length names.now) form.now.terms }
    ensures wrote { OnOk result (out.new ≡ out.old ++ flat_map (later_multiple names.now) (drop 1 form.now.terms)) }
    ensures long { IsErrOf result PrintError.Text → text_limit < length out.old + length (flat_map (later_multiple names.now) (drop 1 form.now.terms)) }
{
    let mut place = 1;
    while let Some((name, times)) = form.term(place) {
        put_later_multiple(out, names, name, times)?;
        place += 1;
    }
    Ok(())
}

// The constant behind some multiples; 0 is not written.
fn put_later_constant(out: &mut Output, number: i128) -> Result<(), PrintError>
    ensures wrote { OnOk result (out.new ≡ out.old ++ later_constant number) }
    ensures long { IsErrOf result PrintError.Text → text_limit < length out.old + length (later_constant number) }
{
    if number == 0 {
        return Ok(());
    }
    out.put(later_sign(number))?;
    out.put_number(number.unsigned_abs())
}

/// The multiples in the order of the list, and then the constant.
pub fn put_form(out: &mut Output, names: &Names, form: &Linear) -> Result<(), PrintError>
    requires { AreTermsWithin (length names.now) form.now.terms }
    ensures wrote { OnOk result (out.new ≡ out.old ++ form_text names.now form.now) }
    ensures long { IsErrOf result PrintError.Text → text_limit < length out.old + length (form_text names.now form.now) }
{
    let number = form.constant_part();
    match form.term(0) {
        None => {
            out.put(first_sign(number))?;
            out.put_number(number.unsigned_abs())
        }
        Some((name, times)) => {
            out.put(first_sign(times))?;
            put_multiple(out, names, name, times)?;
            put_later_multiples(out, names, form)?;
            put_later_constant(out, number)
        }
    }
}

// How a form compares with 0.
fn relation_text(relation: Rel) -> &'static [u8]
    ensures { result.now ≡ relation_text (relation_of relation) }
{
    match relation {
        Rel::Equal => b" = 0",
        Rel::Differs => b" <> 0",
        Rel::Less => b" < 0",
        Rel::AtMost => b" <= 0",
        Rel::Greater => b" > 0",
        Rel::AtLeast => b" >= 0",
    }
}

/// The text of an atom.
pub fn put_atom(out: &mut Output, names: &Names, atom: &Atom) -> Result<(), PrintError>
    requires { IsAtomWithin (length names.now) (atom_of atom.now) }
    ensures wrote { OnOk result (out.new ≡ out.old ++ atom_text names.now (atom_of atom.now)) }
    ensures long { IsErrOf result PrintError.Text → text_limit < length out.old + length (atom_text names.now (atom_of atom.now)) }
{
    match atom {
        Atom::Compare(relation, form) => {
            put_form(out, names, form)?;
            out.put(relation_text(*relation))
        }
        Atom::Congruent {
            holds,
            modulus,
            form,
        } => {
            out.put(if *holds { b"cong(" } else { b"ncong(" })?;
            put_form(out, names, form)?;
            out.put(b",0,")?;
            out.put_number(modulus.unsigned_abs())?;
            out.put(b")")
        }
    }
}
