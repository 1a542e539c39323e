//! The extent of the text of an atom.

ghost use Rattle.std.specs.Prelude.{◌≡◌, [], OnOk, unsigned_abs, length, drop};
ghost use Rattle.std.specs.Fmt.{decimal};
ghost use Rattle.std.specs.List.{flat_map};
ghost use Rattle.normal_atoms.specs.Atoms.{atom_of, relation_of};
ghost use Rattle.logic_meaning.specs.Text.{first_sign, later_constant, later_multiple, relation_text, congruence_text};
ghost use Rattle.text_extents.specs.Extents.{AddsAtom, AddsMultiple, AddsSum, AddsTerms};

use crate::error::ExtentError;
use crate::extent::Extent;
use itoa::Buffer;
use linear_forms::Linear;
use logic_meaning::VarId;
use normal_atoms::{Atom, Rel};

// What stands before each later part of a sum, ` + ` or ` - `.
const LATER_SIGN: u64 = 3;

// What stands before the modulus of a congruence and behind it, `,0,` and `)`.
const AROUND_MODULUS: u64 = 4;

impl Extent {
    /// Adds the text of an atom.
    pub(crate) fn atom(&mut self, atom: &Atom) -> Result<(), ExtentError>
        ensures { OnOk result (AddsAtom self.old self.new (atom_of atom.now)) }
    {
        match atom {
            Atom::Compare(relation, form) => {
                self.sum(form)?;
                self.add(relation_bytes(*relation))
            }
            Atom::Congruent {
                holds,
                modulus,
                form,
            } => {
                self.add(congruence_bytes(*holds))?;
                self.sum(form)?;
                self.add(AROUND_MODULUS)?;
                self.add(digits(*modulus))
            }
        }
    }

    // Adds the text of a linear form.
    fn sum(&mut self, form: &Linear) -> Result<(), ExtentError>
        ensures { OnOk result (AddsSum self.old self.new form.now) }
    {
        let constant = form.constant_part();
        match form.term(0) {
            None => {
                self.add(first_sign(constant))?;
                self.add(digits(constant))
            }
            Some((name, times)) => {
                self.add(first_sign(times))?;
                self.multiple(name, times)?;
                self.later_multiples(form)?;
                self.later_constant(constant)
            }
        }
    }

    // Adds the multiple of a name without its sign; a factor 1 is not written.
    fn multiple(&mut self, name: VarId, times: i128) -> Result<(), ExtentError>
        ensures { OnOk result (AddsMultiple self.old self.new times name) }
    {
        if times.unsigned_abs() != 1 {
            self.add(digits(times))?;
            self.add(1)?;
        }
        self.name(name)
    }

    // Adds the multiples behind the first.
    fn later_multiples(&mut self, form: &Linear) -> Result<(), ExtentError>
        ensures { OnOk result (AddsTerms self.old self.new (flat_map (later_multiple []) (drop 1 form.now.terms)) (drop 1 form.now.terms)) }
    {
        for place in 1..form.places() {
            let Some((name, times)) = form.term(place) else {
                unreachable!()
            };
            self.add(LATER_SIGN)?;
            self.multiple(name, times)?;
        }
        Ok(())
    }

    // Adds the constant behind some multiples; 0 is not written.
    fn later_constant(&mut self, constant: i128) -> Result<(), ExtentError>
        ensures { OnOk result (AddsTerms self.old self.new (later_constant constant) []) }
    {
        if constant == 0 {
            return Ok(());
        }
        self.add(LATER_SIGN)?;
        self.add(digits(constant))
    }
}

// The bytes of the sign before the first part of a sum.
fn first_sign(number: i128) -> u64
    ensures { result ≡ length (first_sign number) }
{
    if number < 0 { 1 } else { 0 }
}

// How many digits the number has.
fn digits(number: i128) -> u64
    ensures { result ≡ length (decimal (unsigned_abs number)) }
{
    Buffer::new().format(number.unsigned_abs()).len() as u64
}

// The bytes of what is written behind a form that is compared with 0.
fn relation_bytes(relation: Rel) -> u64
    ensures { result ≡ length (relation_text (relation_of relation)) }
{
    match relation {
        Rel::Equal | Rel::Less | Rel::Greater => 4,
        Rel::Differs | Rel::AtMost | Rel::AtLeast => 5,
    }
}

// The bytes of what a congruence begins with.
fn congruence_bytes(holds: bool) -> u64
    ensures { result ≡ length (congruence_text holds) }
{
    if holds { 5 } else { 6 }
}
