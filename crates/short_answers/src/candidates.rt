//! Atoms that may follow from a formula, made of those that stand in it.

ghost use Rattle.std.specs.Prelude.{◌≡◌, ◌≤◌, IfOk, OnOk, vec_len};
ghost use Rattle.exact_numbers.specs.Limit.{InLimit};
ghost use Rattle.logic_meaning.specs.Some.{EachOf};
ghost use Rattle.normal_atoms.specs.declared.atoms.Atom.TheVariants.{Congruent};
ghost use Rattle.normal_atoms.specs.declared.atoms.Context.TheVariants.{Fields, Integers};
ghost use Rattle.logic_meaning.specs.Context as meaning;
ghost use Rattle.normal_atoms.specs.Atoms.{context_of, atom_of, tree_of, IsWellFormed, IsWellFormedNormal};
ghost use Rattle.linear_forms.specs.FromFormulaLaws.{AtomIn, InContext};
ghost use Rattle.virtual_subst.specs.Shared.{IsAtPlace};
ghost use Rattle.short_answers.specs.Candidates.{AreCandidates, IsCandidate, IsModulus};

use exact_numbers::gcd;
use linear_forms::{LinError, Linear};
use normal_atoms::{Atom, AtomError, Context, Normal, Rel, normal};
use std::alloc::{AllocError, Global};
use test_points::{PointError, TestPoint, substitute_field, substitute_integer};

/// How many candidates there are at most.
const MOST_CANDIDATES: usize = 300;

/// Up to which modulus its divisors are tried.
const MOST_DIVIDED: u8 = 64;

/// Candidates, each once, of a theory.
#[derive(Drop)]
pub(crate) struct Candidates {
    pub alloc: Global,
    pub context: Context,
    pub atoms: Vec<Atom>,
}

impl Candidates {
    /// Those that the atoms give: of a comparison the sides of its form, of a congruence those by the divisors of its modulus, and the
    /// opposite of each. Its only error is want of memory.
    pub(crate) fn of(
        alloc: Global,
        context: Context,
        atoms: &[Atom],
    ) -> Result<Candidates, AllocError>
        requires { EachOf IsWellFormed atoms.now }
        ensures context { IfOk result (λ k. k.context ≡ context) }
        ensures candidates { IfOk result (λ k. AreCandidates context k.atoms.items) }
    {
        let mut candidates = Candidates {
            alloc,
            context,
            atoms: Vec::new(alloc),
        };
        for atom in atoms {
            candidates.add_all(atom)?;
        }
        Ok(candidates)
    }

    // Adds those that an atom gives.
    fn add_all(&mut self, atom: &Atom) -> Result<(), AllocError>
        requires well_formed { IsWellFormed atom.now }
        requires candidates { AreCandidates self.old.context self.old.atoms.items }
        ensures context { OnOk result (self.new.context ≡ self.old.context) }
        ensures candidates { OnOk result (AreCandidates self.new.context self.new.atoms.items) }
    {
        match (self.context, atom) {
            (_, Atom::Compare(relation, form)) => self.add_sides(*relation, form),
            (Context::Integers, Atom::Congruent { modulus, form, .. }) => {
                self.add_divisors(*modulus, form)
            }
            (Context::Fields, Atom::Congruent { .. }) => Ok(()),
        }
    }

    // Adds the sides of a form.
    fn add_sides(&mut self, relation: Rel, form: &Linear) -> Result<(), AllocError>
        requires candidates { AreCandidates self.old.context self.old.atoms.items }
        ensures context { OnOk result (self.new.context ≡ self.old.context) }
        ensures candidates { OnOk result (AreCandidates self.new.context self.new.atoms.items) }
    {
        for relation in relations(self.context, relation) {
            let form = form.copy(self.alloc)?;
            self.add(Atom::Compare(*relation, form))?;
        }
        Ok(())
    }

    /// Adds of each two congruences of the atoms the congruence of their sum, and that of their difference, by the greatest common divisor
    /// of their moduli.
    pub(crate) fn add_sums(&mut self, atoms: &[Atom]) -> Result<(), AllocError>
        requires well_formed { EachOf IsWellFormed atoms.now }
        requires candidates { AreCandidates self.old.context self.old.atoms.items }
        ensures context { OnOk result (self.new.context ≡ self.old.context) }
        ensures candidates { OnOk result (AreCandidates self.new.context self.new.atoms.items) }
    {
        for atom in atoms {
            if let (
                Context::Integers,
                Atom::Congruent {
                    holds: true,
                    modulus,
                    form,
                },
            ) = (self.context, atom)
            {
                self.add_sums_with(*modulus, form, atoms)?;
            }
        }
        Ok(())
    }

    // Adds of the congruence of a form by a modulus and each of the atoms the congruences of the sum and of the difference.
    fn add_sums_with(
        &mut self,
        modulus: i128,
        form: &Linear,
        atoms: &[Atom],
    ) -> Result<(), AllocError>
        requires integers { self.old.context ≡ Integers }
        requires modulus { IsModulus modulus }
        requires well_formed { EachOf IsWellFormed atoms.now }
        requires candidates { AreCandidates self.old.context self.old.atoms.items }
        ensures context { OnOk result (self.new.context ≡ self.old.context) }
        ensures candidates { OnOk result (AreCandidates self.new.context self.new.atoms.items) }
    {
        for atom in atoms {
            if let Atom::Congruent {
                holds: true,
                modulus: other_modulus,
                form: other,
            } = atom
            {
                let shared = gcd(modulus, *other_modulus);
                self.add_sum(shared, form, 1, other)?;
                self.add_sum(shared, form, -1, other)?;
            }
        }
        Ok(())
    }

    // Adds the congruence of a form and so many times another by a modulus, unless that is 1 or a number passes the limit.
    fn add_sum(
        &mut self,
        modulus: i128,
        form: &Linear,
        times: i128,
        other: &Linear,
    ) -> Result<(), AllocError>
        requires integers { self.old.context ≡ Integers }
        requires within { InLimit modulus }
        requires candidates { AreCandidates self.old.context self.old.atoms.items }
        ensures context { OnOk result (self.new.context ≡ self.old.context) }
        ensures candidates { OnOk result (AreCandidates self.new.context self.new.atoms.items) }
    {
        if modulus < 2 {
            return Ok(());
        }
        match form.combine(self.alloc, 1, other, times) {
            Ok(sum) => self.add_congruences(modulus, &sum),
            Err(LinError::Overflow) => Ok(()),
            Err(LinError::Memory) => Err(AllocError),
        }
    }

    // Adds the congruences of a form by the divisors of a modulus.
    fn add_divisors(&mut self, modulus: i128, form: &Linear) -> Result<(), AllocError>
        requires integers { self.old.context ≡ Integers }
        requires modulus { IsModulus modulus }
        requires candidates { AreCandidates self.old.context self.old.atoms.items }
        ensures context { OnOk result (self.new.context ≡ self.old.context) }
        ensures candidates { OnOk result (AreCandidates self.new.context self.new.atoms.items) }
    {
        self.add_congruences(modulus, form)?;
        if i128::from(MOST_DIVIDED) < modulus {
            return Ok(());
        }
        for quotient in 2..MOST_DIVIDED {
            let quotient = i128::from(quotient);
            if quotient < modulus && modulus % quotient == 0 {
                self.add_congruences(modulus / quotient, form)?;
            }
        }
        Ok(())
    }

    // Adds the congruence of a form by a modulus, and its opposite.
    fn add_congruences(&mut self, modulus: i128, form: &Linear) -> Result<(), AllocError>
        requires integers { self.old.context ≡ Integers }
        requires modulus { IsModulus modulus }
        requires candidates { AreCandidates self.old.context self.old.atoms.items }
        ensures context { OnOk result (self.new.context ≡ self.old.context) }
        ensures candidates { OnOk result (AreCandidates self.new.context self.new.atoms.items) }
    {
        self.add(congruence(true, modulus, form.copy(self.alloc)?))?;
        self.add(congruence(false, modulus, form.copy(self.alloc)?))
    }

    // Adds the atom in normal form, unless it is there, or a constant, or there are enough.
    fn add(&mut self, atom: Atom) -> Result<(), AllocError>
        requires well_formed { IsWellFormed atom }
        requires in_context { AtomIn (context_of self.old.context) (atom_of atom) }
        requires candidates { AreCandidates self.old.context self.old.atoms.items }
        ensures context { OnOk result (self.new.context ≡ self.old.context) }
        ensures candidates { OnOk result (AreCandidates self.new.context self.new.atoms.items) }
    {
        if self.atoms.len() >= MOST_CANDIDATES {
            return Ok(());
        }
        match normal(self.alloc, self.context, atom) {
            Ok(Normal::One(atom)) if !self.atoms.contains(&atom) => {
                self.atoms.push(atom)?;
                Ok(())
            }
            Err(AtomError::Memory) => Err(AllocError),
            _ => Ok(()),
        }
    }

    /// Leaves those that are seen to be true where the names are put at the points, the last one first. Its only error is want of
    /// memory.
    pub(crate) fn keep_true(&mut self, points: &[TestPoint]) -> Result<(), AllocError>
        requires candidates { AreCandidates self.old.context self.old.atoms.items }
        requires points { EachOf (IsAtPlace self.old.context) points.now }
        ensures context { OnOk result (self.new.context ≡ self.old.context) }
        ensures candidates { OnOk result (AreCandidates self.new.context self.new.atoms.items) }
        ensures few { OnOk result (vec_len self.new.atoms ≤ vec_len self.old.atoms) }
    {
        let mut kept = Vec::new(self.alloc);
        while let Some(atom) = self.atoms.pop() {
            if is_true(self.alloc, self.context, &atom, points)? {
                kept.push(atom)?;
            }
        }
        kept.reverse();
        self.atoms = kept;
        Ok(())
    }
}

// The sides of a form that are tried where it is compared so.
fn relations(context: Context, relation: Rel) -> &'static [Rel] {
    match (context, relation) {
        (_, Rel::Equal | Rel::Differs) => &[
            Rel::Differs,
            Rel::AtMost,
            Rel::AtLeast,
            Rel::Less,
            Rel::Greater,
            Rel::Equal,
        ],
        (Context::Fields, _) => &[Rel::AtMost, Rel::AtLeast, Rel::Less, Rel::Greater],
        (Context::Integers, Rel::Less | Rel::AtLeast) => &[Rel::Less, Rel::AtLeast],
        (Context::Integers, Rel::AtMost | Rel::Greater) => &[Rel::AtMost, Rel::Greater],
    }
}

// The congruence of a form.
fn congruence(holds: bool, modulus: i128, form: Linear) -> Atom
    ensures { result ≡ Congruent holds modulus form }
{
    Atom::Congruent {
        holds,
        modulus,
        form,
    }
}

// Whether the atom is seen to be true where the names are put at the points, the last one first.
fn is_true(
    alloc: Global,
    context: Context,
    atom: &Atom,
    points: &[TestPoint],
) -> Result<bool, AllocError>
    requires atom { IsCandidate context atom.now }
    requires points { EachOf (IsAtPlace context) points.now }
{
    let mut left = atom.copy(alloc).map_err(|_| AllocError)?;
    let mut place = points.len();
    while place > 0 {
        place -= 1;
        match put(alloc, context, &left, &points[place])? {
            Normal::One(atom) => left = atom,
            Normal::True => return Ok(true),
            Normal::False => return Ok(false),
        }
    }
    Ok(false)
}

// The atom with a name put at the point; `false` where a number passes the limit.
fn put(
    alloc: Global,
    context: Context,
    atom: &Atom,
    point: &TestPoint,
) -> Result<Normal, AllocError>
    requires well_formed { IsWellFormed atom.now }
    requires in_context { AtomIn (context_of context) (atom_of atom.now) }
    requires point { IsAtPlace context point.now }
    ensures well_formed { IfOk result IsWellFormedNormal }
    ensures in_context { IfOk result (λ n. InContext (context_of context) (tree_of n)) }
{
    match context {
        Context::Fields => put_in_fields(alloc, atom, point),
        Context::Integers => put_in_integers(alloc, atom, point),
    }
}

// The same over the ordered fields.
fn put_in_fields(alloc: Global, atom: &Atom, point: &TestPoint) -> Result<Normal, AllocError>
    requires well_formed { IsWellFormed atom.now }
    requires in_context { AtomIn meaning.Fields (atom_of atom.now) }
    requires point { IsAtPlace Fields point.now }
    ensures well_formed { IfOk result IsWellFormedNormal }
    ensures in_context { IfOk result (λ n. InContext meaning.Fields (tree_of n)) }
{
    match substitute_field(alloc, atom, point) {
        Ok(normal) => Ok(normal),
        Err(PointError::Memory) => Err(AllocError),
        Err(_) => Ok(Normal::False),
    }
}

// The same over the integers.
fn put_in_integers(alloc: Global, atom: &Atom, point: &TestPoint) -> Result<Normal, AllocError>
    requires well_formed { IsWellFormed atom.now }
    requires in_context { AtomIn meaning.Integers (atom_of atom.now) }
    requires point { IsAtPlace Integers point.now }
    ensures well_formed { IfOk result IsWellFormedNormal }
    ensures in_context { IfOk result (λ n. InContext meaning.Integers (tree_of n)) }
{
    match substitute_integer(alloc, atom, point) {
        Ok(normal) => Ok(normal),
        Err(PointError::Memory) => Err(AllocError),
        Err(_) => Ok(Normal::False),
    }
}
