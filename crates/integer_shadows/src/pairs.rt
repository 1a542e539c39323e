//! Bounds on both sides of a name, pair by pair.

ghost use Rattle.std.specs.Prelude.{◌≡◌, ◌≤◌, [], ◌∷◌, ◌++◌, IfOk, IfSome, IsTrue, MatchOption, map};
ghost use Rattle.std.specs.List.{AllByRecursion};
ghost use Rattle.exact_numbers.specs.Limit.{InLimit};
ghost use Rattle.logic_meaning.specs.Context.{Integers};
ghost use Rattle.normal_atoms.specs.Atoms.{atom_of, IsWellFormed};
ghost use Rattle.atom_pruning.specs.Rows.{AreRows};
ghost use Rattle.atom_pruning.specs.Kept.{Imply};
ghost use Rattle.integer_shadows.specs.Told.{IsWellMade};
ghost use Rattle.integer_shadows.specs.Pairs.{need_for, IsPair, IsMoreByPair, IsMoreByBound, IsMoreByBounds, IsSettled};

use crate::forms::{combination, negative, raised};
use crate::telling::with;
use atom_pruning::{AtomRows, are_implied};
use exact_numbers::{product, sum};
use linear_forms::Linear;
use logic_meaning::VarId;
use normal_atoms::{Atom, Context, Rel};
use shadow_theory::Shadow;
use std::alloc::{AllocError, Global};

// What a lower and an upper bound say together: that their gap is at least 0. Where what it is above its need is at least 0 too, a number
// of each class stands between them; none where the need is 0.
#[derive(Drop)]
pub(crate) struct Pair {
    pub(crate) gap: Linear,
    pub(crate) surplus: Option<Linear>,
}

// A shadow with the gaps of pairs, and atoms that say that these are as large as they need to be.
#[derive(Drop)]
pub(crate) struct Paired {
    pub(crate) shadow: Shadow,
    pub(crate) needs: Vec<Atom>,
}

// The gap by which a number of each class modulo the step stands between bounds with such coefficients; nothing where a number passes
// 2^127 - 1. Where b * k + l is the least one from 0 on in the class, it is below b * step; and with -a * k + u below 0 the gap
// a * (b * k + l) + b * (-a * k + u) is at most a * (b * step - 1) - b.
fn need(lower: i128, upper: i128, step: i128) -> Option<i128>
    requires lower { InLimit lower }
    requires upper { InLimit upper }
    ensures { IfSome result (λ n. (n ≡ need_for lower upper step) × InLimit n) }
{
    let all = product(product(lower, upper)?, step)?;
    sum(sum(sum(all, negative(lower))?, negative(upper))?, 1)
}

// A lower and an upper bound as a pair; nothing where a number passes 2^127 - 1.
fn joined(
    alloc: Global,
    lower: &Linear,
    upper: &Linear,
    step: i128,
    name: VarId,
) -> Result<Option<Pair>, AllocError>
    ensures { IfOk result (λ o. IfSome o (IsPair name.number step lower.now upper.now)) }
{
    let below = lower.coefficient(name);
    let above = negative(upper.coefficient(name));
    let Some(gap) = combination(alloc, above, lower, below, upper)? else {
        return Ok(None);
    };
    let Some(need) = need(below, above, step) else {
        return Ok(None);
    };
    if need == 0 {
        return Ok(Some(Pair { gap, surplus: None }));
    }
    match raised(gap.copy(alloc)?, negative(need)) {
        Some(form) => Ok(Some(Pair {
            gap,
            surplus: Some(form),
        })),
        None => Ok(None),
    }
}

// The atoms and one that says that the form is at least 0, if there is one.
fn with_need(mut needs: Vec<Atom>, form: Option<Linear>) -> Result<Vec<Atom>, AllocError>
    ensures { IfOk result (λ v. MatchOption form (v.items ≡ needs.items) (λ f. v.items ≡ needs.items ++ Atom.Compare Rel.AtLeast f ∷ [])) }
{
    if let Some(form) = form {
        needs.push(Atom::Compare(Rel::AtLeast, form))?;
    }
    Ok(needs)
}

impl Paired {
    // With a pair more.
    fn with(
        self,
        alloc: Global,
        lower: &Linear,
        upper: &Linear,
        step: i128,
        name: VarId,
    ) -> Result<Paired, AllocError>
        ensures { IfOk result (IsMoreByPair name.number step lower.now upper.now self) }
    {
        let Paired { shadow, needs } = self;
        match joined(alloc, lower, upper, step, name)? {
            Some(Pair { gap, surplus }) => Ok(Paired {
                shadow: with(alloc, shadow, Atom::Compare(Rel::AtLeast, gap))?,
                needs: with_need(needs, surplus)?,
            }),
            None => Ok(Paired {
                shadow: Shadow::Unknown,
                needs,
            }),
        }
    }

    // With the pairs of one lower bound more.
    fn with_bound(
        self,
        alloc: Global,
        lower: &Linear,
        uppers: &[Linear],
        step: i128,
        name: VarId,
    ) -> Result<Paired, AllocError>
        ensures { IfOk result (IsMoreByBound name.number step lower.now uppers.now self) }
    {
        let mut paired = self;
        for upper in uppers {
            paired = paired.with(alloc, lower, upper, step, name)?;
        }
        Ok(paired)
    }

    // With the pairs of all lower bounds more.
    pub(crate) fn with_bounds(
        self,
        alloc: Global,
        lowers: &[Linear],
        uppers: &[Linear],
        step: i128,
        name: VarId,
    ) -> Result<Paired, AllocError>
        ensures { IfOk result (IsMoreByBounds name.number step lowers.now uppers.now self) }
    {
        let mut paired = self;
        for lower in lowers {
            paired = paired.with_bound(alloc, lower, uppers, step, name)?;
        }
        Ok(paired)
    }
}

// The rows of each atom.
fn rows(alloc: Global, atoms: &[Atom]) -> Result<Vec<AtomRows>, AllocError>
    requires { AllByRecursion IsWellFormed atoms.now }
    ensures { IfOk result (λ v. AreRows Integers (map atom_of atoms.now) v.items) }
{
    let mut each = Vec::new(alloc);
    for atom in atoms {
        let rows = AtomRows::of(alloc, Context::Integers, atom)?;
        each.push(rows)?;
    }
    Ok(each)
}

// Whether it is found that the atoms imply the needs where the given atoms are true.
fn are_all_implied(
    alloc: Global,
    given: &[Atom],
    atoms: &[Atom],
    needs: &[Atom],
    effort: &mut u64,
) -> Result<bool, AllocError>
    requires given { AllByRecursion IsWellFormed given.now }
    requires atoms { AllByRecursion IsWellFormed atoms.now }
    requires needs { AllByRecursion IsWellFormed needs.now }
    ensures implied { IfOk result (λ b. IsTrue b → Imply Integers (map atom_of given.now) (map atom_of atoms.now) (map atom_of needs.now)) }
    ensures effort { effort.new ≤ effort.old }
{
    let assumed = rows(alloc, given)?;
    let left = rows(alloc, atoms)?;
    let asked = rows(alloc, needs)?;
    are_implied(alloc, &assumed, &left, &asked, effort)
}

// The shadow; untold if it is not found that its atoms imply the needs where the given atoms are true.
pub(crate) fn settled(
    alloc: Global,
    given: &[Atom],
    shadow: Shadow,
    needs: &[Atom],
    effort: &mut u64,
) -> Result<Shadow, AllocError>
    requires given { AllByRecursion IsWellFormed given.now }
    requires made { IsWellMade shadow }
    requires needs { AllByRecursion IsWellFormed needs.now }
    ensures settled { IfOk result (IsSettled (map atom_of given.now) (map atom_of needs.now) shadow) }
    ensures effort { effort.new ≤ effort.old }
{
    if needs.is_empty() {
        return Ok(shadow);
    }
    match shadow {
        Shadow::Never => Ok(Shadow::Never),
        Shadow::Unknown => Ok(Shadow::Unknown),
        Shadow::Atoms(atoms) => {
            if are_all_implied(alloc, given, &atoms, needs, effort)? {
                Ok(Shadow::Atoms(atoms))
            } else {
                Ok(Shadow::Unknown)
            }
        }
    }
}
