//! Atoms with one name, sorted by how they bind it.

ghost use Rattle.std.specs.Prelude.{◌≡◌, pos, neg_ℤ, IfOk, IfSome, map};
ghost use Rattle.std.specs.List.{AllByRecursion};
ghost use Rattle.logic_meaning.specs.Context.{Integers};
ghost use Rattle.logic_meaning.specs.Form.{coefficient};
ghost use Rattle.logic_meaning.specs.Some.{EachOf};
ghost use Rattle.logic_meaning.specs.Atom.{Compare, Mentions};
ghost use Rattle.logic_meaning.specs.NormalForm.{IsNormal};
ghost use Rattle.linear_forms.specs.Combinations.{IsLinear, IsQuotient};
ghost use Rattle.normal_atoms.specs.Atoms.{atom_of, relation_of, IsWellFormed};
ghost use Rattle.shadow_theory.specs.declared.shadow.Shadow.TheVariants.{Unknown};
ghost use Rattle.integer_shadows.specs.Told.{AreApart};
ghost use Rattle.integer_shadows.specs.Sides.{IsModulus, AreMerged, IsBound, HasNoBound, IsBoundMore, IsDifferingMore, IsSplitOff, AreSidesWith, AreSidesOf};

use crate::congruences::{Split, merged};
use crate::forms::raised;
use crate::telling::{mentions, with};
use linear_forms::Linear;
use logic_meaning::VarId;
use normal_atoms::{Atom, Rel};
use shadow_theory::Shadow;
use std::alloc::{AllocError, Global};

// What has a name: one congruence, whose form is a multiple of the modulus; bounds, forms that are to be at least 0, by the sign of the name
// in them; and forms that are not to be 0.
#[derive(Drop)]
pub(crate) struct Bounds {
    pub(crate) modulus: i128,
    pub(crate) class: Linear,
    pub(crate) lower: Vec<Linear>,
    pub(crate) upper: Vec<Linear>,
    pub(crate) differing: Vec<Linear>,
}

// The shadow of what lacks a name, and what has it.
#[derive(Drop)]
pub(crate) struct Sides {
    pub(crate) shadow: Shadow,
    pub(crate) bounds: Bounds,
}

// The form with the other sign.
fn negated(alloc: Global, form: &Linear) -> Result<Linear, AllocError>
    ensures { IfOk result (IsQuotient form.now (neg_ℤ (pos 1))) }
{
    match form.divide_exact(alloc, -1) {
        Ok(form) => Ok(form),
        Err(_) => Err(AllocError),
    }
}

// The form that is at least 0 where the given one has the relation to 0, if there is one; nothing where a number passes 2^127 - 1 too.
fn bound(alloc: Global, relation: Rel, form: &Linear) -> Result<Option<Linear>, AllocError>
    ensures { IfOk result (λ o. IfSome o (IsBound (relation_of relation) form.now)) }
{
    match relation {
        Rel::AtLeast => Ok(Some(form.copy(alloc)?)),
        Rel::Greater => Ok(raised(form.copy(alloc)?, -1)),
        Rel::AtMost => Ok(Some(negated(alloc, form)?)),
        Rel::Less => Ok(raised(negated(alloc, form)?, -1)),
        Rel::Equal | Rel::Differs => Ok(None),
    }
}

impl Bounds {
    // Nothing.
    fn new(alloc: Global) -> Bounds
        ensures { HasNoBound result }
    {
        Bounds {
            modulus: 1,
            class: Linear::constant(alloc, 0),
            lower: Vec::new(alloc),
            upper: Vec::new(alloc),
            differing: Vec::new(alloc),
        }
    }

    // The congruence and another one. Nothing where a number passes 2^127 - 1.
    fn merged(
        &self,
        alloc: Global,
        modulus: i128,
        form: &Linear,
        name: VarId,
    ) -> Result<Option<Split>, AllocError>
        requires own { IsModulus self.now.modulus }
        requires other { IsModulus modulus }
        ensures { IfOk result (λ o. IfSome o (AreMerged name.number self.now.modulus self.now.class modulus form.now)) }
    {
        merged(alloc, self.modulus, &self.class, modulus, form, name)
    }

    // With another congruence in place of its own.
    fn with_class(self, modulus: i128, class: Linear) -> Bounds
        ensures { result ≡ record self { modulus = modulus; class = class } }
    {
        Bounds {
            modulus,
            class,
            lower: self.lower,
            upper: self.upper,
            differing: self.differing,
        }
    }

    // With one bound more.
    fn with_bound(mut self, form: Linear, name: VarId) -> Result<Bounds, AllocError>
        requires { ¬ (coefficient name.number form ≡ pos 0) }
        ensures { IfOk result (IsBoundMore name.number form self) }
    {
        if 0 < form.coefficient(name) {
            self.lower.push(form)?;
        } else {
            self.upper.push(form)?;
        }
        Ok(self)
    }

    // With one form more that is not to be 0.
    fn with_differing(mut self, form: Linear) -> Result<Bounds, AllocError>
        ensures { IfOk result (IsDifferingMore form self) }
    {
        self.differing.push(form)?;
        Ok(self)
    }
}

impl Sides {
    // With one atom more. An equation and the negation of a congruence leave it untold.
    fn with(self, alloc: Global, atom: &Atom, name: VarId) -> Result<Sides, AllocError>
        requires modulus { IsModulus self.bounds.modulus }
        requires well_formed { IsWellFormed atom.now }
        requires mentioned { Mentions (atom_of atom.now) name.number }
        ensures { IfOk result (λ s. AreSidesWith name.number self s (atom_of atom.now)) }
    {
        let Sides { shadow, bounds } = self;
        match atom {
            Atom::Compare(relation, form) => compared(alloc, shadow, bounds, *relation, form, name),
            Atom::Congruent {
                holds,
                modulus,
                form,
            } => {
                if !*holds {
                    return Ok(untold(bounds));
                }
                match bounds.merged(alloc, *modulus, form, name)? {
                    Some(split) => split_off(alloc, shadow, bounds, split),
                    None => Ok(untold(bounds)),
                }
            }
        }
    }
}

// The sides with a comparison more. An equation leaves them untold.
fn compared(
    alloc: Global,
    shadow: Shadow,
    bounds: Bounds,
    relation: Rel,
    form: &Linear,
    name: VarId,
) -> Result<Sides, AllocError>
    requires { ¬ (coefficient name.number form.now ≡ pos 0) }
    ensures { IfOk result (λ s. AreSidesWith name.number (record { shadow = shadow; bounds = bounds }) s (Compare (relation_of relation) form.now)) }
{
    match relation {
        Rel::Differs => {
            let form = form.copy(alloc)?;
            let bounds = bounds.with_differing(form)?;
            Ok(Sides { shadow, bounds })
        }
        _ => match bound(alloc, relation, form)? {
            Some(form) => {
                let bounds = bounds.with_bound(form, name)?;
                Ok(Sides { shadow, bounds })
            }
            None => Ok(untold(bounds)),
        },
    }
}

// Bounds of which nothing is told.
fn untold(bounds: Bounds) -> Sides
    ensures { result ≡ record { shadow = Unknown; bounds = bounds } }
{
    Sides {
        shadow: Shadow::Unknown,
        bounds,
    }
}

// The bounds with two congruences in place of their own: the condition goes to the shadow.
fn split_off(
    alloc: Global,
    shadow: Shadow,
    bounds: Bounds,
    split: Split,
) -> Result<Sides, AllocError>
    requires modulus { IsModulus split.modulus }
    requires linear { IsLinear split.condition }
    ensures { IfOk result (IsSplitOff split shadow bounds) }
{
    let Split {
        modulus,
        class,
        condition,
    } = split;
    let congruence = Atom::Congruent {
        holds: true,
        modulus,
        form: condition,
    };
    Ok(Sides {
        shadow: with(alloc, shadow, congruence)?,
        bounds: bounds.with_class(modulus, class),
    })
}

// The atoms as sides: the shadow is of those without the name.
pub(crate) fn sorted(
    alloc: Global,
    shadow: Shadow,
    atoms: &[Atom],
    name: VarId,
) -> Result<Sides, AllocError>
    requires well_formed { AllByRecursion IsWellFormed atoms.now }
    requires normal { EachOf (IsNormal Integers) (map atom_of atoms.now) }
    requires apart { AreApart name.number (map atom_of atoms.now) shadow }
    ensures { IfOk result (AreSidesOf name.number (map atom_of atoms.now)) }
{
    let bounds = Bounds::new(alloc);
    let mut sides = Sides { shadow, bounds };
    for atom in atoms {
        if mentions(atom, name) {
            sides = sides.with(alloc, atom, name)?;
        }
    }
    Ok(sides)
}
