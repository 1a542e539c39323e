//! Each lower bound of a name with each upper one.

ghost use Rattle.std.specs.Prelude.{◌≡◌, ◌⊎◌, ◌↔◌, [], pos, ◌<ℤ◌, map, IfOk, OnOk, IsTrue};
ghost use Rattle.logic_meaning.specs.Some.{EachOf};
ghost use Rattle.logic_meaning.specs.Form.{coefficient};
ghost use Rattle.normal_atoms.specs.Atoms.{atom_of};
ghost use Rattle.field_shadows.specs.Bounds.{form_of_bound, IsSplit, IsJoined, AddsJoined, AreJoined};

use crate::hold::{Bound, Hold};
use linear_forms::LinError;
use logic_meaning::VarId;
use normal_atoms::{Atom, Rel};
use std::alloc::{AllocError, Global};

/// The bounds that atoms give a name, and whether it stands in some other atom too.
#[derive(Drop)]
pub(crate) struct Split<'a> {
    pub(crate) uppers: Vec<Bound<'a>>,
    pub(crate) lowers: Vec<Bound<'a>>,
    pub(crate) others: bool,
}

impl<'a> Split<'a> {
    /// The bounds that the atoms give the name. Its only error is want of memory.
    pub(crate) fn of(alloc: Global, atoms: &'a [Atom], name: VarId) -> Result<Split<'a>, AllocError>
        ensures { IfOk result (IsSplit name.number (map atom_of atoms.now)) }
    {
        let mut split = Split {
            uppers: Vec::new(alloc),
            lowers: Vec::new(alloc),
            others: false,
        };
        for atom in atoms {
            match Hold::of(atom, name) {
                Hold::Absent => {}
                Hold::Upper(bound) => split.uppers.push(bound)?,
                Hold::Lower(bound) => split.lowers.push(bound)?,
                Hold::Equation(_) | Hold::Other => split.others = true,
            }
        }
        Ok(split)
    }

    /// Whether the bounds stand on one side alone, or there are none.
    pub(crate) fn is_open(&self) -> bool
        ensures { IsTrue result ↔ ((self.now.uppers.items ≡ []) ⊎ (self.now.lowers.items ≡ [])) }
    {
        self.uppers.is_empty() || self.lowers.is_empty()
    }

    /// How many pairs of bounds there are.
    pub(crate) fn pairs(&self) -> usize {
        self.uppers.len().saturating_mul(self.lowers.len())
    }

    /// An atom for each pair of bounds, without the name. `Overflow` comes only where a number passes 2^127 - 1, else `Memory`.
    pub(crate) fn cross(&self, alloc: Global, name: VarId) -> Result<Vec<Atom>, LinError>
        requires lowers { EachOf (λ b. coefficient name.number (form_of_bound b) <ℤ pos 0) self.now.lowers.items }
        ensures { IfOk result (λ v. AreJoined name.number self.now.uppers.items self.now.lowers.items v.items) }
    {
        let mut new = Vec::new(alloc);
        for lower in &self.lowers {
            add_joined(alloc, name, *lower, &self.uppers, &mut new)?;
        }
        Ok(new)
    }
}

// Adds an atom for the lower bound with each of the upper ones. `Overflow` comes only where a number passes 2^127 - 1, else `Memory`.
fn add_joined(
    alloc: Global,
    name: VarId,
    lower: Bound<'_>,
    uppers: &[Bound<'_>],
    new: &mut Vec<Atom>,
) -> Result<(), LinError>
    requires { coefficient name.number (form_of_bound lower) <ℤ pos 0 }
    ensures { OnOk result (AddsJoined name.number lower.entry uppers.now new.old.items new.new.items) }
{
    for upper in uppers {
        let atom = joined(alloc, name, *upper, lower)?;
        new.push(atom).map_err(|_| LinError::Memory)?;
    }
    Ok(())
}

// The atom that an upper bound and a lower one give: multiples of both are added up so that the name cancels. It is strict where one of
// them is. `Overflow` comes only where a number passes 2^127 - 1, else `Memory`.
fn joined(alloc: Global, name: VarId, upper: Bound<'_>, lower: Bound<'_>) -> Result<Atom, LinError>
    requires { coefficient name.number (form_of_bound lower) <ℤ pos 0 }
    ensures { IfOk result (IsJoined name.number upper.entry lower.entry) }
{
    let form = upper.form.cancel(alloc, name, lower.form)?;
    let relation = if upper.strict || lower.strict {
        Rel::Less
    } else {
        Rel::AtMost
    };
    Ok(Atom::Compare(relation, form))
}
