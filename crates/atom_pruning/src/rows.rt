//! The rows of an atom.

ghost use Rattle.std.specs.Prelude.{◌≡◌, ℕ, pos, ◌<ℤ◌, ◌≤ℤ◌, neg_ℤ, IfOk};
ghost use Rattle.logic_meaning.specs.Point.{Point, Of};
ghost use Rattle.logic_meaning.specs.Form.{value};
ghost use Rattle.logic_meaning.specs.Atom.{Relates};
ghost use Rattle.linear_theory.specs.Meeting.{Meets};
ghost use Rattle.certificates.specs.Constraints.{constraint_of};
ghost use Rattle.normal_atoms.specs.Atoms.{context_of, atom_of, relation_of, IsWellFormed};
ghost use Rattle.atom_pruning.specs.Rows.{MeetsAny, AreRowsOf};

use certificates::{Bound, Constraint};
use linear_forms::Linear;
use normal_atoms::{Atom, Context, Rel, opposite};
use std::alloc::{AllocError, Global};

/// Constraints on a point of the theory: one that it meets where an atom is true, and one that it meets where the atom is not. There is
/// none where no constraint says it (`<>`, a congruence, the negation of an equation), or where a number would pass 2^127 - 1.
#[derive(Debug, Drop)]
pub struct AtomRows {
    pub holds: Option<Constraint>,
    pub fails: Option<Constraint>,
}

impl AtomRows {
    /// The rows of an atom. A strict comparison of the integers becomes a weak one: `f < 0` is `f + 1 <= 0` there. Its only error is want
    /// of memory.
    pub fn of(alloc: Global, context: Context, atom: &Atom) -> Result<AtomRows, AllocError>
        requires { IsWellFormed atom.now }
        ensures rows { IfOk result (AreRowsOf (context_of context) (atom_of atom.now)) }
    {
        match atom {
            Atom::Compare(relation, form) => Ok(AtomRows {
                holds: row(alloc, context, *relation, form)?,
                fails: row(alloc, context, opposite(*relation), form)?,
            }),
            Atom::Congruent { .. } => Ok(AtomRows {
                holds: None,
                fails: None,
            }),
        }
    }
}

// The constraint that a form has the relation to 0, if there is one.
fn row(
    alloc: Global,
    context: Context,
    relation: Rel,
    form: &Linear,
) -> Result<Option<Constraint>, AllocError>
    ensures { IfOk result (λ r. (p : Point ℕ) → Of (context_of context) p → Relates (relation_of relation) (value form.now p) (pos 0) → MeetsAny p r) }
{
    match relation {
        Rel::Differs => Ok(None),
        Rel::Equal => Ok(Some(Constraint {
            form: form.copy(alloc)?,
            bound: Bound::Equal,
        })),
        Rel::AtMost => Ok(Some(at_most(form.copy(alloc)?))),
        Rel::AtLeast => Ok(Some(at_most(negated(alloc, form)?))),
        Rel::Less => Ok(below(context, form.copy(alloc)?)),
        Rel::Greater => Ok(below(context, negated(alloc, form)?)),
    }
}

// The constraint that a form is at most 0.
fn at_most(form: Linear) -> Constraint
    ensures { (p : Point ℕ) → value form p ≤ℤ pos 0 → Meets p (constraint_of result) }
{
    Constraint {
        form,
        bound: Bound::AtMost,
    }
}

// The constraint that a form is below 0, if there is one: over the integers, where its values are whole, that it is at most -1.
fn below(context: Context, form: Linear) -> Option<Constraint>
    ensures { (p : Point ℕ) → Of (context_of context) p → value form p <ℤ pos 0 → MeetsAny p result }
{
    match context {
        Context::Fields => Some(Constraint {
            form,
            bound: Bound::Below,
        }),
        Context::Integers => {
            let constant = form.constant_part().checked_add(1)?;
            Some(at_most(form.with_constant(constant)))
        }
    }
}

// The form with the other sign.
fn negated(alloc: Global, form: &Linear) -> Result<Linear, AllocError>
    ensures { IfOk result (λ f. (p : Point ℕ) → value f p ≡ neg_ℤ (value form.now p)) }
{
    match form.divide_exact(alloc, -1) {
        Ok(form) => Ok(form),
        Err(_) => Err(AllocError),
    }
}
