// Merging and deciding of two normal atoms.
ghost use Rattle.std.specs.Prelude.{◌≡◌, IfOk, IfErr};
ghost use Rattle.logic_meaning.specs.declared.junction.Junction.TheVariants.{Conjunction, Disjunction};
ghost use Rattle.logic_meaning.specs.NormalForm.{IsNormal};
ghost use Rattle.normal_atoms.specs.Atoms.{context_of, atom_of, IsWellFormed};
ghost use Rattle.normal_atoms.specs.Merged.{IsMerging, IsDecision};
ghost use Rattle.normal_atoms.specs.Computed.{merged, merging_of, decided_by};

use crate::answers::Merged;
use crate::atoms::{Atom, Context};
use crate::error::AtomError;
use crate::{atom_merging_comparison as comparison, atom_merging_congruence as congruence};
use logic_meaning::Junction;
use std::alloc::{AllocError, Global};

// Two normal atoms joined.
fn merged(
    alloc: Global,
    context: Context,
    junction: Junction,
    a: &Atom,
    b: &Atom,
) -> Result<Merged, AllocError>
    requires well_formed { IsWellFormed a.now }
    requires other_well_formed { IsWellFormed b.now }
    requires normal { IsNormal (context_of context) (atom_of a.now) }
    requires other_normal { IsNormal (context_of context) (atom_of b.now) }
    ensures merged { IfOk result (IsMerging (context_of context) junction (atom_of a.now) (atom_of b.now)) }
    ensures computed { IfOk result (λ m. merging_of m ≡ merged (context_of context) junction (atom_of a.now) (atom_of b.now)) }
{
    match (a, b) {
        (Atom::Compare(relation, form), Atom::Compare(other_relation, other)) => {
            comparison::merged(
                alloc,
                context,
                junction,
                *relation,
                form,
                *other_relation,
                other,
            )
        }
        (
            Atom::Congruent {
                holds,
                modulus,
                form,
            },
            Atom::Congruent {
                holds: other_holds,
                modulus: other_modulus,
                form: other,
            },
        ) if congruence::is_same_part(*modulus, form, *other_modulus, other) => {
            congruence::merged(alloc, junction, *modulus, *holds, form, *other_holds, other)
        }
        _ => Ok(Merged::Keep),
    }
}

/// What two normal atoms joined by `and` become: `False` where no number meets both, the normal atom that stands for the
/// numbers that meet both where there is one, and `Keep` where there is none, where its constant passes 2^127 - 1, or where
/// the atoms have different variable parts. Its only error is `Memory`.
pub fn merge_and(alloc: Global, context: Context, a: &Atom, b: &Atom) -> Result<Merged, AtomError>
    requires well_formed { IsWellFormed a.now }
    requires other_well_formed { IsWellFormed b.now }
    requires normal { IsNormal (context_of context) (atom_of a.now) }
    requires other_normal { IsNormal (context_of context) (atom_of b.now) }
    ensures merged { IfOk result (IsMerging (context_of context) Conjunction (atom_of a.now) (atom_of b.now)) }
    ensures computed { IfOk result (λ m. merging_of m ≡ merged (context_of context) Conjunction (atom_of a.now) (atom_of b.now)) }
    ensures memory { IfErr result (λ e. e ≡ AtomError.Memory) }
{
    Ok(merged(alloc, context, Junction::Conjunction, a, b)?)
}

/// What two normal atoms joined by `or` become: `True` where each number meets one of them, the normal atom that stands for
/// the numbers that meet one of them where there is one, and `Keep` where there is none, where its constant passes
/// 2^127 - 1, or where the atoms have different variable parts. Its only error is `Memory`.
pub fn merge_or(alloc: Global, context: Context, a: &Atom, b: &Atom) -> Result<Merged, AtomError>
    requires well_formed { IsWellFormed a.now }
    requires other_well_formed { IsWellFormed b.now }
    requires normal { IsNormal (context_of context) (atom_of a.now) }
    requires other_normal { IsNormal (context_of context) (atom_of b.now) }
    ensures merged { IfOk result (IsMerging (context_of context) Disjunction (atom_of a.now) (atom_of b.now)) }
    ensures computed { IfOk result (λ m. merging_of m ≡ merged (context_of context) Disjunction (atom_of a.now) (atom_of b.now)) }
    ensures memory { IfErr result (λ e. e ≡ AtomError.Memory) }
{
    Ok(merged(alloc, context, Junction::Disjunction, a, b)?)
}

/// Whether the normal atom `theory` decides another: `Some(true)` where both have one variable part and each number that
/// meets `theory` meets `other`, `Some(false)` where they have one and no number meets both, `None` elsewhere. It takes no
/// memory.
pub fn decides(context: Context, theory: &Atom, other: &Atom) -> Option<bool>
    requires well_formed { IsWellFormed theory.now }
    requires other_well_formed { IsWellFormed other.now }
    requires normal { IsNormal (context_of context) (atom_of theory.now) }
    requires other_normal { IsNormal (context_of context) (atom_of other.now) }
    ensures decided { IsDecision (context_of context) (atom_of theory.now) (atom_of other.now) result }
    ensures computed { result ≡ decided_by (context_of context) (atom_of theory.now) (atom_of other.now) }
{
    match (theory, other) {
        (Atom::Compare(relation, form), Atom::Compare(other_relation, other)) => {
            comparison::decided(context, *relation, form, *other_relation, other)
        }
        (
            Atom::Congruent {
                holds,
                modulus,
                form,
            },
            Atom::Congruent {
                holds: other_holds,
                modulus: other_modulus,
                form: other,
            },
        ) if congruence::is_same_part(*modulus, form, *other_modulus, other) => {
            congruence::decided(*modulus, *holds, form, *other_holds, other)
        }
        _ => None,
    }
}
