// What a step of elimination leaves of a formula at test points.
ghost use Rattle.std.specs.Prelude.{◌≡◌, ◌∷◌, All, map, OnOk, IfOk, IfErr, MatchResult};
ghost use Rattle.formula_laws.specs.Equivalence.{InContext};
ghost use Rattle.logic_meaning.specs.Fold.{append};
ghost use Rattle.logic_meaning.specs.Form.{coefficient};
ghost use Rattle.logic_meaning.specs.Atom.{form_of};
ghost use Rattle.logic_meaning.specs.Context.{Integers};
ghost use Rattle.logic_meaning.specs.BothTheories.{IsPlaceIn};
ghost use Rattle.logic_meaning.specs.Reference.{stands_among};
ghost use Rattle.logic_meaning.specs.Limits.{each};
ghost use Rattle.normal_atoms.specs.Atoms.{atom_of, context_of};
ghost use Rattle.formula_tree.specs.Trees.{members};
ghost use Rattle.nnf_trees.specs.Nnfs.{nnf_of, IsProper, AreProper};
ghost use Rattle.test_points.specs.Points.{place_of, IsTestPoint, IsPointOf};
ghost use Rattle.nnf_trees.specs.Placed.{Fails, IsResultAt, AreResults, point_within, with_guard, is_no, unless_false};

use crate::folding::fold;
use crate::nnf::Nnf;
use crate::substitution::{of_normal, substituted};
use logic_meaning::{Junction, VarId};
use normal_atoms::{Atom, Context};
use std::alloc::Global;
use test_points::{PointError, TestPoint, guard};

// The formula and the condition under which the point is a whole number, joined. The only error is `Memory`.
fn guarded(alloc: Global, f: Nnf, point: &TestPoint) -> Result<Nnf, PointError>
    requires proper { IsProper f }
    requires test_point { IsTestPoint point.now }
    requires place { IsPlaceIn Integers (place_of point.now) }
    ensures formula { IfOk result (λ g. nnf_of g ≡ with_guard (place_of point.now) (nnf_of f)) }
    ensures proper { IfOk result IsProper }
    ensures memory { IfErr result (λ e. e ≡ PointError.Memory) }
{
    let condition = of_normal(guard(alloc, point)?);
    let pair = vec![in alloc; condition, f].map_err(|_| PointError::Memory)?;
    fold(alloc, Junction::Conjunction, pair).map_err(|_| PointError::Memory)
}

/// What a step of elimination leaves of the formula at the point (Loos and Weispfenning 1993, Cooper 1972): each atom with the
/// point's name put at the point, in normal form, over the integers joined with the point's guard, and the whole folded.
/// `Overflow` comes exactly where a number that is formed for an atom passes 2^127 - 1, else `Memory`.
pub fn formula_at(
    alloc: Global,
    context: Context,
    f: &Nnf,
    point: &TestPoint,
) -> Result<Nnf, PointError>
    requires proper { IsProper f.now }
    requires in_context { InContext (context_of context) (nnf_of f.now) }
    requires test_point { IsTestPoint point.now }
    requires place { IsPlaceIn (context_of context) (place_of point.now) }
    ensures { MatchResult result (IsResultAt (context_of context) point.now.name.number (place_of point.now) (nnf_of f.now)) (λ e. Fails e (point_within (context_of context) point.now.name.number (nnf_of f.now) (place_of point.now))) }
{
    match substituted(alloc, context, f, point) {
        Ok(put) => match context {
            Context::Fields => Ok(put),
            Context::Integers => guarded(alloc, put, point),
        },
        Err(error) => Err(error),
    }
}

/// Whether the formula is the constant false.
#[tactic(auto, using(crate::proofs::NnfEquations::nnfs, crate::proofs::ResultLaws::falses))]
pub fn is_false(f: &Nnf) -> bool
    ensures { result ≡ is_no (nnf_of f.now) }
{
    match f {
        Nnf::Constant(truth) => !*truth,
        Nnf::One(_) | Nnf::Joined(..) | Nnf::Quantified(..) => false,
    }
}

// Puts a formula last, unless it is false. The only error is `Memory`.
fn keep(left: &mut Vec<Nnf>, f: Nnf) -> Result<(), PointError>
    requires proper { AreProper left.old.items }
    requires formula { IsProper f }
    ensures formulas { OnOk result (members (map nnf_of left.new.items) ≡ append (members (map nnf_of left.old.items)) (unless_false (nnf_of f))) }
    ensures proper { OnOk result (AreProper left.new.items) }
    ensures memory { IfErr result (λ e. e ≡ PointError.Memory) }
{
    if is_false(&f) {
        return Ok(());
    }
    left.push(f).map_err(|_| PointError::Memory)?;
    Ok(())
}

/// What a step of elimination leaves of the formula at each of the points, in their order, without what is false. `Overflow`
/// comes exactly where a number that is formed for an atom passes 2^127 - 1, else `Memory`.
pub fn formulas_at(
    alloc: Global,
    context: Context,
    x: VarId,
    f: &Nnf,
    points: &[TestPoint],
) -> Result<Vec<Nnf>, PointError>
    requires proper { IsProper f.now }
    requires in_context { InContext (context_of context) (nnf_of f.now) }
    requires points { All (IsPointOf x) points.now }
    requires places { All (λ t. IsPlaceIn (context_of context) (place_of t)) points.now }
    ensures { MatchResult result (λ v. AreResults (context_of context) x.number (nnf_of f.now) (map place_of points.now) v.items) (λ e. Fails e (each (point_within (context_of context) x.number (nnf_of f.now)) (map place_of points.now))) }
{
    let mut left = Vec::new(alloc);
    for point in points {
        match formula_at(alloc, context, f, point) {
            Ok(g) => keep(&mut left, g)?,
            Err(error) => return Err(error),
        }
    }
    Ok(left)
}

/// Whether the name stands in some atom.
pub fn stands_in_some(atoms: &[Atom], x: VarId) -> bool
    ensures { result ≡ stands_among x.number (map atom_of atoms.now) }
{
    for atom in atoms {
        if coefficient(atom, x) != 0 {
            return true;
        }
    }
    false
}

// The coefficient of a name in an atom.
fn coefficient(atom: &Atom, x: VarId) -> i128
    ensures { result ≡ coefficient x.number (form_of (atom_of atom.now)) }
{
    match atom {
        Atom::Compare(_, form) | Atom::Congruent { form, .. } => form.coefficient(x),
    }
}
