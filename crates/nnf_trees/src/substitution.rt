// A formula with a name put at a test point, in both theories.
ghost use Rattle.std.specs.Prelude.{◌≡◌, IfOk, MatchResult};
ghost use Rattle.logic_meaning.specs.Shape.{quantified};
ghost use Rattle.logic_meaning.specs.Formula.{One as Single};
ghost use Rattle.logic_meaning.specs.Every.{EveryOf};
ghost use Rattle.formula_laws.specs.TheoryAtoms.{AtomIn};
ghost use Rattle.formula_laws.specs.Equivalence.{InContext};
ghost use Rattle.logic_meaning.specs.BothTheories.{IsPlaceIn};
ghost use Rattle.normal_atoms.specs.Atoms.{atom_of, context_of, tree_of, IsWellFormed, IsWellFormedNormal};
ghost use Rattle.nnf_trees.specs.Nnfs.{nnf_of, nnfs_of, nnfs_atoms, IsProper};
ghost use Rattle.test_points.specs.Points.{place_of, IsTestPoint};
ghost use Rattle.nnf_trees.specs.Placed.{Fails, IsPut, ArePut, all_within, each_within};

use crate::folding::fold;
use crate::nnf::{Members, Nnf};
use logic_meaning::{Quantifier, VarId};
use normal_atoms::{Atom, Context, Normal};
use std::alloc::{AllocError, Global};
use test_points::{PointError, TestPoint, substitute_field, substitute_integer};

/// The formula of a normal form.
#[tactic(auto, using(crate::proofs::NnfEquations::nnfs))]
pub fn of_normal(normal: Normal) -> Nnf
    requires { IsWellFormedNormal normal }
    ensures formula { nnf_of result ≡ tree_of normal }
    ensures proper { IsProper result }
{
    match normal {
        Normal::True => Nnf::Constant(true),
        Normal::False => Nnf::Constant(false),
        Normal::One(atom) => Nnf::One(atom),
    }
}

// An atom with the point's name put at the point.
fn one(alloc: Global, context: Context, atom: &Atom, point: &TestPoint) -> Result<Nnf, PointError>
    requires well_formed { IsWellFormed atom.now }
    requires in_context { AtomIn (context_of context) (atom_of atom.now) }
    requires test_point { IsTestPoint point.now }
    requires place { IsPlaceIn (context_of context) (place_of point.now) }
    ensures { MatchResult result (IsPut (context_of context) point.now.name.number (place_of point.now) (Single (atom_of atom.now))) (λ e. Fails e (all_within (context_of context) point.now.name.number (place_of point.now) (Single (atom_of atom.now)))) }
{
    let normal = match context {
        Context::Fields => substitute_field(alloc, atom, point),
        Context::Integers => substitute_integer(alloc, atom, point),
    };
    match normal {
        Ok(normal) => Ok(of_normal(normal)),
        Err(error) => Err(error),
    }
}

// The formula under a quantifier.
#[tactic(auto, using(crate::proofs::NnfEquations::nnfs))]
fn under(alloc: Global, quantifier: Quantifier, x: VarId, f: Nnf) -> Result<Nnf, AllocError>
    requires { IsProper f }
    ensures formula { IfOk result (λ g. nnf_of g ≡ quantified quantifier x.number (nnf_of f)) }
    ensures proper { IfOk result IsProper }
{
    Ok(Nnf::Quantified(quantifier, x, Box::new(alloc, f)?))
}

/// The formula with the point's name put at the point (Loos and Weispfenning 1993, Cooper 1972): each atom in normal form, and
/// the whole folded. `Overflow` comes exactly where a number that is formed for an atom passes 2^127 - 1, else `Memory`.
/// The recursion is as deep as the formula is high.
#[cycle(placed)]
#[tactic(auto, using(crate::proofs::NnfEquations::nnfs, crate::proofs::PutLaws::puts))]
pub fn substituted(
    alloc: Global,
    context: Context,
    f: &Nnf,
    point: &TestPoint,
) -> Result<Nnf, PointError>
    requires proper { IsProper f.now }
    requires in_context { InContext (context_of context) (nnf_of f.now) }
    requires test_point { IsTestPoint point.now }
    requires place { IsPlaceIn (context_of context) (place_of point.now) }
    ensures { MatchResult result (IsPut (context_of context) point.now.name.number (place_of point.now) (nnf_of f.now)) (λ e. Fails e (all_within (context_of context) point.now.name.number (place_of point.now) (nnf_of f.now))) }
{
    match f {
        Nnf::Constant(truth) => Ok(Nnf::Constant(*truth)),
        Nnf::One(atom) => one(alloc, context, atom, point),
        Nnf::Joined(junction, members) => match all_substituted(alloc, context, members, point) {
            Ok(list) => fold(alloc, *junction, list).map_err(|_| PointError::Memory),
            Err(error) => Err(error),
        },
        Nnf::Quantified(quantifier, x, g) => match substituted(alloc, context, g, point) {
            Ok(inner) => under(alloc, *quantifier, *x, inner).map_err(|_| PointError::Memory),
            Err(error) => Err(error),
        },
    }
}

// The same of each member.
#[cycle(placed)]
fn all_substituted(
    alloc: Global,
    context: Context,
    fs: &Members,
    point: &TestPoint,
) -> Result<Vec<Nnf>, PointError>
    requires proper { EveryOf IsWellFormed (nnfs_atoms fs.now) }
    requires in_context { EveryOf (AtomIn (context_of context)) (nnfs_of fs.now) }
    requires test_point { IsTestPoint point.now }
    requires place { IsPlaceIn (context_of context) (place_of point.now) }
    ensures { MatchResult result (λ v. ArePut (context_of context) point.now.name.number (place_of point.now) (nnfs_of fs.now) v.items) (λ e. Fails e (each_within (context_of context) point.now.name.number (place_of point.now) (nnfs_of fs.now))) }
{
    let mut made = Vec::new(alloc);
    for f in fs.items() {
        match substituted(alloc, context, f, point) {
            Ok(g) => made.push(g).map_err(|_| PointError::Memory)?,
            Err(error) => return Err(error),
        }
    }
    Ok(made)
}
