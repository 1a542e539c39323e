// Formulas with a point put in.
ghost use Rattle.std.specs.Prelude.{◌≡◌, true, [], OnOk, IfOk, IfErr, MatchResult};
ghost use Rattle.formula_laws.specs.TheoryAtoms.{AtomIn};
ghost use Rattle.logic_meaning.specs.Every.{Every, EveryOf};
ghost use Rattle.logic_meaning.specs.Point.{Of};
ghost use Rattle.formula_laws.specs.Equivalence.{InContext};
ghost use Rattle.elimination_theory.specs.Theorems.{IsPutIn};
ghost use Rattle.logic_meaning.specs.PutIn.{tree_put_within, trees_put_within, put_in};
ghost use Rattle.logic_meaning.specs.Reference.{normal_tree};
ghost use Rattle.normal_atoms.specs.Atoms.{context_of, IsWellFormed};
ghost use Rattle.logic_meaning.specs.NormalForm.{IsNormal};
ghost use Rattle.formula_tree.specs.Trees.{tree_of};
ghost use Rattle.linear_forms.specs.Values.{point_of};
ghost use Rattle.nnf_trees.specs.Placed.{Fails};
ghost use Rattle.nnf_trees.specs.Nnfs.{nnf_of, nnfs_of, nnfs_atoms, IsProper, HasModulus};
ghost use Rattle.reference_engine.specs.Put.{around, IsTreePut, AreTreesPut, Refuses};

use crate::forms::atom_put;
use crate::measured::Measured;
use crate::points::stopped;
use formula_tree::Tree;
use linear_forms::Values;
use logic_meaning::VarId;
use nnf_trees::{Members, Nnf, into_tree, normal_form, of_normal};
use normal_atoms::Context;
use std::alloc::Global;
use test_points::PointError;

/// The formula with the numbers of the point for the names that no quantifier binds, each atom in normal form. The names are those
/// of the quantifiers around it, the innermost last. The recursion is as deep as the formula is high.
#[cycle(put)]
#[tactic(auto, using(nnf_trees::proofs::NnfEquations::nnfs, crate::proofs::TreePuts::puts))]
pub fn formula_put(
    alloc: Global,
    context: Context,
    names: &mut Vec<VarId>,
    f: &Nnf,
    at: &Values,
) -> Result<Nnf, PointError>
    requires proper { IsProper f.now }
    requires in_context { InContext (context_of context) (nnf_of f.now) }
    ensures put { MatchResult result (λ g. IsTreePut (context_of context) (point_of at.now) (around names.old.items) (nnf_of f.now) (nnf_of g)) (λ e. Fails e (tree_put_within (context_of context) (point_of at.now) (around names.old.items) (nnf_of f.now))) }
    ensures names { OnOk result (names.new.items ≡ names.old.items) }
{
    match f {
        Nnf::Constant(truth) => Ok(Nnf::Constant(*truth)),
        Nnf::One(atom) => Ok(of_normal(atom_put(alloc, context, names, atom, at)?)),
        Nnf::Joined(junction, members) => {
            let put = members_put(alloc, context, names, members, at)?;
            Ok(Nnf::Joined(*junction, put))
        }
        Nnf::Quantified(quantifier, x, inner) => {
            names.push(*x).map_err(|_| PointError::Memory)?;
            let put = formula_put(alloc, context, names, inner, at)?;
            names.pop();
            let boxed = Box::new(alloc, put).map_err(|_| PointError::Memory)?;
            Ok(Nnf::Quantified(*quantifier, *x, boxed))
        }
    }
}

// The same of each member.
#[cycle(put)]
fn members_put(
    alloc: Global,
    context: Context,
    names: &mut Vec<VarId>,
    fs: &Members,
    at: &Values,
) -> Result<Members, PointError>
    requires proper { EveryOf IsWellFormed (nnfs_atoms fs.now) }
    requires in_context { EveryOf (AtomIn (context_of context)) (nnfs_of fs.now) }
    ensures put { MatchResult result (λ gs. AreTreesPut (context_of context) (point_of at.now) (around names.old.items) (nnfs_of fs.now) (nnfs_of gs)) (λ e. Fails e (trees_put_within (context_of context) (point_of at.now) (around names.old.items) (nnfs_of fs.now))) }
    ensures names { OnOk result (names.new.items ≡ names.old.items) }
{
    let mut made = Vec::new(alloc);
    for f in fs.items() {
        let put = formula_put(alloc, context, names, f, at)?;
        made.push(put).map_err(|_| PointError::Memory)?;
    }
    Ok(Members::of(made))
}

/// The negation normal form of the tree with the numbers of the point for its free names, each atom in normal form. `Overflow`
/// comes exactly where a number that is formed passes 2^127 - 1, else `Memory`, and never `Nodes`.
///
/// The recursion is as deep as the tree is high.
pub fn put_in(alloc: Global, tree: &Tree, context: Context, at: &Values) -> Result<Tree, Measured>
    requires moduli { Every HasModulus (tree_of tree.now) }
    requires normal { Every (IsNormal (context_of context)) (tree_of tree.now) }
    requires point { Of (context_of context) (point_of at.now) }
    ensures put { IfOk result (λ t. tree_of t ≡ put_in (context_of context) (point_of at.now) (tree_of tree.now)) }
    ensures exact { IfOk result (λ t. IsPutIn (context_of context) (tree_of tree.now) (point_of at.now) (tree_of t)) }
    ensures moduli { IfOk result (λ t. Every HasModulus (tree_of t)) }
    ensures within { OnOk result (tree_put_within (context_of context) (point_of at.now) [] (normal_tree (tree_of tree.now)) ≡ true) }
    ensures stops { IfErr result (λ e. Refuses e (tree_put_within (context_of context) (point_of at.now) [] (normal_tree (tree_of tree.now)))) }
{
    let form = normal_form(alloc, tree, false)?;
    let mut names = Vec::new(alloc);
    match formula_put(alloc, context, &mut names, &form, at) {
        Ok(put) => into_tree(alloc, put).map_err(|_| Measured::Memory),
        Err(error) => Err(stopped(error)),
    }
}
