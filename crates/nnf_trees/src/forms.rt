ghost use Rattle.std.specs.Prelude.{◌≡◌, ◌∷◌, [], IfOk, not, if◌then◌else◌};
ghost use Rattle.logic_meaning.specs.Fold.{joined};
ghost use Rattle.logic_meaning.specs.Every.{Every, EveryOf};
ghost use Rattle.logic_meaning.specs.NegationNormal.{both};
ghost use Rattle.normal_atoms.specs.Atoms.{atom_of, IsWellFormed};
ghost use Rattle.logic_meaning.specs.NormalForm.{negated_normal};
ghost use Rattle.formula_tree.specs.Trees.{tree_of, trees_of};
ghost use Rattle.nnf_trees.specs.Nnfs.{nnf_of, nnfs_of, nnfs_atoms, IsProper, HasModulus};
ghost use Rattle.nnf_trees.specs.Forms.{form, forms};

use crate::nnf::{Members, Nnf};
use formula_tree::{Tree, Trees};
use logic_meaning::{Junction, Quantifier};
use normal_atoms::{Atom, negate};
use std::alloc::{AllocError, Global};

/// The negation normal form of the formula, or of its negation. The recursion is as deep as the formula is high.
#[cycle(made)]
#[tactic(auto, using(formula_tree::proofs::TreeEquations::trees, crate::proofs::NnfEquations::nnfs))]
pub fn normal_form(alloc: Global, f: &Tree, negated: bool) -> Result<Nnf, AllocError>
    requires { Every HasModulus (tree_of f.now) }
    ensures form { IfOk result (λ r. nnf_of r ≡ form negated (tree_of f.now)) }
    ensures proper { IfOk result IsProper }
{
    match f {
        Tree::True => Ok(Nnf::Constant(!negated)),
        Tree::False => Ok(Nnf::Constant(negated)),
        Tree::One(atom) => Ok(Nnf::One(signed(alloc, atom, negated)?)),
        Tree::And(fs) => {
            let members = normal_forms(alloc, fs, negated)?;
            Ok(Nnf::Joined(Junction::Conjunction.turned(negated), members))
        }
        Tree::Or(fs) => {
            let members = normal_forms(alloc, fs, negated)?;
            Ok(Nnf::Joined(Junction::Disjunction.turned(negated), members))
        }
        Tree::Not(g) => normal_form(alloc, g, !negated),
        Tree::Impl(g, h) => {
            let left = normal_form(alloc, g, !negated)?;
            let right = normal_form(alloc, h, negated)?;
            pair(alloc, Junction::Disjunction.turned(negated), left, right)
        }
        Tree::Repl(g, h) => {
            let left = normal_form(alloc, g, negated)?;
            let right = normal_form(alloc, h, !negated)?;
            pair(alloc, Junction::Disjunction.turned(negated), left, right)
        }
        Tree::Equiv(g, h) => {
            let left = normal_form(alloc, g, false)?;
            let right = normal_form(alloc, h, negated)?;
            let first = pair(alloc, Junction::Conjunction, left, right)?;
            let left = normal_form(alloc, g, true)?;
            let right = normal_form(alloc, h, !negated)?;
            let second = pair(alloc, Junction::Conjunction, left, right)?;
            pair(alloc, Junction::Disjunction, first, second)
        }
        Tree::Ex(x, g) => {
            let inner = Box::new(alloc, normal_form(alloc, g, negated)?)?;
            Ok(Nnf::Quantified(Quantifier::Exists.turned(negated), *x, inner))
        }
        Tree::All(x, g) => {
            let inner = Box::new(alloc, normal_form(alloc, g, negated)?)?;
            Ok(Nnf::Quantified(Quantifier::ForAll.turned(negated), *x, inner))
        }
    }
}

// The forms of the members.
#[cycle(made)]
fn normal_forms(alloc: Global, fs: &Trees, negated: bool) -> Result<Members, AllocError>
    requires { EveryOf HasModulus (trees_of fs.now) }
    ensures forms { IfOk result (λ r. nnfs_of r ≡ forms negated (trees_of fs.now)) }
    ensures proper { IfOk result (λ r. EveryOf IsWellFormed (nnfs_atoms r)) }
{
    let mut made = Vec::new(alloc);
    for f in fs.items() {
        made.push(normal_form(alloc, f, negated)?)?;
    }
    Ok(Members::of(made))
}

// The atom, or the one of the opposite truth.
fn signed(alloc: Global, atom: &Atom, negated: bool) -> Result<Atom, AllocError>
    requires { HasModulus (atom_of atom.now) }
    ensures atom { IfOk result (λ a. atom_of a ≡ (if negated then negated_normal (atom_of atom.now) else atom_of atom.now)) }
    ensures well_formed { IfOk result IsWellFormed }
{
    let copy = well_formed(alloc, atom)?;
    if negated {
        negate(alloc, &copy).map_err(|_| AllocError)
    } else {
        Ok(copy)
    }
}

// The atom with a positive modulus.
fn well_formed(alloc: Global, atom: &Atom) -> Result<Atom, AllocError>
    requires { HasModulus (atom_of atom.now) }
    ensures atom { IfOk result (λ a. atom_of a ≡ atom_of atom.now) }
    ensures well_formed { IfOk result IsWellFormed }
{
    match atom {
        Atom::Compare(relation, form) => {
            let form = form.copy(alloc).map_err(|_| AllocError)?;
            Ok(Atom::Compare(*relation, form))
        }
        Atom::Congruent {
            holds,
            modulus,
            form,
        } => {
            let form = form.copy(alloc).map_err(|_| AllocError)?;
            Ok(Atom::Congruent {
                holds: *holds,
                modulus: modulus.abs(),
                form,
            })
        }
    }
}

// The two formulas joined.
#[tactic(auto, using(crate::proofs::NnfEquations::nnfs))]
fn pair(alloc: Global, junction: Junction, f: Nnf, g: Nnf) -> Result<Nnf, AllocError>
    requires first { IsProper f }
    requires second { IsProper g }
    ensures joined { IfOk result (λ r. nnf_of r ≡ joined junction (both (nnf_of f) (nnf_of g))) }
    ensures proper { IfOk result IsProper }
{
    let list = vec![in alloc; f, g]?;
    Ok(Nnf::Joined(junction, Members::of(list)))
}
