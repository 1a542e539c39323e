// The leading quantifiers, from the inside out, with the formula in which they begin.
ghost use Rattle.std.specs.Prelude.{◌≡◌, ℕ, List, false, IfOk};
ghost use Rattle.logic_meaning.specs.Some.{EachOf};
ghost use Rattle.normal_atoms.specs.Atoms.{context_of};
ghost use Rattle.logic_meaning.specs.Reference.{Branch, branches, steps};
ghost use Rattle.sample_reference.specs.Traced.{IsTraced};
ghost use Rattle.nnf_trees.specs.Nnfs.{nnf_of, IsProper, AreProper};
ghost use Rattle.reference_engine.specs.Ready.{IsReady};
ghost use Rattle.reference_engine.specs.Told.{numbers, formulas_of};
ghost use Rattle.reference_engine.specs.Stand.{StandFor, AreInside, goes_on};
ghost use Rattle.plain_samples.specs.Rooted.{Tells, IsSound, first_or_yes};

use crate::copying::copied;
use logic_meaning::VarId;
use nnf_trees::Nnf;
use reference_engine::branches::branches;
use reference_engine::{
    Leaf, Measured, Setting, before, case_steps, is_ex, stands_in, without_points,
};
use std::alloc::{AllocError, Global};

/// Leaves, and the formula behind the leading quantifiers from which their points led to them.
#[derive(Drop)]
pub(crate) struct Rooted {
    pub root: Nnf,
    pub leaves: Vec<Leaf>,
}

// A copy of the first formula, true where there is none.
fn first_copied(alloc: Global, formulas: &[Nnf]) -> Result<Nnf, AllocError>
    requires { AreProper formulas.now }
    ensures formula { IfOk result (λ f. nnf_of f ≡ first_or_yes (formulas_of formulas.now)) }
    ensures proper { IfOk result IsProper }
{
    match formulas.first() {
        Some(formula) => copied(alloc, formula),
        None => Ok(Nnf::Constant(true)),
    }
}

// The leaves of a formula that does not begin with a quantifier of the chain.
fn begun(
    setting: Setting,
    cost: &mut u64,
    names: Vec<VarId>,
    sign: bool,
    f: &Nnf,
) -> Result<Rooted, Measured>
    requires proper { IsProper f.now }
    requires ready { IsReady (context_of setting.context) (nnf_of f.now) }
    requires begins { goes_on sign (numbers names.items) (nnf_of f.now) ≡ false }
    ensures told { Tells (context_of setting.context) result cost.new (branches (context_of setting.context) setting.limit (numbers names.items) sign (nnf_of f.now) cost.old) }
    ensures sound { IfOk result IsSound }
{
    let formulas = branches(setting, cost, names, sign, f)?;
    let root = first_copied(setting.alloc, &formulas)?;
    let leaves = without_points(setting.alloc, formulas)?;
    Ok(Rooted { root, leaves })
}

// One step for `x` of each leaf, in their order.
fn stepped(setting: Setting, cost: &mut u64, x: VarId, rooted: Rooted) -> Result<Rooted, Measured>
    requires sound { IsSound rooted }
    requires inside { AreInside (context_of setting.context) rooted.leaves.items }
    ensures told { (bs : List Branch) → StandFor rooted.leaves.items bs → EachOf (IsTraced (context_of setting.context) (nnf_of rooted.root)) bs → Tells (context_of setting.context) result cost.new (steps (context_of setting.context) setting.limit x.number bs cost.old) }
    ensures sound { IfOk result IsSound }
{
    let Rooted { root, leaves } = rooted;
    let leaves = case_steps(setting, cost, x, leaves)?;
    Ok(Rooted { root, leaves })
}

/// The leaves of the formula, or for false those of its negation: the names are those of the chain of quantifiers in which it
/// stands, the last first. The recursion is as deep as the chain is long.
#[tactic(auto, using(nnf_trees::proofs::NnfEquations::nnfs, reference_engine::proofs::Chaining::begins))]
pub(crate) fn rooted_leaves(
    setting: Setting,
    cost: &mut u64,
    names: Vec<VarId>,
    sign: bool,
    f: &Nnf,
) -> Result<Rooted, Measured>
    requires proper { IsProper f.now }
    requires ready { IsReady (context_of setting.context) (nnf_of f.now) }
    ensures told { Tells (context_of setting.context) result cost.new (branches (context_of setting.context) setting.limit (numbers names.items) sign (nnf_of f.now) cost.old) }
    ensures sound { IfOk result IsSound }
{
    match f {
        Nnf::Constant(_) | Nnf::One(_) | Nnf::Joined(..) => begun(setting, cost, names, sign, f),
        Nnf::Quantified(quantifier, x, inner) => {
            let exists = is_ex(*quantifier);
            if exists == sign && !stands_in(&names, *x) {
                let names = before(names, *x)?;
                let inside = rooted_leaves(setting, cost, names, sign, inner)?;
                stepped(setting, cost, *x, inside)
            } else {
                begun(setting, cost, names, sign, f)
            }
        }
    }
}
