// The leading quantifiers, from the inside out.
ghost use Rattle.std.specs.Prelude.{◌≡◌, false, IfOk};
ghost use Rattle.normal_atoms.specs.Atoms.{context_of};
ghost use Rattle.logic_meaning.specs.Reference.{branches};
ghost use Rattle.nnf_trees.specs.Nnfs.{nnf_of, IsProper};
ghost use Rattle.reference_engine.specs.Ready.{IsReady};
ghost use Rattle.reference_engine.specs.Told.{numbers};
ghost use Rattle.reference_engine.specs.Stand.{StandFor, AreSound, Tells, goes_on};

use crate::branch::{Leaf, without_points};
use crate::branches::branches;
use crate::measured::{Measured, Setting};
use crate::parts::{before, is_ex, stands_in};
use crate::step::case_steps;
use logic_meaning::VarId;
use nnf_trees::Nnf;

// The leaves of a formula that does not begin with a quantifier of the chain.
fn begun(
    setting: Setting,
    cost: &mut u64,
    names: Vec<VarId>,
    sign: bool,
    f: &Nnf,
) -> Result<Vec<Leaf>, Measured>
    requires proper { IsProper f.now }
    requires ready { IsReady (context_of setting.context) (nnf_of f.now) }
    requires begins { goes_on sign (numbers names.items) (nnf_of f.now) ≡ false }
    ensures told { Tells result cost.new (branches (context_of setting.context) setting.limit (numbers names.items) sign (nnf_of f.now) cost.old) }
    ensures sound { IfOk result (λ v. AreSound v.items) }
{
    let formulas = branches(setting, cost, names, sign, f)?;
    Ok(without_points(setting.alloc, formulas)?)
}

/// The leaves of the formula, or for false those of its negation: the names are those of the chain of quantifiers in which it
/// stands, the last first. The recursion is as deep as the chain is long.
#[tactic(auto, using(nnf_trees::proofs::NnfEquations::nnfs, crate::proofs::Chaining::begins))]
pub(crate) fn leaves(
    setting: Setting,
    cost: &mut u64,
    names: Vec<VarId>,
    sign: bool,
    f: &Nnf,
) -> Result<Vec<Leaf>, Measured>
    requires proper { IsProper f.now }
    requires ready { IsReady (context_of setting.context) (nnf_of f.now) }
    ensures told { Tells result cost.new (branches (context_of setting.context) setting.limit (numbers names.items) sign (nnf_of f.now) cost.old) }
    ensures sound { IfOk result (λ v. AreSound v.items) }
{
    match f {
        Nnf::Constant(_) | Nnf::One(_) | Nnf::Joined(..) => begun(setting, cost, names, sign, f),
        Nnf::Quantified(quantifier, x, inner) => {
            let exists = is_ex(*quantifier);
            if exists == sign && !stands_in(&names, *x) {
                let names = before(names, *x)?;
                let left = leaves(setting, cost, names, sign, inner)?;
                case_steps(setting, cost, *x, left)
            } else {
                begun(setting, cost, names, sign, f)
            }
        }
    }
}
