ghost use Rattle.std.specs.Prelude.{IfOk};
ghost use Rattle.logic_meaning.specs.Shape.{quantified};
ghost use Rattle.logic_meaning.specs.Every.{EveryOf};
ghost use Rattle.normal_atoms.specs.Atoms.{context_of, IsWellFormed};
ghost use Rattle.logic_meaning.specs.Reference.{branches, members};
ghost use Rattle.nnf_trees.specs.Nnfs.{nnf_of, nnfs_of, nnfs_atoms, IsProper, AreProper};
ghost use Rattle.reference_engine.specs.Ready.{IsReady, AreReady};
ghost use Rattle.reference_engine.specs.Told.{Told, seen, formulas_of, numbers, chained_branches, closed_branches};

use crate::measured::{Measured, Setting};
use crate::parts::{alone, before, is_ex, signed, stands_in, turned};
use crate::steps::steps;
use logic_meaning::{Junction, Quantifier, VarId};
use nnf_trees::{Members, Nnf, fold};

/// The branches of the formula, or for false those of its negation. The names are those of the chain of quantifiers in which the
/// formula stands, the last first. The recursion is as deep as the formula is high.
#[cycle(branches)]
#[tactic(auto, using(nnf_trees::proofs::NnfEquations::nnfs))]
pub fn branches(
    setting: Setting,
    cost: &mut u64,
    names: Vec<VarId>,
    sign: bool,
    f: &Nnf,
) -> Result<Vec<Nnf>, Measured>
    requires proper { IsProper f.now }
    requires ready { IsReady (context_of setting.context) (nnf_of f.now) }
    ensures told { Told (λ v. formulas_of v.items) result cost.new (seen (branches (context_of setting.context) setting.limit (numbers names.items) sign (nnf_of f.now) cost.old)) }
    ensures proper { IfOk result (λ v. AreProper v.items) }
{
    match f {
        Nnf::Constant(truth) => Ok(alone(setting.alloc, Nnf::Constant(*truth == sign))?),
        Nnf::One(atom) => {
            let atom = signed(setting.alloc, atom, sign)?;
            Ok(alone(setting.alloc, Nnf::One(atom))?)
        }
        Nnf::Joined(junction, members) => {
            let list = all_together(setting, cost, sign, members)?;
            let whole = fold(setting.alloc, junction.turned(!sign), list)?;
            Ok(alone(setting.alloc, whole)?)
        }
        Nnf::Quantified(quantifier, x, inner) => {
            quantified(setting, cost, names, sign, *quantifier, *x, inner)
        }
    }
}

// The branches of a formula under a quantifier.
#[cycle(branches)]
fn quantified(
    setting: Setting,
    cost: &mut u64,
    names: Vec<VarId>,
    sign: bool,
    quantifier: Quantifier,
    x: VarId,
    f: &Nnf,
) -> Result<Vec<Nnf>, Measured>
    requires proper { IsProper f.now }
    requires ready { IsReady (context_of setting.context) (nnf_of f.now) }
    ensures told { Told (λ v. formulas_of v.items) result cost.new (seen (branches (context_of setting.context) setting.limit (numbers names.items) sign (quantified quantifier x.number (nnf_of f.now)) cost.old)) }
    ensures proper { IfOk result (λ v. AreProper v.items) }
{
    let exists = is_ex(quantifier);
    if exists == sign && !stands_in(&names, x) {
        chained(setting, cost, names, sign, x, f)
    } else {
        closed(setting, cost, exists == sign, exists, x, f)
    }
}

// The branches under a quantifier with which the chain of its names goes on.
#[cycle(branches)]
fn chained(
    setting: Setting,
    cost: &mut u64,
    names: Vec<VarId>,
    sign: bool,
    x: VarId,
    f: &Nnf,
) -> Result<Vec<Nnf>, Measured>
    requires proper { IsProper f.now }
    requires ready { IsReady (context_of setting.context) (nnf_of f.now) }
    ensures told { Told (λ v. formulas_of v.items) result cost.new (chained_branches (context_of setting.context) setting.limit (numbers names.items) sign x.number (nnf_of f.now) cost.old) }
    ensures proper { IfOk result (λ v. AreProper v.items) }
{
    let names = before(names, x)?;
    let left = branches(setting, cost, names, sign, f)?;
    steps(setting, cost, x, left)
}

// The only branch under a quantifier which ends a chain.
#[cycle(branches)]
fn closed(
    setting: Setting,
    cost: &mut u64,
    sign: bool,
    inner_sign: bool,
    x: VarId,
    f: &Nnf,
) -> Result<Vec<Nnf>, Measured>
    requires proper { IsProper f.now }
    requires ready { IsReady (context_of setting.context) (nnf_of f.now) }
    ensures told { Told (λ v. formulas_of v.items) result cost.new (closed_branches (context_of setting.context) setting.limit sign inner_sign x.number (nnf_of f.now) cost.old) }
    ensures proper { IfOk result (λ v. AreProper v.items) }
{
    let left = chained(setting, cost, Vec::new(setting.alloc), inner_sign, x, f)?;
    let whole = fold(setting.alloc, Junction::Disjunction, left)?;
    let whole = turned(setting.alloc, sign, whole)?;
    Ok(alone(setting.alloc, whole)?)
}

// Each member, or for false its negation, without quantifiers.
#[cycle(branches)]
fn all_together(
    setting: Setting,
    cost: &mut u64,
    sign: bool,
    fs: &Members,
) -> Result<Vec<Nnf>, Measured>
    requires proper { EveryOf IsWellFormed (nnfs_atoms fs.now) }
    requires ready { AreReady (context_of setting.context) (nnfs_of fs.now) }
    ensures told { Told (λ v. formulas_of v.items) result cost.new (members (context_of setting.context) setting.limit sign (nnfs_of fs.now) cost.old) }
    ensures proper { IfOk result (λ v. AreProper v.items) }
{
    let mut made = Vec::new(setting.alloc);
    for f in fs.items() {
        let left = branches(setting, cost, Vec::new(setting.alloc), sign, f)?;
        let whole = fold(setting.alloc, Junction::Disjunction, left)?;
        made.push(whole)?;
    }
    Ok(made)
}
