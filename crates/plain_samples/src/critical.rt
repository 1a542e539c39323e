// The critical values of a name in a formula: where its comparisons are 0.
ghost use Rattle.std.specs.Prelude.{◌≡◌, option_map};
ghost use Rattle.exact_numbers.specs.Fraction.{frac_of};
ghost use Rattle.formula_laws.specs.Equivalence.{InContext};
ghost use Rattle.logic_meaning.specs.Atoms.{atoms_in, atoms_in_all};
ghost use Rattle.normal_atoms.specs.Atoms.{context_of};
ghost use Rattle.nnf_trees.specs.Nnfs.{nnf_of, nnfs_of, IsProper};
ghost use Rattle.plain_samples.specs.Roots.{least_among};

use crate::branch::Branch;
use crate::roots::least_with_atom;
use exact_numbers::Fraction;
use linear_forms::Values;
use logic_meaning::{Side, VarId};
use nnf_trees::{Members, Nnf};
use normal_atoms::Context;
use reference_engine::formula_put;
use std::alloc::Global;
use test_points::PointError;

// The least of what may be there and of the critical values of `x`, as the side sees them, above the bound. The recursion is as
// deep as the formula is high.
#[cycle(walked)]
#[tactic(auto, using(nnf_trees::proofs::NnfEquations::nnfs, nnf_trees::proofs::AtomsOnce::listed_atoms))]
fn least_in(
    side: Side,
    x: VarId,
    bound: Option<Fraction>,
    least: Option<Fraction>,
    f: &Nnf,
) -> Option<Fraction>
    ensures { option_map frac_of result ≡ least_among side x.number (option_map frac_of bound) (option_map frac_of least) (atoms_in (nnf_of f.now)) }
{
    match f {
        Nnf::Constant(_) => least,
        Nnf::One(atom) => least_with_atom(side, x, bound, least, atom),
        Nnf::Joined(_, members) => least_in_members(side, x, bound, least, members),
        Nnf::Quantified(_, _, inner) => least_in(side, x, bound, least, inner),
    }
}

// The same of each member.
#[cycle(walked)]
fn least_in_members(
    side: Side,
    x: VarId,
    bound: Option<Fraction>,
    before: Option<Fraction>,
    fs: &Members,
) -> Option<Fraction>
    ensures { option_map frac_of result ≡ least_among side x.number (option_map frac_of bound) (option_map frac_of before) (atoms_in_all (nnfs_of fs.now)) }
{
    let mut least = before;
    for f in fs.items() {
        least = least_in(side, x, bound, least, f);
    }
    least
}

/// A branch as a tree of its own.
#[derive(Drop)]
pub(crate) struct PlainBranch<'a> {
    pub(crate) context: Context,
    pub(crate) formula: &'a Nnf,
}

impl Branch for PlainBranch<'_> {
    ghost context = { λ b. context_of b.context };

    ghost tree = { λ b. nnf_of b.formula.now };

    ghost is_formula = { λ b. IsProper b.formula.now × InContext (context_of b.context) (nnf_of b.formula.now) };

    fn next_critical(
        &self,
        alloc: Global,
        side: Side,
        x: VarId,
        bound: Option<Fraction>,
        at: &Values,
    ) -> Result<Option<Fraction>, PointError> {
        let mut names = vec![in alloc; x].map_err(|_| PointError::Memory)?;
        let put = formula_put(alloc, self.context, &mut names, self.formula, at)?;
        Ok(least_in(side, x, bound, None, &put))
    }
}
