//! A block of `ex` with fewer names.

ghost use Rattle.std.specs.Prelude.{IfOk, map};
ghost use Rattle.std.specs.List.{AllByRecursion};
ghost use Rattle.formula_laws.specs.StandsOnce.{StandsOnce};
ghost use Rattle.logic_meaning.specs.Some.{EachOf};
ghost use Rattle.logic_meaning.specs.NormalForm.{IsNormal};
ghost use Rattle.elimination_theory.specs.Theorems.{IsTidy};
ghost use Rattle.normal_atoms.specs.Atoms.{context_of, atom_of, IsWellFormed};
ghost use Rattle.formula_tree.specs.Makers.{Keeps};
ghost use Rattle.formula_store.specs.Nodes.{tree, IsId};
ghost use Rattle.case_theory.specs.Under.{Lack};
ghost use Rattle.narrowed_blocks.specs.Narrowing.{numbers, IsNarrowedTo};

use crate::conjunction::{Conjunction, copied, joined, movable_names};
use crate::open_block::OpenBlock;
use crate::setting::Setting;
use formula_store::{FormulaId, Store};
use formula_tree::{Maker, Shape};
use logic_meaning::VarId;
use normal_atoms::{Atom, Context};
use std::alloc::{AllocError, Global};

/// What is left of a block of `ex`: its formula, and the names that it still has.
#[derive(Drop)]
pub struct NarrowedBlock {
    pub matrix: FormulaId,
    pub names: Vec<VarId>,
}

/// The block of `ex` of the names over the matrix, with fewer names where some go without a test point: where a name stands in atoms
/// alone that the matrix joins, and what these say of the other names, with some value of it, is a conjunction of atoms again. Over the
/// ordered fields each lower bound is paired with each upper one (Fourier 1826, Motzkin 1936); over the integers equations and congruences
/// are solved, and pairs of bounds are taken where they leave no gap (Pugh 1991).
///
/// Where the assumptions are true the block stays what it is. No name comes in, and of the block those stay that the result names. What
/// the search for certificates does is taken off the effort. The only error is want of memory; the formulas of the store stay.
pub fn narrowed(
    alloc: Global,
    store: &mut Store,
    context: Context,
    assumed: &[Atom],
    matrix: FormulaId,
    block: &[VarId],
    effort: &mut u64,
) -> Result<NarrowedBlock, AllocError>
    requires id { IsId store.old matrix }
    requires tidy { IsTidy (context_of context) (tree store.old matrix) }
    requires well_formed { AllByRecursion IsWellFormed assumed.now }
    requires normal { EachOf (IsNormal (context_of context)) (map atom_of assumed.now) }
    requires lack { EachOf (Lack (map atom_of assumed.now)) (numbers block.now) }
    requires once { StandsOnce (numbers block.now) }
    ensures narrowed { IfOk result (IsNarrowedTo (context_of context) (map atom_of assumed.now) (tree store.old matrix) (numbers block.now) store.new) }
    ensures kept { Keeps (IsId store.old) (tree store.old) (IsId store.new) (tree store.new) }
{
    let conjunction = Conjunction::of(alloc, store, matrix)?;
    let movable = movable_names(alloc, store, context, &conjunction.others, block)?;
    let names = copied(alloc, block)?;
    if movable.is_empty() {
        return Ok(NarrowedBlock { matrix, names });
    }
    let setting = Setting::of(alloc, context, assumed)?;
    let begun = OpenBlock {
        atoms: conjunction.atoms,
        names,
        movable,
    };
    match setting.narrowed(begun, effort)? {
        Some(left) => {
            let matrix = joined(alloc, store, left.atoms, &conjunction.others)?;
            Ok(NarrowedBlock {
                matrix,
                names: left.names,
            })
        }
        None => Ok(NarrowedBlock {
            matrix: store.make(Shape::False)?,
            names: Vec::new(alloc),
        }),
    }
}
