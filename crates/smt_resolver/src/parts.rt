//! What is read of a list of formulas, with their nodes, and their junction.

ghost use Rattle.std.specs.Prelude.{◌≡◌, ◌≤◌, [], List, IfOk};
ghost use Rattle.std.specs.List.{AllByRecursion};
ghost use Rattle.std.specs.Option.{ForSome};
ghost use Rattle.logic_meaning.specs.Context as meaning;
ghost use Rattle.language_meaning.specs.Trees.{FormulaTree};
ghost use Rattle.formula_tree.specs.Makers.{Keeps};
ghost use Rattle.smt_language.specs.Shapes.{joined_of};
ghost use Rattle.smt_resolver.specs.Values.{IsFormulaValue, AreFormulaValues, HasId, ArePartsOf, HaveIds, IsAdded};

use crate::sized::{Sized, counted};
use formula_resolving::{Members, Part, joined_part};
use formula_tree::Maker;
use logic_meaning::Junction;
use std::alloc::{AllocError, Global};

/// What is read of a formula, with its nodes.
pub type FormulaValue<Id> = Sized<Part<Id>>;

/// What is read of the formulas of a list, which have so many nodes together.
#[derive(Drop)]
pub(crate) struct Parts<Id> {
    pub(crate) nodes: u64,
    pub(crate) parts: Vec<Part<Id>>,
}

impl<Id: Copy> Parts<Id> {
    /// No formulas.
    pub(crate) fn none(alloc: Global) -> Parts<Id>
        ensures nodes { result.nodes ≡ 0 }
        ensures parts { result.parts.items ≡ [] }
    {
        Parts {
            nodes: 0,
            parts: Vec::new(alloc),
        }
    }

    /// Takes in one formula more, and answers whether they are not too large together; else they are of no use any more. An
    /// `Err` is want of memory.
    pub(crate) fn add(&mut self, limit: u64, value: &FormulaValue<Id>) -> Result<bool, AllocError>
        ensures { IfOk result (λ b. IsAdded limit self.old value.now b self.new) }
    {
        let Sized::Within { nodes: more, read } = value else {
            return Ok(false);
        };
        let Some(nodes) = counted(limit, self.nodes, *more) else {
            return Ok(false);
        };
        self.parts.push(*read)?;
        self.nodes = nodes;
        Ok(true)
    }
}

/// The same once more.
pub(crate) fn same<Id: Copy>(value: &FormulaValue<Id>) -> FormulaValue<Id>
    ensures { result ≡ value.now }
{
    match value {
        Sized::Within { nodes, read } => Sized::Within {
            nodes: *nodes,
            read: *read,
        },
        Sized::TooLarge => Sized::TooLarge,
    }
}

/// The junction of the formulas, where one alone stands for itself; too large where they are not there. An `Err` is want of
/// memory.
pub(crate) fn joined<M: Maker>(
    alloc: Global,
    limit: u64,
    junction: Junction,
    parts: Option<Parts<M::Id>>,
    maker: &mut M,
) -> Result<FormulaValue<M::Id>, AllocError>
    requires within { ForSome parts (λ p. p.nodes ≤ limit) }
    requires ids { ForSome parts (HaveIds (M.is_id maker.old)) }
    ensures read { IfOk result (λ r. (c : meaning.Context) (fs : List FormulaTree) → ArePartsOf c limit (M.is_id maker.old) (M.tree maker.old) fs parts → IsFormulaValue c limit (M.is_id maker.new) (M.tree maker.new) (joined_of junction fs) r) }
    ensures ids { IfOk result (HasId (M.is_id maker.new)) }
    ensures kept { Keeps (M.is_id maker.old) (M.tree maker.old) (M.is_id maker.new) (M.tree maker.new) }
{
    let Some(parts) = parts else {
        return Ok(Sized::TooLarge);
    };
    if parts.parts.len() == 1 {
        return Ok(Sized::Within {
            nodes: parts.nodes,
            read: parts.parts[0],
        });
    }
    let Some(nodes) = counted(limit, parts.nodes, 1) else {
        return Ok(Sized::TooLarge);
    };
    let mut members = Members::none(alloc);
    for part in &parts.parts {
        members.add(*part)?;
    }
    let read = joined_part(junction, members, maker)?;
    Ok(Sized::Within { nodes, read })
}

/// The junction of the formulas that were read, where one alone stands for itself. An `Err` is want of memory.
pub(crate) fn joint<M: Maker>(
    alloc: Global,
    limit: u64,
    junction: Junction,
    values: &[FormulaValue<M::Id>],
    maker: &mut M,
) -> Result<FormulaValue<M::Id>, AllocError>
    requires { AllByRecursion (HasId (M.is_id maker.old)) values.now }
    ensures read { IfOk result (λ r. (c : meaning.Context) (fs : List FormulaTree) → AreFormulaValues c limit (M.is_id maker.old) (M.tree maker.old) fs values.now → IsFormulaValue c limit (M.is_id maker.new) (M.tree maker.new) (joined_of junction fs) r) }
    ensures ids { IfOk result (HasId (M.is_id maker.new)) }
    ensures kept { Keeps (M.is_id maker.old) (M.tree maker.old) (M.is_id maker.new) (M.tree maker.new) }
{
    let mut parts = Parts::none(alloc);
    for value in values {
        if !parts.add(limit, value)? {
            return Ok(Sized::TooLarge);
        }
    }
    joined(alloc, limit, junction, Some(parts), maker)
}
