//! The parts of a formula as they are read, and the formulas made over them.

ghost use Rattle.std.specs.Prelude.{◌≡◌, ◌++◌, List, ℕ, [], max, Some, IfOk, OnOk};
ghost use Rattle.std.specs.Option.{option_to_list, ForSome};
ghost use Rattle.normal_atoms.specs.Atoms.{context_of, IsWellFormedNormal};
ghost use Rattle.formula_tree.specs.Makers.{Keeps};
ghost use Rattle.logic_meaning.specs.Tree.{Tree};
ghost use Rattle.logic_meaning.specs.Bindings.{bound_to};
ghost use Rattle.language_meaning.specs.Answers.{with_inner};
ghost use Rattle.language_meaning.specs.Resolving.{BoundTrees};
ghost use Rattle.formula_resolving.specs.BoundIds.{AreIds, trees_bound};
ghost use Rattle.formula_tree.specs.Shapes.{AllIds, IsProperShape};
ghost use Rattle.formula_resolving.specs.Parts.{IsFinished, IsNamePart};
ghost use Rattle.formula_resolving.specs.MetCauses.{atom_causes, either, is_fields, no_causes};
ghost use Rattle.formula_resolving.specs.Connectives.{joined_shape, negated_shape, normal_shape, opening_shape, pair_shape};

use crate::causes::{Causes, told};
use crate::numbering::bound_formula;
use formula_tree::{Bindings, Ids, Maker, Shape};
use logic_meaning::{Junction, Name, Quantifier, VarId};
use normal_atoms::{Context, Normal};
use std::alloc::{AllocError, Global};
use written_atoms::ReadAtom;

/// What is read of a formula: the causes in it, its height, and the resolved formula where it is not refused.
#[derive(Clone, Copy)]
pub struct Part<Id> {
    pub(crate) causes: Causes,
    pub(crate) height: u64,
    pub(crate) id: Option<Id>,
}

/// What is read of the members of a list: the causes in them, the greatest height, and the resolved formulas.
#[derive(Drop)]
pub struct Members<Id> {
    pub(crate) causes: Causes,
    pub(crate) height: u64,
    pub(crate) ids: Vec<Id>,
}

/// A quantifier, and the number of its name.
#[derive(Clone, Copy)]
pub(crate) struct Opening {
    pub quantifier: Quantifier,
    pub name: VarId,
}

impl Opening {
    /// The formula with the quantifier before it; `None` where it is not there.
    pub(crate) fn over<Id: Copy>(self, inner: Option<Id>) -> Option<Shape<Id>>
        ensures { result ≡ opening_shape self inner }
    {
        let inner = inner?;
        match self.quantifier {
            Quantifier::Exists => Some(Shape::Ex(self.name, inner)),
            Quantifier::ForAll => Some(Shape::All(self.name, inner)),
        }
    }
}

/// The negation of the formula; `None` where it is not there.
pub(crate) fn negation<Id: Copy>(inner: Option<Id>) -> Option<Shape<Id>>
    ensures { result ≡ negated_shape inner }
{
    let inner = inner?;
    Some(Shape::Not(inner))
}

/// The formula of a normal atom; `None` where it is not there.
fn normal_shape<Id>(normal: Option<Normal>) -> Option<Shape<Id>>
    ensures { result ≡ normal_shape normal }
{
    match normal {
        None => None,
        Some(Normal::True) => Some(Shape::True),
        Some(Normal::False) => Some(Shape::False),
        Some(Normal::One(atom)) => Some(Shape::One(atom)),
    }
}

/// The list with these members.
pub(crate) fn joined<Id>(junction: Junction, ids: Vec<Id>) -> Shape<Id>
    ensures { result ≡ joined_shape junction ids.items }
{
    match junction {
        Junction::Conjunction => Shape::And(Ids::of(ids)),
        Junction::Disjunction => Shape::Or(Ids::of(ids)),
    }
}

/// A connective of two formulas.
#[derive(Clone, Copy)]
pub enum Pair {
    Impl,
    Repl,
    Equiv,
}

impl Pair {
    /// The two formulas with the connective between them; `None` where one is not there.
    pub(crate) fn over<Id: Copy>(self, left: Option<Id>, right: Option<Id>) -> Option<Shape<Id>>
        ensures { result ≡ pair_shape self left right }
    {
        let left = left?;
        let right = right?;
        match self {
            Pair::Impl => Some(Shape::Impl(left, right)),
            Pair::Repl => Some(Shape::Repl(left, right)),
            Pair::Equiv => Some(Shape::Equiv(left, right)),
        }
    }
}

impl<Id: Copy> Members<Id> {
    /// No members.
    pub fn none(alloc: Global) -> Members<Id>
        ensures causes { result.causes ≡ no_causes }
        ensures height { result.height ≡ 0 }
        ensures ids { result.ids.items ≡ [] }
    {
        Members {
            causes: Causes::none(),
            height: 0,
            ids: Vec::new(alloc),
        }
    }

    /// Takes in one more member. An `Err` is want of memory, after which the members are of no use.
    pub fn add(&mut self, member: Part<Id>) -> Result<(), AllocError>
        ensures causes { OnOk result (self.new.causes ≡ either self.old.causes member.causes) }
        ensures height { OnOk result (self.new.height ≡ max self.old.height member.height) }
        ensures ids { OnOk result (self.new.ids.items ≡ self.old.ids.items ++ option_to_list member.id) }
    {
        self.causes = self.causes.or(member.causes);
        self.height = self.height.max(member.height);
        if let Some(id) = member.id {
            self.ids.push(id)?;
        }
        Ok(())
    }
}

/// Makes the shape, if it is there and not refused for these causes at this height.
pub(crate) fn finish<M: Maker>(
    causes: Causes,
    height: u64,
    shape: Option<Shape<M::Id>>,
    maker: &mut M,
) -> Result<Part<M::Id>, AllocError>
    requires ids { ForSome shape (AllIds (M.is_id maker.old)) }
    requires proper { ForSome shape IsProperShape }
    ensures finished { IfOk result (IsFinished (M.is_id maker.new) (M.tree maker.old) (M.tree maker.new) causes height shape) }
    ensures kept { Keeps (M.is_id maker.old) (M.tree maker.old) (M.is_id maker.new) (M.tree maker.new) }
{
    if causes.refuse(height) {
        return Ok(Part {
            causes,
            height,
            id: None,
        });
    }
    let Some(shape) = shape else {
        return Ok(Part {
            causes,
            height,
            id: None,
        });
    };
    match maker.make(shape) {
        Ok(id) => Ok(Part {
            causes,
            height,
            id: Some(id),
        }),
        Err(_) => Err(AllocError),
    }
}

/// The part of a comparison or congruence that was read; `congruence` says whether it is a congruence over the fields.
pub(crate) fn atom_part<M: Maker>(
    read: ReadAtom,
    congruence: bool,
    maker: &mut M,
) -> Result<Part<M::Id>, AllocError>
    requires { ForSome read.normal IsWellFormedNormal }
    ensures finished { IfOk result (IsFinished (M.is_id maker.new) (M.tree maker.old) (M.tree maker.new) (atom_causes read.causes congruence) 1 (normal_shape read.normal)) }
    ensures kept { Keeps (M.is_id maker.old) (M.tree maker.old) (M.is_id maker.new) (M.tree maker.new) }
{
    let causes = Causes {
        unbound: false,
        nonlinear: read.causes.nonlinear,
        division: read.causes.division,
        congruence,
        modulus: read.causes.modulus,
        overflow: read.causes.overflow,
    };
    finish(causes, 1, normal_shape(read.normal), maker)
}

/// Whether the theory is that of the fields.
pub(crate) fn is_fields(context: Context) -> bool
    ensures { result ≡ is_fields (context_of context) }
{
    match context {
        Context::Fields => true,
        Context::Integers => false,
    }
}

/// The part of a name that stands for a formula that was made.
pub(crate) fn made_part<M: Maker>(id: M::Id, maker: &M) -> Part<M::Id>
    requires { M.is_id maker.now id }
    ensures { (bound : BoundTrees) (x : List ℕ) → bound_to bound x ≡ Some (M.tree maker.now id) → IsNamePart bound (M.is_id maker.now) (M.tree maker.now) x result }
{
    Part {
        causes: Causes::none(),
        height: told(maker.height(id)),
        id: Some(id),
    }
}

/// The part of a name that a script writes as a formula.
pub(crate) fn name_part<M: Maker>(name: &Name, bound: &Bindings<M::Id>, maker: &M) -> Part<M::Id>
    requires { AreIds (M.is_id maker.now) bound.now }
    ensures { (answers : List Tree) → IsNamePart (with_inner answers (trees_bound (M.tree maker.now) bound.now)) (M.is_id maker.now) (M.tree maker.now) name.now result }
{
    match bound_formula(name, bound) {
        Some(id) => made_part(id, maker),
        None => Part {
            causes: Causes::nothing_bound(),
            height: 1,
            id: None,
        },
    }
}
