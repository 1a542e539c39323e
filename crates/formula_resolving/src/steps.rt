//! What is read of a formula, from what is read of its members.

ghost use Rattle.std.specs.Prelude.{◌≡◌, ℕ, List, [], IfOk, IfErr, OnOk};
ghost use Rattle.std.specs.List.{AllByRecursion};
ghost use Rattle.std.specs.Option.{ForSome};
ghost use Rattle.logic_meaning.specs.Context as meaning;
ghost use Rattle.logic_meaning.specs.Fold.{joined, neutral};
ghost use Rattle.logic_meaning.specs.Formula.{One, Not};
ghost use Rattle.logic_meaning.specs.Shape.{quantified};
ghost use Rattle.normal_atoms.specs.Atoms.{context_of, IsWellFormedNormal};
ghost use Rattle.written_atoms.specs.Read.{IsRead, congruence_tree};
ghost use Rattle.language_meaning.specs.declared.tree.Relation.{Relation};
ghost use Rattle.language_meaning.specs.Trees.{TermTree, FormulaTree, Compare, formulas_of};
ghost use Rattle.written_atoms.specs.FromResolvedFormulas.{IsAccepted};
ghost use Rattle.formula_tree.specs.Makers.{Keeps};
ghost use Rattle.language_meaning.specs.Resolving.{BoundTrees};
ghost use Rattle.logic_meaning.specs.Names.{place};
ghost use Rattle.formula_resolving.specs.Connectives.{paired};
ghost use Rattle.formula_resolving.specs.MetCauses.{IsRefused};
ghost use Rattle.formula_resolving.specs.Parts.{IsPart, IsToldAlone, AreMembers};
ghost use Rattle.formula_resolving.specs.FirstCause.{IsFirstCause};

use crate::causes::{Causes, above};
use crate::parts::{Members, Opening, Pair, Part, atom_part, finish, is_fields, joined, negation};
use formula_tree::{Maker, Shape};
use language_meaning::StaticError;
use logic_meaning::{Junction, Quantifier, VarId};
use normal_atoms::Context;
use std::alloc::AllocError;
use written_atoms::ReadAtom;

/// What is read of the junction of no formulas: true of a conjunction, false of a disjunction. An `Err` is want of memory.
pub fn constant_part<M: Maker>(junction: Junction, maker: &mut M) -> Result<Part<M::Id>, AllocError>
    ensures read { IfOk result (λ r. (c : meaning.Context) (bound : BoundTrees) (names : List (List ℕ)) → IsPart c bound names (M.is_id maker.new) (M.tree maker.new) (neutral junction) r) }
    ensures ids { IfOk result (λ r. ForSome r.id (M.is_id maker.new)) }
    ensures kept { Keeps (M.is_id maker.old) (M.tree maker.old) (M.is_id maker.new) (M.tree maker.new) }
{
    match junction {
        Junction::Conjunction => finish(Causes::none(), 1, Some(Shape::True), maker),
        Junction::Disjunction => finish(Causes::none(), 1, Some(Shape::False), maker),
    }
}

/// What is read of the comparison of two terms. An `Err` is want of memory.
pub fn compared_part<M: Maker>(read: ReadAtom, maker: &mut M) -> Result<Part<M::Id>, AllocError>
    requires { ForSome read.normal IsWellFormedNormal }
    ensures read { IfOk result (λ r. (c : meaning.Context) (bound : BoundTrees) (names : List (List ℕ)) (rel : Relation) (s t : TermTree) → IsRead c bound (place names) (Compare rel s t) read
        → IsPart c bound names (M.is_id maker.new) (M.tree maker.new) (One (Compare rel s t)) r) }
    ensures ids { IfOk result (λ r. ForSome r.id (M.is_id maker.new)) }
    ensures kept { Keeps (M.is_id maker.old) (M.tree maker.old) (M.is_id maker.new) (M.tree maker.new) }
{
    atom_part(read, false, maker)
}

/// What is read of the congruence of two terms modulo a third, or for false of its negation. An `Err` is want of memory.
pub fn congruent_part<M: Maker>(
    context: Context,
    holds: bool,
    read: ReadAtom,
    maker: &mut M,
) -> Result<Part<M::Id>, AllocError>
    requires { ForSome read.normal IsWellFormedNormal }
    ensures read { IfOk result (λ r. (bound : BoundTrees) (names : List (List ℕ)) (s t m : TermTree) → IsRead (context_of context) bound (place names) (congruence_tree holds s t m) read
        → IsPart (context_of context) bound names (M.is_id maker.new) (M.tree maker.new) (One (congruence_tree holds s t m)) r) }
    ensures ids { IfOk result (λ r. ForSome r.id (M.is_id maker.new)) }
    ensures kept { Keeps (M.is_id maker.old) (M.tree maker.old) (M.is_id maker.new) (M.tree maker.new) }
{
    atom_part(read, is_fields(context), maker)
}

/// What is read of the negation. An `Err` is want of memory.
pub fn negated_part<M: Maker>(part: Part<M::Id>, maker: &mut M) -> Result<Part<M::Id>, AllocError>
    requires { ForSome part.id (M.is_id maker.old) }
    ensures read { IfOk result (λ r. (c : meaning.Context) (bound : BoundTrees) (names : List (List ℕ)) (f : FormulaTree) → IsPart c bound names (M.is_id maker.old) (M.tree maker.old) f part
        → IsPart c bound names (M.is_id maker.new) (M.tree maker.new) (Not f) r) }
    ensures ids { IfOk result (λ r. ForSome r.id (M.is_id maker.new)) }
    ensures kept { Keeps (M.is_id maker.old) (M.tree maker.old) (M.is_id maker.new) (M.tree maker.new) }
{
    finish(part.causes, above(part.height), negation(part.id), maker)
}

/// What is read of the formula with a quantifier before it, over the name of this number. An `Err` is want of memory.
pub fn quantified_part<M: Maker>(
    quantifier: Quantifier,
    name: VarId,
    part: Part<M::Id>,
    maker: &mut M,
) -> Result<Part<M::Id>, AllocError>
    requires { ForSome part.id (M.is_id maker.old) }
    ensures read { IfOk result (λ r. (c : meaning.Context) (bound : BoundTrees) (names : List (List ℕ)) (x : List ℕ) (f : FormulaTree) → place names x ≡ name.number → IsPart c bound names (M.is_id maker.old) (M.tree maker.old) f part
        → IsPart c bound names (M.is_id maker.new) (M.tree maker.new) (quantified quantifier x f) r) }
    ensures ids { IfOk result (λ r. ForSome r.id (M.is_id maker.new)) }
    ensures kept { Keeps (M.is_id maker.old) (M.tree maker.old) (M.is_id maker.new) (M.tree maker.new) }
{
    let opening = Opening { quantifier, name };
    finish(
        part.causes,
        above(part.height),
        opening.over(part.id),
        maker,
    )
}

/// What is read of two formulas with a connective between them. An `Err` is want of memory.
pub fn paired_part<M: Maker>(
    pair: Pair,
    left: Part<M::Id>,
    right: Part<M::Id>,
    maker: &mut M,
) -> Result<Part<M::Id>, AllocError>
    requires left { ForSome left.id (M.is_id maker.old) }
    requires right { ForSome right.id (M.is_id maker.old) }
    ensures read { IfOk result (λ r. (c : meaning.Context) (bound : BoundTrees) (names : List (List ℕ)) (f g : FormulaTree) → IsPart c bound names (M.is_id maker.old) (M.tree maker.old) f left
        → IsPart c bound names (M.is_id maker.old) (M.tree maker.old) g right → IsPart c bound names (M.is_id maker.new) (M.tree maker.new) (paired pair f g) r) }
    ensures ids { IfOk result (λ r. ForSome r.id (M.is_id maker.new)) }
    ensures kept { Keeps (M.is_id maker.old) (M.tree maker.old) (M.is_id maker.new) (M.tree maker.new) }
{
    finish(
        left.causes.or(right.causes),
        above(left.height.max(right.height)),
        pair.over(left.id, right.id),
        maker,
    )
}

/// What is read of the junction of the members. An `Err` is want of memory.
pub fn joined_part<M: Maker>(
    junction: Junction,
    members: Members<M::Id>,
    maker: &mut M,
) -> Result<Part<M::Id>, AllocError>
    requires { AllByRecursion (M.is_id maker.old) members.ids.items }
    ensures read { IfOk result (λ r. (c : meaning.Context) (bound : BoundTrees) (names : List (List ℕ)) (fs : List FormulaTree) → AreMembers c bound names (M.is_id maker.old) (M.tree maker.old) fs members
        → IsPart c bound names (M.is_id maker.new) (M.tree maker.new) (joined junction (formulas_of fs)) r) }
    ensures ids { IfOk result (λ r. ForSome r.id (M.is_id maker.new)) }
    ensures kept { Keeps (M.is_id maker.old) (M.tree maker.old) (M.is_id maker.new) (M.tree maker.new) }
{
    let Members {
        causes,
        height,
        ids,
    } = members;
    finish(causes, above(height), Some(joined(junction, ids)), maker)
}

impl<Id: Copy> Part<Id> {
    /// The resolved formula, or the first cause for which it is refused, where nothing is bound.
    pub fn accepted(self) -> Result<Id, StaticError>
        requires { self.id ≡ None → IsRefused self.causes self.height }
        ensures id { IfOk result (λ id. self.id ≡ Some id) }
        ensures accepted { OnOk result ((c : meaning.Context) (names : List (List ℕ)) (f : FormulaTree) → IsToldAlone c names f self → IsAccepted c [] names f) }
        ensures refused { IfErr result (λ e. (c : meaning.Context) (names : List (List ℕ)) (f : FormulaTree) → IsToldAlone c names f self → IsFirstCause c [] names f e) }
    {
        match self.causes.first(false, self.height) {
            Some(cause) => Err(cause),
            None => match self.id {
                Some(id) => Ok(id),
                None => unreachable!(),
            },
        }
    }
}
