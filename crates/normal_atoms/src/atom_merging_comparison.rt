// Two comparisons with one variable part.
ghost use Rattle.std.specs.Prelude.{◌≡◌, pos, ◌<ℤ◌, ◌*ℤ◌, MatchBool, MatchOption, IfOk};
ghost use Rattle.std.specs.Ordering.{int_cmp};
ghost use Rattle.exact_numbers.specs.Limit.{InLimit};
ghost use Rattle.exact_numbers.specs.Divides.{content_of};
ghost use Rattle.logic_meaning.specs.Atom.{Compare};
ghost use Rattle.linear_forms.specs.Combinations.{IsLinear};
ghost use Rattle.logic_meaning.specs.Terms.{coefficients};
ghost use Rattle.logic_meaning.specs.NormalForm.{IsNormal};
ghost use Rattle.normal_atoms.specs.Atoms.{context_of, relation_of};
ghost use Rattle.logic_meaning.specs.Merging.{variable_part};
ghost use Rattle.normal_atoms.specs.Merged.{IsMerging, IsDecision};
ghost use Rattle.normal_atoms.specs.Positions.{IsContentIn, IsNextBelow, IsPosition};
ghost use Rattle.normal_atoms.specs.Verdicts.{at_one, with_answers, apart, next_to, both, verdict, verdict_of, swapped, opposed, normal_comparison, IsDecisive};
ghost use Rattle.normal_atoms.specs.Computed.{placed, position, merged, merging_of, decided_by};
ghost use Rattle.normal_atoms.specs.Answered.{IsOneOrKept};

use crate::answers::Merged;
use crate::atoms::{Atom, Context, Rel};
use crate::junction::absorbing;
use crate::parts::{holds, opposite};
use crate::quotients;
use exact_numbers::{compare_fractions, sum};
use linear_forms::Linear;
use logic_meaning::Junction;
use std::alloc::{AllocError, Global};
use std::cmp::Ordering;

// Where the threshold of one comparison lies, seen from that of another: over the integers, also whether it is the number
// before or after.
#[derive(Clone, Copy)]
pub(crate) enum Position {
    Same,
    Below,
    NextBelow,
    Above,
    NextAbove,
}

// What becomes of two comparisons: nothing or everything, a relation at the first or at the second threshold, or both stay.
#[derive(Clone, Copy)]
pub(crate) enum Verdict {
    Settled,
    First(Rel),
    Second(Rel),
    Kept,
}

// Whether over the integers the threshold of v + other is the number after that of v + number.
fn is_next_below(context: Context, number: i128, other: i128) -> bool
    requires { InLimit number }
    ensures { MatchBool result (IsNextBelow (context_of context) number other) (¬ (IsNextBelow (context_of context) number other)) }
{
    match context {
        Context::Fields => false,
        Context::Integers => number - 1 == other,
    }
}

// Where the threshold of content * v + number lies, seen from that of other_content * v + other.
fn place(
    context: Context,
    content: i128,
    number: i128,
    other_content: i128,
    other: i128,
) -> Position
    requires content { IsContentIn (context_of context) content }
    requires other_content { IsContentIn (context_of context) other_content }
    requires number { InLimit number }
    requires other_number { InLimit other }
    ensures position { IsPosition (context_of context) content number other_content other result }
    ensures computed { result ≡ placed (context_of context) number other (int_cmp (other *ℤ content) (number *ℤ other_content)) }
{
    match compare_fractions(other, other_content, number, content) {
        Ordering::Equal => Position::Same,
        Ordering::Less if is_next_below(context, number, other) => Position::NextBelow,
        Ordering::Less => Position::Below,
        Ordering::Greater if is_next_below(context, other, number) => Position::NextAbove,
        Ordering::Greater => Position::Above,
    }
}

// Where the threshold of a form lies, seen from that of another: `None` exactly where their variable parts differ.
fn position_of(context: Context, form: &Linear, other: &Linear) -> Option<Position>
    requires content { IsContentIn (context_of context) (content_of (coefficients form.now.terms)) }
    requires other_content { IsContentIn (context_of context) (content_of (coefficients other.now.terms)) }
    ensures { MatchOption result (¬ (variable_part form.now.terms ≡ variable_part other.now.terms)) (λ p. (variable_part form.now.terms ≡ variable_part other.now.terms)
        × IsPosition (context_of context) (content_of (coefficients form.now.terms)) form.now.constant (content_of (coefficients other.now.terms)) other.now.constant p
        × (p ≡ position (context_of context) form.now other.now)) }
{
    let content = form.content();
    let other_content = other.content();
    if !quotients::are_same(form, content, other, other_content) {
        return None;
    }
    let number = form.constant_part();
    let other_number = other.constant_part();
    Some(place(context, content, number, other_content, other_number))
}

// The relation that holds below, at and above a threshold as told. No relation holds at all three.
fn with_answers(below: bool, at: bool, above: bool) -> Verdict
    ensures { verdict_of result ≡ with_answers below at above }
{
    match (below, at, above) {
        (false, false, false) => Verdict::Settled,
        (false, true, false) => Verdict::First(Rel::Equal),
        (true, false, true) => Verdict::First(Rel::Differs),
        (true, false, false) => Verdict::First(Rel::Less),
        (true, true, _) => Verdict::First(Rel::AtMost),
        (false, false, true) => Verdict::First(Rel::Greater),
        (false, true, true) => Verdict::First(Rel::AtLeast),
    }
}

// Both relations at one threshold.
fn at_one(relation: Rel, other: Rel) -> Verdict
    ensures { verdict_of result ≡ at_one (relation_of relation) (relation_of other) }
{
    let both = |order| holds(relation, order) && holds(other, order);
    with_answers(
        both(Ordering::Less),
        both(Ordering::Equal),
        both(Ordering::Greater),
    )
}

// The first threshold below the second: only where both hold between them neither stands for both.
fn apart(relation: Rel, other: Rel) -> Verdict
    ensures { verdict_of result ≡ apart (relation_of relation) (relation_of other) }
{
    match (
        holds(relation, Ordering::Greater),
        holds(other, Ordering::Less),
    ) {
        (true, true) => Verdict::Kept,
        (true, false) => Verdict::Second(other),
        (false, true) => Verdict::First(relation),
        (false, false) => Verdict::Settled,
    }
}

// The first threshold just below the second, with no number between them.
fn next_to(relation: Rel, other: Rel) -> Verdict
    ensures { verdict_of result ≡ next_to (relation_of relation) (relation_of other) }
{
    match (relation, other) {
        (Rel::Greater, Rel::AtMost) => Verdict::Second(Rel::Equal),
        (Rel::Greater, Rel::Differs) => Verdict::Second(Rel::Greater),
        _ => apart(relation, other),
    }
}

// The verdict where the two thresholds change places.
fn swapped(verdict: Verdict) -> Verdict
    ensures { verdict_of result ≡ swapped (verdict_of verdict) }
{
    match verdict {
        Verdict::First(relation) => Verdict::Second(relation),
        Verdict::Second(relation) => Verdict::First(relation),
        _ => verdict,
    }
}

// The verdict on two comparisons joined by `and`.
fn both(position: Position, relation: Rel, other: Rel) -> Verdict
    ensures { verdict_of result ≡ both position (relation_of relation) (relation_of other) }
{
    match position {
        Position::Same => at_one(relation, other),
        Position::Below => apart(relation, other),
        Position::NextBelow => next_to(relation, other),
        Position::Above => swapped(apart(other, relation)),
        Position::NextAbove => swapped(next_to(other, relation)),
    }
}

// The verdict with the opposite relation.
fn opposed(verdict: Verdict) -> Verdict
    ensures { verdict_of result ≡ opposed (verdict_of verdict) }
{
    match verdict {
        Verdict::First(relation) => Verdict::First(opposite(relation)),
        Verdict::Second(relation) => Verdict::Second(opposite(relation)),
        _ => verdict,
    }
}

// The verdict on two comparisons joined. Joined by `or` their opposites are joined by `and`.
fn verdict_on(junction: Junction, position: Position, relation: Rel, other: Rel) -> Verdict
    ensures { verdict_of result ≡ verdict junction position (relation_of relation) (relation_of other) }
{
    match junction {
        Junction::Conjunction => both(position, relation, other),
        Junction::Disjunction => opposed(both(position, opposite(relation), opposite(other))),
    }
}

// Whether no number meets both.
fn is_settled(verdict: Verdict) -> bool
    ensures { MatchBool result (IsDecisive (verdict_of verdict)) (¬ (IsDecisive (verdict_of verdict))) }
{
    matches!(verdict, Verdict::Settled)
}

// The form with a constant, compared.
fn compared(
    alloc: Global,
    relation: Rel,
    form: &Linear,
    constant: i128,
) -> Result<Merged, AllocError>
    requires { InLimit constant }
    ensures { IfOk result (IsOneOrKept (Compare (relation_of relation) (record { terms = form.now.terms; constant = constant }))) }
{
    let form = form.copy(alloc)?;
    Ok(Merged::One(Atom::Compare(relation, form.with_constant(constant))))
}

// The comparison as a normal atom, or `Keep` where its constant passes the limit.
fn normal_comparison(
    alloc: Global,
    context: Context,
    relation: Rel,
    form: &Linear,
) -> Result<Merged, AllocError>
    ensures one { IfOk result (IsOneOrKept (normal_comparison (context_of context) (relation_of relation) form.now)) }
    ensures given { IsLinear form.now }
{
    let constant = form.constant_part();
    let moved = match (context, relation) {
        (Context::Integers, Rel::Less) => Rel::AtMost,
        (Context::Integers, Rel::AtLeast) => Rel::Greater,
        _ => return compared(alloc, relation, form, constant),
    };
    match sum(constant, 1) {
        Some(constant) => compared(alloc, moved, form, constant),
        None => Ok(Merged::Keep),
    }
}

// Two comparisons joined.
pub(crate) fn merged(
    alloc: Global,
    context: Context,
    junction: Junction,
    relation: Rel,
    form: &Linear,
    other_relation: Rel,
    other: &Linear,
) -> Result<Merged, AllocError>
    requires normal { IsNormal (context_of context) (Compare (relation_of relation) form.now) }
    requires other_normal { IsNormal (context_of context) (Compare (relation_of other_relation) other.now) }
    ensures merged { IfOk result (IsMerging (context_of context) junction (Compare (relation_of relation) form.now) (Compare (relation_of other_relation) other.now)) }
    ensures computed { IfOk result (λ m. merging_of m ≡ merged (context_of context) junction (Compare (relation_of relation) form.now) (Compare (relation_of other_relation) other.now)) }
{
    let Some(position) = position_of(context, form, other) else {
        return Ok(Merged::Keep);
    };
    match verdict_on(junction, position, relation, other_relation) {
        Verdict::Settled => Ok(absorbing(junction)),
        Verdict::First(relation) => normal_comparison(alloc, context, relation, form),
        Verdict::Second(relation) => normal_comparison(alloc, context, relation, other),
        Verdict::Kept => Ok(Merged::Keep),
    }
}

// Whether one comparison follows from the other, or its negation does; `None` where neither. It takes no memory.
pub(crate) fn decided(
    context: Context,
    relation: Rel,
    form: &Linear,
    other_relation: Rel,
    other: &Linear,
) -> Option<bool>
    requires normal { IsNormal (context_of context) (Compare (relation_of relation) form.now) }
    requires other_normal { IsNormal (context_of context) (Compare (relation_of other_relation) other.now) }
    ensures decided { IsDecision (context_of context) (Compare (relation_of relation) form.now) (Compare (relation_of other_relation) other.now) result }
    ensures computed { result ≡ decided_by (context_of context) (Compare (relation_of relation) form.now) (Compare (relation_of other_relation) other.now) }
{
    let position = position_of(context, form, other)?;
    if is_settled(both(position, relation, opposite(other_relation))) {
        Some(true)
    } else if is_settled(both(position, relation, other_relation)) {
        Some(false)
    } else {
        None
    }
}
