//! Test points put into shared formulas, with what they give as text.

ghost use Rattle.std.specs.Prelude.{◌≤◌, length, IfSome};
ghost use Rattle.logic_meaning.specs.FieldsSubstitution.{IsFieldPlace};
ghost use Rattle.formula_store.specs.Nodes.{IsId};
ghost use Rattle.test_points.specs.Points.{place_of, IsTestPoint};
ghost use Rattle.gate_point_calls.specs.Taking.{Takes, StillTakes};

use crate::points::{A, X, above_a};
use formula_store::{Delta, FormulaId, Store};
use formula_tree::{Ids, Maker, Shape};
use gate_texts::{tell, unfolded_text};
use linear_forms::Linear;
use logic_meaning::{Junction, VarId};
use normal_atoms::{Atom, Context, Rel};
use qe_parallel::OpenGate;
use std::alloc::Global;
use std::io;
use std::thread::Threads;
use test_points::{Place, TestPoint};
use virtual_subst::{substitute_all, substitute_shared};

const B: VarId = VarId { number: 2 };

/// Test points put into shared formulas.
pub(crate) fn rows<R: Threads + Sync + Print + AllocGlobal>(rt: &R) -> io::Result<()> {
    let alloc = rt.alloc();
    tell(rt, "a shared formula at two points", put_at_both(alloc))?;
    let at_once = put_at_both_at_once(rt, alloc);
    tell(rt, "the same by two threads", at_once)?;
    let large = put_in_large(alloc);
    tell(rt, "a large shared formula at a point", large)
}

/// The point of `x` below all numbers.
fn far_below(alloc: Global) -> TestPoint
    ensures well_formed { IsTestPoint result }
    ensures place { IsFieldPlace (place_of result) }
{
    TestPoint {
        name: X,
        place: Place::MinusInfinity,
        form: Linear::constant(alloc, 0),
        over: 1,
        period: 0,
    }
}

/// The id of the comparison of `x - name` with 0.
fn compared(alloc: Global, store: &mut Store, relation: Rel, name: VarId) -> Option<FormulaId>
    ensures made { IfSome result (Takes store.new) }
    ensures kept { StillTakes store.old store.new }
{
    let x = Linear::variable(alloc, X).ok()?;
    let other = Linear::variable(alloc, name).ok()?;
    let form = x.combine(alloc, 1, &other, -1).ok()?;
    let id = store.make(Shape::One(Atom::Compare(relation, form))).ok()?;
    Some(id)
}

/// The id of two formulas joined.
fn joined(
    alloc: Global,
    store: &mut Store,
    junction: Junction,
    first: FormulaId,
    second: FormulaId,
) -> Option<FormulaId>
    requires first { Takes store.old first }
    requires second { Takes store.old second }
    ensures made { IfSome result (Takes store.new) }
    ensures kept { StillTakes store.old store.new }
{
    let ids = Ids::of(vec![in alloc; first, second].ok()?);
    match junction {
        Junction::Conjunction => store.make(Shape::And(ids)).ok(),
        Junction::Disjunction => store.make(Shape::Or(ids)).ok(),
    }
}

/// The id of `x - a > 0 and x - b < 0`.
fn between(alloc: Global, store: &mut Store) -> Option<FormulaId>
    ensures made { IfSome result (Takes store.new) }
{
    let above = compared(alloc, store, Rel::Greater, A)?;
    let below = compared(alloc, store, Rel::Less, B)?;
    joined(alloc, store, Junction::Conjunction, above, below)
}

/// What `x - a > 0 and x - b < 0` becomes where `x` is below all numbers, and where it is infinitesimally above `a`.
fn put_at_both(alloc: Global) -> Option<String> {
    let mut store = Store::new(alloc);
    let id = between(alloc, &mut store)?;
    let low = substitute_shared(alloc, &store, Context::Fields, id, &far_below(alloc)).ok()?;
    let high = substitute_shared(alloc, &store, Context::Fields, id, &above_a(alloc)?).ok()?;
    texts_of_both(alloc, store, low, high)
}

/// The same, with each of the two points put in by a thread of its own.
fn put_at_both_at_once<R: Threads + Sync>(rt: &R, alloc: Global) -> Option<String> {
    let mut store = Store::new(alloc);
    let id = between(alloc, &mut store)?;
    let points = vec![in alloc; far_below(alloc), above_a(alloc)?].ok()?;
    let mut deltas = substitute_all(
        rt,
        alloc,
        &store,
        Context::Fields,
        id,
        &points,
        2,
        &OpenGate::new(),
    )
    .ok()?;
    let high = deltas.pop()?;
    let low = deltas.pop()?;
    texts_of_both(alloc, store, low, high)
}

/// The texts of two formulas that were made beside the store, taken in one after the other.
fn texts_of_both(alloc: Global, store: Store, low: Delta, high: Delta) -> Option<String>
    requires low { low.begun ≤ length store }
    requires high { high.begun ≤ length store }
{
    let mut store = store;
    let low = store.absorb(low).ok()?;
    let high = store.absorb(high).ok()?;
    let low = unfolded_text(alloc, &store, low)?;
    let high = unfolded_text(alloc, &store, high)?;
    format!(in alloc; "{low}, {high}").ok()
}

/// A formula of 2^41 - 1 nodes, of which 41 are distinct, with its name put infinitesimally above `a`: lists of two equal members,
/// an `or` in each `and` and an `and` in each `or`.
fn put_in_large(alloc: Global) -> Option<String> {
    let mut store = Store::new(alloc);
    let mut id = compared(alloc, &mut store, Rel::Less, B)?;
    for level in 0..40 {
        let junction = if level % 2 == 0 {
            Junction::Conjunction
        } else {
            Junction::Disjunction
        };
        id = joined(alloc, &mut store, junction, id, id)?;
    }
    let delta = substitute_shared(alloc, &store, Context::Fields, id, &above_a(alloc)?).ok()?;
    let put = store.absorb(delta).ok()?;
    let nodes = store.facts(put).nodes;
    let distinct = store.distinct(put).ok()?;
    format!(in alloc; "{nodes} nodes, {distinct} of them distinct").ok()
}
