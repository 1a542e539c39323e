//! The distinct subformulas of a formula, in a flat list.

ghost use Rattle.std.specs.Prelude.{◌≡◌, ◌++◌, false, not, replicate, IfOk, OnOk};
ghost use Rattle.std.specs.List.{AllByRecursion};
ghost use Rattle.formula_tree.specs.Shapes.{AllIds, ids_of};
ghost use Rattle.formula_store.specs.Nodes.{IsId};
ghost use Rattle.formula_store.specs.Order.{IsOrder, Adds, Meets, is_leaf, waits};

use crate::id::FormulaId;
use crate::store::Store;
use formula_tree::Shape;
use std::alloc::{AllocError, Global};
use std::collections::BTreeSet;

// What a walk down from some formulas has met, and the numbers of those whose members are still to be met.
#[derive(Drop)]
struct Walk {
    met: Vec<FormulaId>,
    waiting: BTreeSet<usize>,
}

// The distinct subformulas of some formulas: each once, its members before it. The members of the greatest that waits have
// smaller numbers, so each is taken out once, and the time is that of the subformulas alone. One without members never waits.
pub(crate) fn subformulas(
    alloc: Global,
    store: &Store,
    roots: &[FormulaId],
) -> Result<Vec<FormulaId>, AllocError>
    requires { AllByRecursion (IsId store.now) roots.now }
    ensures { IfOk result (λ ids. IsOrder store.now roots.now ids.items) }
{
    let mut walk = Walk {
        met: Vec::new(alloc),
        waiting: BTreeSet::new(alloc),
    };
    walk.meet(store, roots)?;
    while let Some(number) = walk.waiting.pop_last() {
        walk.meet_members(store, store.shape(FormulaId { number }))?;
    }
    let Walk { met: mut ids, .. } = walk;
    ids.sort_unstable();
    ids.dedup();
    Ok(ids)
}

impl Walk {
    // Meets the members of a formula.
    fn meet_members(&mut self, store: &Store, shape: &Shape<FormulaId>) -> Result<(), AllocError>
        requires { AllIds (IsId store.now) shape.now }
        ensures met { OnOk result (self.new.met.items ≡ self.old.met.items ++ ids_of shape.now) }
        ensures waiting { OnOk result (Meets store.now (ids_of shape.now) (waits self.old.waiting) (waits self.new.waiting)) }
    {
        match shape {
            Shape::True | Shape::False | Shape::One(_) => Ok(()),
            Shape::And(ids) | Shape::Or(ids) => self.meet(store, ids.items()),
            Shape::Not(member) | Shape::Ex(_, member) | Shape::All(_, member) => {
                self.meet(store, &[*member])
            }
            Shape::Impl(left, right) | Shape::Repl(left, right) | Shape::Equiv(left, right) => {
                self.meet(store, &[*left, *right])
            }
        }
    }

    // Meets the formulas.
    fn meet(&mut self, store: &Store, ids: &[FormulaId]) -> Result<(), AllocError>
        requires { AllByRecursion (IsId store.now) ids.now }
        ensures met { OnOk result (self.new.met.items ≡ self.old.met.items ++ ids.now) }
        ensures waiting { OnOk result (Meets store.now ids.now (waits self.old.waiting) (waits self.new.waiting)) }
    {
        self.met.extend_from_slice(ids)?;
        for id in ids {
            if has_members(store.shape(*id)) {
                add(*id, &mut self.waiting)?;
            }
        }
        Ok(())
    }
}

// Whether formulas stand in one of this shape.
fn has_members(shape: &Shape<FormulaId>) -> bool
    ensures { result ≡ not (is_leaf shape.now) }
{
    !matches!(shape, Shape::True | Shape::False | Shape::One(_))
}

// Adds an id.
fn add(id: FormulaId, waiting: &mut BTreeSet<usize>) -> Result<(), AllocError>
    ensures { OnOk result (Adds id (waits waiting.old) (waits waiting.new)) }
{
    match waiting.insert(id.number) {
        Ok(_) => Ok(()),
        Err(_) => Err(AllocError),
    }
}

// So many places without a mark.
pub(crate) fn unmarked(alloc: Global, places: usize) -> Result<Vec<bool>, AllocError>
    ensures { IfOk result (λ marks. marks.items ≡ replicate places false) }
{
    let mut marks = Vec::new(alloc);
    marks.resize(places, false)?;
    Ok(marks)
}
