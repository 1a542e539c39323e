//! What the statements of a script share, as the session keeps it.

ghost use Rattle.std.specs.Prelude.{◌≡◌, [], OnOk, IfOk, length};
ghost use Rattle.std.specs.Map.{keys_of};
ghost use Rattle.normal_atoms.specs.Atoms.{context_of};
ghost use Rattle.session_state.specs.Keeping.{state_of, IsSessionState, ids_bound};
ghost use Rattle.program_meaning.specs.State.{first_state, chosen};

use crate::standing::Standing;
use formula_store::{FormulaId, Store};
use formula_tree::{Bindings, Names};
use normal_atoms::Context;
use std::alloc::{AllocError, Global};

/// So many formulas may be in the store before any is given up.
const FEW_FORMULAS: usize = 4096;

/// The theory, the names, what is bound, what is assumed, and the formulas. Its invariant is the record `IsSessionState` and no model's: the engines
/// borrow the store and the names at once, and until a statement is answered the names may have grown.
#[derive(Drop)]
pub struct SessionState {
    pub alloc: Global,
    pub context: Context,
    pub names: Names,
    pub bindings: Bindings<FormulaId>,
    pub standing: Standing,
    /// The answers of the commands inside the formula that is looked at, in the order of the text; none between statements.
    pub answers: Vec<FormulaId>,
    pub store: Store,
    /// How many formulas the store had when some were given up last.
    pub(crate) kept: usize,
}

impl SessionState {
    /// Over the ordered fields, without names and without assumptions.
    pub fn new(alloc: Global) -> SessionState
        ensures state { state_of result ≡ first_state }
        ensures session { IsSessionState result }
    {
        SessionState {
            alloc,
            context: Context::Fields,
            names: Names::new(alloc),
            bindings: Bindings::new(alloc),
            standing: Standing::new(alloc),
            answers: Vec::new(alloc),
            store: Store::new(alloc),
            kept: 0,
        }
    }

    /// Chooses the theory. Another one than before drops what is bound, what is assumed, and answers.
    pub fn choose(&mut self, context: Context)
        requires { IsSessionState self.old }
        ensures session { IsSessionState self.new }
        ensures chosen { state_of self.new ≡ chosen (state_of self.old) (context_of context) }
    {
        if self.context != context {
            self.bindings.clear();
            self.standing.clear();
            self.answers.clear();
            self.context = context;
        }
    }

    /// Between statements, gives up the formulas that nothing bound needs, where the store has more than twice those that it had the last
    /// time. After an `Err` nothing is bound.
    pub fn tidy(&mut self) -> Result<(), AllocError>
        requires session { IsSessionState self.old }
        requires settled { self.old.answers.items ≡ [] }
        ensures session { IsSessionState self.new }
        ensures settled { self.new.answers.items ≡ [] }
        ensures state { OnOk result (state_of self.new ≡ state_of self.old) }
    {
        if self.store.len() / 2 <= self.kept.saturating_add(FEW_FORMULAS) {
            return Ok(());
        }
        let roots = bound_ids(self.alloc, &self.bindings)?;
        let Ok(ids) = self.store.keep_only(&roots) else {
            return Err(AllocError);
        };
        match rebound(self.alloc, &self.bindings, &ids) {
            Ok(bindings) => {
                self.bindings = bindings;
                self.kept = self.store.len();
                Ok(())
            }
            Err(error) => {
                self.bindings.clear();
                Err(error)
            }
        }
    }
}

/// The ids of what is bound, in order.
fn bound_ids(alloc: Global, bindings: &Bindings<FormulaId>) -> Result<Vec<FormulaId>, AllocError>
    ensures ids { IfOk result (λ ids. ids.items ≡ ids_bound bindings.now) }
{
    let mut ids = Vec::new(alloc);
    for place in 0..bindings.len() {
        let Some(id) = bindings.bound_at(place) else {
            unreachable!()
        };
        ids.push(id)?;
    }
    Ok(ids)
}

/// The names of what is bound, with these ids in place of theirs.
fn rebound(
    alloc: Global,
    bindings: &Bindings<FormulaId>,
    ids: &[FormulaId],
) -> Result<Bindings<FormulaId>, AllocError>
    requires { length ids.now ≡ length bindings.now }
    ensures names { IfOk result (λ new. keys_of new ≡ keys_of bindings.now) }
    ensures ids { IfOk result (λ new. ids_bound new ≡ ids.now) }
{
    let mut new = Bindings::new(alloc);
    for place in 0..bindings.len() {
        let Some(name) = bindings.name_at(place) else {
            unreachable!()
        };
        if let Err(_failed) = new.put(&name, ids[place]) {
            return Err(AllocError);
        }
    }
    Ok(new)
}
