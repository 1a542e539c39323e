//! What the eliminations and grids of statements are worked with.

ghost use Rattle.std.specs.Prelude.{◌≡◌};

use engine_answers::{Engine, Limits};
use qe_parallel::Gate;
use session_state::SessionState;
use std::thread::Threads;

/// What the eliminations and grids of statements are worked with: the limits of the session, and a runtime whose threads a gate lets through.
#[derive(Drop)]
pub struct Workshop<'a, R, G> {
    pub rt: &'a R,
    pub limits: Limits,
    pub gate: &'a G,
}

impl<R: Threads + Sync, G: Gate + Sync> Workshop<'_, R, G> {
    /// An engine in the theory of the state.
    pub fn engine(&self, state: &SessionState) -> Engine<'_, R, G>
        ensures context { result.context ≡ state.now.context }
        ensures limits { result.limits ≡ self.now.limits }
    {
        Engine {
            rt: self.rt,
            alloc: state.alloc,
            context: state.context,
            limits: self.limits,
            gate: self.gate,
        }
    }
}
