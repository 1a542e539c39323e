ghost use Rattle.std.specs.Prelude.{ℕ, SomeIff, ◌<◌, ◌^◌, ◌≡◌};
ghost use Rattle.logic_meaning.specs.Measured.{pay};
ghost use Rattle.nnf_trees.specs.Forms.{limited};
ghost use Rattle.reference_engine.specs.Told.{Told, the_unit};
ghost use Rattle.reference_engine.specs.declared.measured.Measured.TheVariants.{Memory};

use normal_atoms::Context;
use std::alloc::{AllocError, AllocFailed, Global};
use thiserror::Error;

/// What stops a measured computation.
#[derive(Clone, Copy, Debug, PartialEq, Eq, Drop, Error)]
pub enum Measured {
    /// A number passes 2^127 - 1.
    #[error("a number passes the limit")]
    Overflow,
    /// The computation would cost more nodes than the limit.
    #[error("the formula is too large")]
    Nodes,
    /// There is no memory left.
    #[error("out of memory")]
    Memory,
}

impl From<AllocError> for Measured {
    ghost from_gives = { λ _ e. e ≡ Memory };

    fn from(_error: AllocError) -> Measured {
        Measured::Memory
    }
}

impl<T: Drop> From<AllocFailed<T>> for Measured {
    ghost from_gives = { λ _ e. e ≡ Memory };

    fn from(_error: AllocFailed<T>) -> Measured {
        Measured::Memory
    }
}

/// What stays the same during a computation.
#[derive(Clone, Copy)]
pub struct Setting {
    pub alloc: Global,
    pub context: Context,
    pub limit: u64,
}

/// Adds the nodes to the cost; `Nodes` comes exactly where the sum passes the limit.
pub fn pay(limit: u64, cost: &mut u64, nodes: Option<u64>) -> Result<(), Measured>
    ensures { (n : ℕ) → nodes ≡ limited n → Told the_unit result cost.new (pay limit n cost.old) }
{
    match nodes {
        Some(nodes) if *cost <= limit && nodes <= limit - *cost => {
            *cost += nodes;
            Ok(())
        }
        _ => Err(Measured::Nodes),
    }
}
