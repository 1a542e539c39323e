//! Sources and sinks of bytes that count their faults: in memory, steady, and over real streams. Beside them a third end, which is told of
//! refusals, and the places that it is told.
//!
//! The counts are what a fault can be blamed on: a caller that answers "the read failed" can be held to it.
#![tactic(auto)]

mod copy;
mod memory;
mod place;
mod steady;
mod stop;
mod streams;
mod teller;
mod write;

ghost use Rattle.std.specs.Prelude.{ℕ, ◌≡◌, ◌≤◌, ◌<◌, ◌↔◌, List, Option, length, take, IfOk, OnOk, OnErr};
ghost use Rattle.program_meaning.specs.Streams.{Gave, IsAtEnd, Took, Rose};

pub use memory::{MemorySink, MemorySource, SinkError};
pub use place::{Place, PlaceCounter, Places};
pub use steady::{SteadySink, SteadySource};
pub use stop::{AnswerStop, StreamStop};
pub use streams::{StdSink, StdSource};
pub use teller::{Cause, Nobody, Refusal, Teller};
use thiserror::Error;
pub use write::write_all;
