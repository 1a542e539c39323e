//! Work on numbered pieces, shared out to threads: the list of answers is that of one thread.
#![tactic(auto)]

mod error;
mod gate;
mod laws;
mod sharing;
mod worker;

pub use error::FanError;
pub use gate::{Gate, OpenGate};
pub use laws::every_order_gives_one_list;
pub use sharing::fan_out;
pub use worker::Worker;
