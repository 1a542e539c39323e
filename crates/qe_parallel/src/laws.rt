//! What is proved of the list of answers. The function does nothing; its contract is a law.

ghost use Rattle.qe_parallel.specs.Orders.{EveryOrderGivesOneList};

use crate::worker::Worker;

/// Where each piece may have one answer alone, the list of answers is the one that is filled in the order in which the pieces
/// end, whatever that order is.
pub fn every_order_gives_one_list<W: Worker>()
    ensures { (worker : W) → EveryOrderGivesOneList (W.answers worker) }
{}
