//! What is proved of texts.

ghost use Rattle.redlog_printer.specs.Bound.{NodesBoundText};

/// A formula of n nodes whose conjunctions and disjunctions have at least two members has a text of at least 4 * n bytes.
#[tactic(auto, using(crate::proofs::Bounds::bounded))]
pub fn nodes_bound_text()
    ensures { NodesBoundText }
{}
