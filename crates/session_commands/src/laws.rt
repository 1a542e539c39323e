//! Laws of replies. Each function does nothing; its contract is a law.

ghost use Rattle.session_commands.specs.Accepted.{TruthIsNeverRefused};

/// The statement `true` is refused in no state and under no limit.
#[tactic(auto, using(crate::proofs::Accepted::truth_is_never_refused))]
pub fn truth_is_never_refused()
    ensures { TruthIsNeverRefused }
{}
