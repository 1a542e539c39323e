//! What holds of the answers to scripts. The function does nothing; its contract is a law.

ghost use Rattle.smtlib_front.specs.NoRefusal.{UnrefusedSmtScriptsHaveNoRefusal};

/// A script whose commands have no cause of a refusal is answered without one.
pub fn unrefused_smt_scripts_have_no_refusal()
    ensures { UnrefusedSmtScriptsHaveNoRefusal }
{}
