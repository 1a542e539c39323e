//! What is proved of case trees. The function does nothing: its contract is the law.

ghost use Rattle.logic_meaning.specs.Context.{Context};
ghost use Rattle.engine_answers.specs.CaseTrees.{GuardsTogetherSay};

/// The guards together are equivalent to their disjunction and have its free names, and they are tidy where each guard is and none
/// of several is a constant.
pub fn guards_joined_are_their_disjunction()
    ensures { (c : Context) → GuardsTogetherSay c }
{}
