//! What a script in SMT-LIB 2.6 is answered with, as definitions, and the types of answers and refusals.
#![tactic(auto)]

ghost use Rattle.smt_theorems.specs.Commands.{SpelledCommandsAreProper};
ghost use Rattle.smt_theorems.specs.Resolved.{SentenceIsMade, SentenceIsMeant};

/// Each numeral of a command that bytes spell is from 0 to the limit or past it, and each divisor is positive.
pub fn spelled_commands_are_proper()
    ensures { SpelledCommandsAreProper }
{}

/// The resolved sentence is what is asserted, resolved and joined, under `ex` of the declared names.
pub fn sentence_is_made()
    ensures { SentenceIsMade }
{}

/// The truth of the resolved sentence is that of the sentence as it is written, and witnesses are values.
pub fn sentence_is_meant()
    ensures { SentenceIsMeant }
{}
