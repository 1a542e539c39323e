//! What an expression of a script in SMT-LIB 2.6 means, as definitions and theorems about them. Each function does nothing; its
//! contract is a theorem.
#![tactic(auto)]

ghost use Rattle.smt_meaning.specs.Laws.{LevelsSuffice, NothingIsCaptured};

/// The names of the levels of the declared and the quantified names suffice, and each atom is one of the theory.
pub fn levels_suffice()
    ensures { LevelsSuffice }
{}

/// No name that is free in what a symbol stands for is captured where the symbol stands inside a quantifier.
pub fn nothing_is_captured()
    ensures { NothingIsCaptured }
{}
