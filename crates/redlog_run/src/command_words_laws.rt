//! What holds of the words of a command line. The function does nothing; its contract is a law.

ghost use Rattle.program_meaning.specs.OptionIds.{SpellOnce};

/// Words give at most one choice of options.
pub fn words_spell_once()
    ensures { SpellOnce }
{}
