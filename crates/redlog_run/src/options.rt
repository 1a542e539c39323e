ghost use Rattle.std.specs.Prelude.{◌≡◌, Some, is_some};
ghost use Rattle.program_meaning.specs.CommandWords.{name_of, greatest_of, given, with_value};
ghost use Rattle.program_meaning.specs.OptionIds.{id_of};

use program_meaning::Choice;

/// The options, in the order of the form.
pub const CHOICES: [Choice; 3] = [Choice::Nodes, Choice::Workers, Choice::Generate];

/// The word of the flag that says that the script is in SMT-LIB.
pub const SMT_FLAG: &str = "--smt";

/// The name of the flag, without the hyphens before it.
pub const SMT_ID: &str = "smt";
