//! What is proved of printed texts. Each function does nothing; its contract is a law.

ghost use Rattle.round_trip.specs.Round.{TextSpells, WrittenIsResolved, TextIsReadBack, DeepTextIsNesting, HeightBoundsLevel};

/// The text of a tree with `;` behind it spells one statement, which prints the written formula of the tree. The names
/// are variables that a script can write, each once; the numbers are within the limit; conjunctions and disjunctions
/// have at least two members; the text is at most 4 MiB long and 512 levels deep.
pub fn printed_text_spells()
    ensures { TextSpells }
{}

/// The written formula of a tree of normal atoms, at most 512 high, has no cause of a refusal, brings no new name, and is
/// resolved to the tree, where nothing is bound.
pub fn written_formula_is_resolved()
    ensures { WrittenIsResolved }
{}

/// So a printed text is read back as the tree: it spells one statement, that prints a formula, which is resolved to the
/// tree under the same names and has the same text.
pub fn printed_text_is_read_back()
    ensures { TextIsReadBack }
{}

/// Where the text of such a tree is more than 512 levels deep, the reader refuses it as too deep.
pub fn deep_text_is_nesting()
    ensures { DeepTextIsNesting }
{}

/// The text of a tree at most 257 high is at most 512 levels deep.
pub fn height_bounds_level()
    ensures { HeightBoundsLevel }
{}
