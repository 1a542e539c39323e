//! Laws of tokens and commands, each the contract of a function with an empty body, so that the check proves it.
ghost use Rattle.std.specs.Prelude.{◌≡◌, ℕ, List};
ghost use Rattle.smt_language.specs.declared.token.SmtLexeme.{SmtLexeme};
ghost use Rattle.smt_language.specs.declared.token.SmtCut.{SmtCut};
ghost use Rattle.smt_language.specs.Lexing.{Lexes};
ghost use Rattle.smt_tokens.specs.Longest.{AreLongest, AreTexts};
ghost use Rattle.smt_language.specs.Commands.{AreCommands};

/// All bytes spell exactly one list of tokens, bad ones among them.
pub fn one_list_of_tokens()
    ensures some { (bytes : List ℕ) → (ts : List SmtLexeme) × Lexes bytes 0 ts }
    ensures one { (bytes : List ℕ) (ts us : List SmtLexeme) → Lexes bytes 0 ts → Lexes bytes 0 us → ts ≡ us }
{}

/// Each token that is not bad has the text of one, and no longer text of a token begins at its place, nor at that of a bad one.
pub fn longest_tokens()
    ensures texts { (bytes : List ℕ) (ts : List SmtLexeme) → Lexes bytes 0 ts → AreTexts bytes ts }
    ensures longest { (bytes : List ℕ) (ts : List SmtLexeme) → Lexes bytes 0 ts → AreLongest bytes ts }
{}

/// All bytes have exactly one list of commands.
pub fn one_list_of_commands()
    ensures some { (bytes : List ℕ) → (commands : List SmtCut) × AreCommands bytes commands }
    ensures one { (bytes : List ℕ) (commands others : List SmtCut) → AreCommands bytes commands → AreCommands bytes others → commands ≡ others }
{}
