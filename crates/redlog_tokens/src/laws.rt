//! Laws of tokens and pieces, each the contract of a function with an empty body, so that the check proves it.
ghost use Rattle.std.specs.Prelude.{◌≡◌, ℕ, ◌⊎◌, List};
ghost use Rattle.language_meaning.specs.declared.lexer.Lexeme.{Lexeme};
ghost use Rattle.language_meaning.specs.Lexing.{Lexes};
ghost use Rattle.redlog_tokens.specs.Longest.{AreLongest};
ghost use Rattle.language_meaning.specs.Pieces.{HasNoTokenFrom, IsPiece};

/// No longer token begins at the place of one that the bytes spell.
pub fn longest_tokens()
    ensures { (bytes : List ℕ) (ts : List Lexeme) → Lexes bytes 0 ts → AreLongest bytes ts }
{}

/// From each place on a script has no token or a next piece, never both, and the next piece is one.
pub fn one_piece()
    ensures some { (script : List ℕ) (from : ℕ) → HasNoTokenFrom script from ⊎ ((start : ℕ) × (end : ℕ) × IsPiece script from start end) }
    ensures not_both { (script : List ℕ) (from start end : ℕ) → HasNoTokenFrom script from → IsPiece script from start end → ⊥ }
    ensures one { (script : List ℕ) (from start end start2 end2 : ℕ) → IsPiece script from start end → IsPiece script from start2 end2 → (start ≡ start2) × (end ≡ end2) }
{}
