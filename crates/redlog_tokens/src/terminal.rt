ghost use Rattle.std.specs.Prelude.{◌≡◌};
ghost use Rattle.language_meaning.specs.Terminals.{word_of, sign_of};

use crate::words::known_word;
use language_meaning::{Literal, Mark, Relation, Terminal, Word};
use logic_meaning::Name;

/// The word that a text is.
#[tactic(auto, unfolding(language_meaning::specs::Terminals::word_of))]
pub(crate) fn word_of(word: &[u8]) -> Word
    ensures { result ≡ word_of word.now }
{
    known_word(word).unwrap_or(Word::Other)
}

/// The terminal that a sign is.
#[tactic(auto, unfolding(language_meaning::specs::Terminals::sign_of))]
pub(crate) fn sign_of(sign: &[u8]) -> Terminal
    ensures { result ≡ sign_of sign.now }
{
    match sign {
        [b'+'] => Terminal::Mark(Mark::Plus),
        [b'-'] => Terminal::Mark(Mark::Minus),
        [b'*'] => Terminal::Mark(Mark::Times),
        [b'/'] => Terminal::Mark(Mark::Slash),
        [b'^'] | [b'*', b'*'] => Terminal::Mark(Mark::Power),
        [b'('] => Terminal::Mark(Mark::Open),
        [b')'] => Terminal::Mark(Mark::Close),
        [b'{'] => Terminal::Mark(Mark::OpenBrace),
        [b'}'] => Terminal::Mark(Mark::CloseBrace),
        [b','] => Terminal::Mark(Mark::Comma),
        [b';'] => Terminal::Mark(Mark::Semicolon),
        [b'$'] => Terminal::Mark(Mark::Dollar),
        [b':', b'='] => Terminal::Mark(Mark::Assign),
        [b'='] => Terminal::Relation(Relation::Equal),
        [b'<', b'>'] => Terminal::Relation(Relation::Differs),
        [b'<'] => Terminal::Relation(Relation::Less),
        [b'<', b'='] => Terminal::Relation(Relation::AtMost),
        [b'>'] => Terminal::Relation(Relation::Greater),
        [b'>', b'='] => Terminal::Relation(Relation::AtLeast),
        _ => Terminal::Word(Word::Other),
    }
}
