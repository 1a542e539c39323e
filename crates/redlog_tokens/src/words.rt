ghost use Rattle.std.specs.Prelude.{◌≡◌, ◌==◌, map, filter, length, is_some, bytes_eq};
ghost use Rattle.language_meaning.specs.Names.{keywords, is_one_of};
ghost use Rattle.language_meaning.specs.Terminals.{words, known};
ghost use Rattle.redlog_tokens.specs.TerminalList.{word_pair};

use language_meaning::Word;

/// A word with what it is to the grammar.
type Entry = (&'static str, Word);

const OF_TWO: [Entry; 3] = [("or", Word::Or), ("ex", Word::Ex), ("on", Word::On)];

const OF_THREE: [Entry; 7] = [
    ("not", Word::Not),
    ("and", Word::And),
    ("all", Word::All),
    ("neq", Word::Neq),
    ("off", Word::Off),
    ("end", Word::End),
    ("bye", Word::Bye),
];

const OF_FOUR: [Entry; 6] = [
    ("true", Word::True),
    ("impl", Word::Impl),
    ("repl", Word::Repl),
    ("cong", Word::Cong),
    ("rlqe", Word::Qe),
    ("quit", Word::Quit),
];

const OF_FIVE: [Entry; 10] = [
    ("false", Word::False),
    ("equiv", Word::Equiv),
    ("ncong", Word::Ncong),
    ("rlset", Word::Set),
    ("rlnnf", Word::Nnf),
    ("rlpnf", Word::Pnf),
    ("rldnf", Word::Dnf),
    ("rlcnf", Word::Cnf),
    ("rlqea", Word::Qea),
    ("rlopt", Word::Opt),
];

const OF_SIX: [Entry; 2] = [("rlgrid", Word::Grid), ("rlcert", Word::Cert)];

const OF_SEVEN: [Entry; 3] = [
    ("rlsimpl", Word::Simpl),
    ("rlholds", Word::Holds),
    ("rlcheck", Word::Check),
];

const OF_EIGHT: [Entry; 1] = [("rlassume", Word::Assume)];

const OF_NINE: [Entry; 2] = [("rlwitness", Word::Witness), ("rlretract", Word::Retract)];

const OF_TWELVE: [Entry; 1] = [("load_package", Word::Load)];

/// The word that a text is; none where it is no word, or one with a number.
pub fn known_word(text: &[u8]) -> Option<Word>
    ensures { result ≡ known text.now words }
{
    among(text, of_length(text.len()))
}

/// Whether the text is a word, but for those with numbers.
pub fn is_keyword(text: &[u8]) -> bool
    ensures { result ≡ is_one_of text.now keywords }
{
    known_word(text).is_some()
}

/// The words that have this length.
fn of_length(count: usize) -> &'static [Entry]
    ensures { map word_pair result.now ≡ filter (λ w. length w.0 == count) words }
{
    match count {
        2 => &OF_TWO,
        3 => &OF_THREE,
        4 => &OF_FOUR,
        5 => &OF_FIVE,
        6 => &OF_SIX,
        7 => &OF_SEVEN,
        8 => &OF_EIGHT,
        9 => &OF_NINE,
        12 => &OF_TWELVE,
        _ => &[],
    }
}

/// What the text is, if it is one of these words.
fn among(text: &[u8], entries: &[Entry]) -> Option<Word>
    ensures { result ≡ known text.now (map word_pair entries.now) }
{
    'entries: for entry in entries {
        if is(text, entry.0) {
            return Some(entry.1);
        }
    }
    None
}

/// Whether the text is this word or sign.
pub fn is(text: &[u8], word: &str) -> bool
    ensures { result ≡ bytes_eq text.now word.now }
{
    text == word.as_bytes()
}
