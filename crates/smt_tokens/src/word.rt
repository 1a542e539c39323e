ghost use Rattle.std.specs.Prelude.{◌≡◌, map, bytes_eq};
ghost use Rattle.smt_language.specs.Words.{words, known, word_of, logic_of};
ghost use Rattle.smt_tokens.specs.WordPairs.{word_pair};

use logic_meaning::Quantifier;
use smt_language::{Operator, Sort, Word};

const WORDS: [(&'static str, Word); 30] = [
    ("set-logic", Word::SetLogic),
    ("set-info", Word::SetInfo),
    ("set-option", Word::SetOption),
    ("declare-const", Word::DeclareConst),
    ("declare-fun", Word::DeclareFun),
    ("assert", Word::Assert),
    ("check-sat", Word::CheckSat),
    ("get-value", Word::GetValue),
    ("exit", Word::Exit),
    ("true", Word::True),
    ("false", Word::False),
    ("not", Word::Operator(Operator::Not)),
    ("and", Word::Operator(Operator::And)),
    ("or", Word::Operator(Operator::Or)),
    ("=>", Word::Operator(Operator::Implies)),
    ("=", Word::Operator(Operator::Equal)),
    ("<", Word::Operator(Operator::Less)),
    ("<=", Word::Operator(Operator::AtMost)),
    (">", Word::Operator(Operator::Greater)),
    (">=", Word::Operator(Operator::AtLeast)),
    ("distinct", Word::Operator(Operator::Distinct)),
    ("_", Word::Underscore),
    ("divisible", Word::Divisible),
    ("forall", Word::Quantifier(Quantifier::ForAll)),
    ("exists", Word::Quantifier(Quantifier::Exists)),
    ("let", Word::Let),
    ("+", Word::Operator(Operator::Plus)),
    ("*", Word::Operator(Operator::Times)),
    ("-", Word::Operator(Operator::Minus)),
    ("/", Word::Operator(Operator::Divided)),
];

/// What a symbol is, where it is reserved.
#[tactic(auto, unfolding(smt_language::specs::Words::word_of))]
pub fn word_of(text: &[u8]) -> Option<Word>
    ensures { result ≡ word_of text.now }
{
    among(text, &WORDS)
}

/// What the text is, if it is one of these symbols.
fn among(text: &[u8], entries: &[(&'static str, Word)]) -> Option<Word>
    ensures { result ≡ known text.now (map word_pair entries.now) }
{
    'entries: for entry in entries {
        if is(text, entry.0) {
            return Some(entry.1);
        }
    }
    None
}

/// The sort of the numbers of a logic; of another symbol there is none.
#[tactic(auto, unfolding(smt_language::specs::Words::logic_of))]
pub fn logic_of(text: &[u8]) -> Option<Sort>
    ensures { result ≡ logic_of text.now }
{
    if is(text, "LRA") || is(text, "QF_LRA") {
        return Some(Sort::Real);
    }
    if is(text, "LIA") || is(text, "QF_LIA") {
        return Some(Sort::Int);
    }
    None
}

/// Whether the texts are the same.
fn is(text: &[u8], word: &str) -> bool
    ensures { result ≡ bytes_eq text.now word.now }
{
    text == word.as_bytes()
}
