ghost use Rattle.std.specs.Prelude.{◌≡◌, ◌∷◌, [], ◌<◌, length, IfSome, MatchOption};
ghost use Rattle.redlog_reader.specs.Reader.{after_mark, number_read, name_read, after_equal, relation_of, relation_read};

use language_meaning::{Literal, Mark, Relation, Terminal, Word};
use logic_meaning::Name;

/// The first terminal, and the tokens after it.
pub fn next(tokens: &[Terminal]) -> Option<(Terminal, &[Terminal])>
    ensures shorter { IfSome result (λ r. length r.1.now < length tokens.now) }
    ensures value { MatchOption result (tokens.now ≡ []) (λ r. tokens.now ≡ r.0 ∷ r.1.now) }
{
    let (first, rest) = tokens.split_first()?;
    Some((*first, rest))
}

/// The tokens after this mark, where they begin with it.
pub fn after(tokens: &[Terminal], wanted: Mark) -> Option<&[Terminal]>
    ensures shorter { IfSome result (λ rest. length rest.now < length tokens.now) }
    ensures value { MatchOption result (after_mark wanted tokens.now ≡ None) (λ rest. after_mark wanted tokens.now ≡ Some rest.now) }
{
    match next(tokens) {
        Some((Terminal::Mark(mark), rest)) if mark == wanted => Some(rest),
        _ => None,
    }
}

/// The number at the front, and the tokens after it.
pub fn number(tokens: &[Terminal]) -> Option<(Literal, &[Terminal])>
    ensures { MatchOption result (number_read tokens.now ≡ None) (λ r. number_read tokens.now ≡ Some (r.0, r.1.now)) }
{
    match next(tokens) {
        Some((Terminal::Number(number), rest)) => Some((number, rest)),
        _ => None,
    }
}

/// The name at the front, and the tokens after it.
pub fn name(tokens: &[Terminal]) -> Option<(Name, &[Terminal])>
    ensures { MatchOption result (name_read tokens.now ≡ None) (λ r. name_read tokens.now ≡ Some (r.0, r.1.now)) }
{
    let Some((first, rest)) = next(tokens) else {
        return None;
    };
    match first {
        Terminal::Name(name) => Some((name, rest)),
        _ => None,
    }
}

/// The tokens after `=`, where they begin with it.
pub fn after_equal(tokens: &[Terminal]) -> Option<&[Terminal]>
    ensures { MatchOption result (after_equal tokens.now ≡ None) (λ rest. after_equal tokens.now ≡ Some rest.now) }
{
    match next(tokens) {
        Some((Terminal::Relation(Relation::Equal), rest)) => Some(rest),
        _ => None,
    }
}

/// The relation at the front, and the tokens after it.
#[tactic(auto, using(crate::proofs::Options::options))]
pub fn relation(tokens: &[Terminal]) -> Option<(Relation, &[Terminal])>
    ensures { MatchOption result (relation_read tokens.now ≡ None) (λ r. relation_read tokens.now ≡ Some (r.0, r.1.now)) }
{
    let Some((first, rest)) = next(tokens) else {
        return None;
    };
    match relation_of(&first) {
        Some(relation) => Some((relation, rest)),
        None => None,
    }
}

/// The relation that the terminal is.
fn relation_of(terminal: &Terminal) -> Option<Relation>
    ensures { result ≡ relation_of terminal.now }
{
    match terminal {
        Terminal::Relation(relation) => Some(*relation),
        Terminal::Word(Word::Neq) => Some(Relation::Differs),
        _ => None,
    }
}
