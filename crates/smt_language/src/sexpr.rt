ghost use Rattle.std.specs.Prelude.{◌≡◌};
ghost use Rattle.smt_language.specs.SExprLists.{leaf_of};
ghost use Rattle.smt_language.specs.SpelledShapes.{symbol_in, numeral_in};

use crate::token::SmtToken;
use language_meaning::Literal;
use logic_meaning::Name;

/// A token that is no parenthesis and is not bad.
#[derive(Clone, Copy)]
pub enum Leaf {
    Numeral(Literal),
    Decimal(Literal, Literal),
    Symbol(Name),
    /// A symbol of no byte or of more than 64.
    Unfit,
    Text,
    Keyword,
}

impl Leaf {
    /// The leaf that a token is, where it is one.
    pub fn of(token: SmtToken) -> Option<Leaf>
        ensures { result ≡ leaf_of token }
    {
        match token {
            SmtToken::Numeral(number) => Some(Leaf::Numeral(number)),
            SmtToken::Decimal(digits, power) => Some(Leaf::Decimal(digits, power)),
            SmtToken::Symbol(name) => Some(Leaf::Symbol(name)),
            SmtToken::Unfit => Some(Leaf::Unfit),
            SmtToken::Text => Some(Leaf::Text),
            SmtToken::Keyword => Some(Leaf::Keyword),
            SmtToken::Open | SmtToken::Close | SmtToken::Bad => None,
        }
    }

    /// The text of a symbol.
    pub fn symbol(&self) -> Option<Name>
        ensures { result ≡ symbol_in self.now }
    {
        match self {
            Leaf::Symbol(name) => Some(*name),
            _ => None,
        }
    }

    /// The number of a numeral.
    pub fn numeral(&self) -> Option<Literal>
        ensures { result ≡ numeral_in self.now }
    {
        match self {
            Leaf::Numeral(number) => Some(*number),
            _ => None,
        }
    }
}
