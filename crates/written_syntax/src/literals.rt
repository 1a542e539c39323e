ghost use Rattle.std.specs.Prelude.{◌≡◌};
ghost use Rattle.language_meaning.specs.declared.tree.Literal.{Literal};

use language_meaning::Literal;
use std::marker::Model;

/// Whole numbers as they are written. A `-` makes one negative.
#[derive(Drop)]
pub struct Literals {
    list: Vec<Literal>,
}

impl Model for Literals {
    ghost use Rattle.std.specs.Prelude.{List};
    ghost use Rattle.language_meaning.specs.declared.tree.Literal.{Literal};

    ghost Value = { List Literal };

    ghost view = { λ l. l.list.items };
}

impl Literals {
    /// These numbers. It takes no memory.
    pub fn of(list: Vec<Literal>) -> Literals
        ensures { result ≡ list.items }
    {
        Literals { list }
    }

    /// The numbers, in their order. It takes no memory.
    pub fn items(&self) -> &[Literal]
        ensures { result.now ≡ self.now }
    {
        &self.list
    }
}
