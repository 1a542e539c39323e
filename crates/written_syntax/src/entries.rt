ghost use Rattle.std.specs.Prelude.{◌≡◌};
ghost use Rattle.language_meaning.specs.declared.entries.PointEntry.{PointEntry};

use language_meaning::{Literal, PointEntry};
use logic_meaning::Name;
use std::marker::Model;

/// The entries of a point, as they are written.
#[derive(Drop)]
pub struct Entries {
    list: Vec<PointEntry>,
}

impl Model for Entries {
    ghost use Rattle.std.specs.Prelude.{List};
    ghost use Rattle.language_meaning.specs.declared.entries.PointEntry.{PointEntry};

    ghost Value = { List PointEntry };

    ghost view = { λ e. e.list.items };
}

impl Entries {
    /// These entries. It takes no memory.
    pub fn of(list: Vec<PointEntry>) -> Entries
        ensures { result ≡ list.items }
    {
        Entries { list }
    }

    /// The entries, in their order. It takes no memory.
    pub fn items(&self) -> &[PointEntry]
        ensures { result.now ≡ self.now }
    {
        &self.list
    }
}
