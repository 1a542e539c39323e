ghost use Rattle.std.specs.Prelude.{◌≡◌, ℕ, List};
ghost use Rattle.smt_language.specs.declared.names.SortedName.{SortedName};

use logic_meaning::Name;
use smt_language::SortedName;
use std::marker::Model;

/// The names that a quantifier binds, each with its sort.
#[derive(Drop)]
pub struct SortedNames {
    list: Vec<SortedName>,
}

impl Model for SortedNames {
    ghost use Rattle.std.specs.Prelude.{List};
    ghost use Rattle.smt_language.specs.declared.names.SortedName.{SortedName};

    ghost Value = { List SortedName };

    ghost view = { λ n. n.list.items };
}

impl SortedNames {
    /// These names. It takes no memory.
    pub fn of(list: Vec<SortedName>) -> SortedNames
        ensures { result ≡ list.items }
    {
        SortedNames { list }
    }

    /// The names, in their order. It takes no memory.
    pub fn items(&self) -> &[SortedName]
        ensures { result.now ≡ self.now }
    {
        &self.list
    }
}

/// The names whose values are asked for.
#[derive(Drop)]
pub struct Names {
    list: Vec<Name>,
}

impl Model for Names {
    ghost use Rattle.std.specs.Prelude.{List, ℕ};

    ghost Value = { List (List ℕ) };

    ghost view = { λ n. n.list.items };
}

impl Names {
    /// These names. It takes no memory.
    pub fn of(list: Vec<Name>) -> Names
        ensures { result ≡ list.items }
    {
        Names { list }
    }

    /// The names, in their order. It takes no memory.
    pub fn items(&self) -> &[Name]
        ensures { result.now ≡ self.now }
    {
        &self.list
    }
}
