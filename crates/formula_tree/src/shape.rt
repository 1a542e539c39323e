ghost use Rattle.std.specs.Cmp.Lexicographic.{pointwise, lists_per, lists_equiv};
ghost use Rattle.std.specs.Hash as fed;

use logic_meaning::VarId;
use normal_atoms::Atom;
use std::hash::{Hash, Hasher};
use std::marker::Model;

/// A list of ids of formulas.
#[derive(Drop)]
pub struct Ids<Id> {
    list: Vec<Id>,
}

impl<Id> Model for Ids<Id> {
    ghost use Rattle.std.specs.Coded.{coded_list};
    ghost use Rattle.std.specs.Prelude.{List};

    ghost Value = { List Id };

    ghost coded = { coded_list Id.code };

    ghost view = { λ a. a.list.items };
}

impl<Id: PartialEq> PartialEq for Ids<Id> {
    ghost eq = { pointwise Id.eq };

    ghost laws = { lists_per Id.laws };

    fn eq(&self, other: &Ids<Id>) -> bool {
        self.list == other.list
    }
}

impl<Id: Eq> Eq for Ids<Id> {
    ghost laws = { lists_equiv Id.Eq.laws };
}

impl<Id: Hash> Hash for Ids<Id> {
    ghost hash_input = { fed.slice Id.hash_input };

    ghost respects_eq = { (fed.items_Alike (record { fed = Id.respects_eq })).fed };

    fn hash<H: Hasher>(&self, state: &mut H) {
        self.list.hash(state);
    }
}

impl<Id> Ids<Id> {
    ghost use Rattle.std.specs.Prelude.{◌≡◌};

    /// The list of these ids. It takes no memory.
    pub fn of(list: Vec<Id>) -> Ids<Id>
        ensures { result ≡ list.items }
    {
        Ids { list }
    }

    /// The ids of the list, as a Vec. It takes no memory.
    pub fn into_items(self) -> Vec<Id>
        ensures { result.items ≡ self }
    {
        let Ids { list } = self;
        list
    }

    /// The ids of the list, in their order. It takes no memory.
    pub fn items(&self) -> &[Id]
        ensures { result.now ≡ self.now }
    {
        &self.list
    }
}

/// The top of a resolved formula, over the ids of its members.
#[derive(PartialEq, Eq, Hash, Drop)]
pub enum Shape<Id> {
    True,
    False,
    One(Atom),
    And(Ids<Id>),
    Or(Ids<Id>),
    Not(Id),
    Impl(Id, Id),
    Repl(Id, Id),
    Equiv(Id, Id),
    Ex(VarId, Id),
    All(VarId, Id),
}
