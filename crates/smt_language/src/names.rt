ghost use Rattle.smt_language.specs.declared.names.SortedName.{SortedName};

use logic_meaning::Name;

/// A name that is declared or bound, and the name of its sort.
#[derive(Clone, Copy)]
pub struct SortedName {
    pub name: Name,
    pub sort: Name,
}
