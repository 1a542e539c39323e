// What two atoms merge into.
use crate::atoms::Atom;

/// What two normal atoms become together: always true, always false, one normal atom, or they stay as they are.
#[derive(Debug, PartialEq, Eq, Drop)]
pub enum Merged {
    True,
    False,
    One(Atom),
    Keep,
}
