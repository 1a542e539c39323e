// Atoms over the two theories.
ghost use Rattle.std.specs.Prelude.{◌≡◌, IfOk, IfErr};

use crate::error::AtomError;
use linear_forms::Linear;
use std::alloc::Global;

/// The two theories: linear formulas over ordered fields, and over the integers.
#[derive(Clone, Copy, Debug, PartialEq, Eq, Hash)]
pub enum Context {
    Fields,
    Integers,
}

/// How a form compares with 0.
#[derive(Clone, Copy, Debug, PartialEq, Eq, Hash)]
pub enum Rel {
    Equal,
    Differs,
    Less,
    AtMost,
    Greater,
    AtLeast,
}

/// A form compared with 0; or, over the integers alone, a form that is congruent to 0 by a positive modulus, or is not.
#[derive(Debug, PartialEq, Eq, Hash, Drop)]
pub enum Atom {
    Compare(Rel, Linear),
    Congruent {
        holds: bool,
        modulus: i128,
        form: Linear,
    },
}

/// What an atom becomes: it is always true, always false, or an atom in normal form.
#[derive(Debug, PartialEq, Eq, Drop)]
pub enum Normal {
    True,
    False,
    One(Atom),
}

impl Atom {
    /// An equal atom. Its only error is `Memory`.
    pub fn copy(&self, alloc: Global) -> Result<Atom, AtomError>
        ensures same { IfOk result (λ a. a ≡ self.now) }
        ensures memory { IfErr result (λ e. e ≡ AtomError.Memory) }
    {
        match self {
            Atom::Compare(relation, form) => match form.copy(alloc) {
                Ok(form) => Ok(Atom::Compare(*relation, form)),
                Err(_) => Err(AtomError::Memory),
            },
            Atom::Congruent {
                holds,
                modulus,
                form,
            } => match form.copy(alloc) {
                Ok(form) => Ok(Atom::Congruent {
                    holds: *holds,
                    modulus: *modulus,
                    form,
                }),
                Err(_) => Err(AtomError::Memory),
            },
        }
    }
}
