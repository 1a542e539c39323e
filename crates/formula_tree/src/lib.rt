//! Resolved formulas: numbered names, bound formulas, and trees whose atoms are normal.
#![tactic(auto)]

mod bindings;
mod error;
mod maker;
mod names;
mod shape;
mod tree;

pub use bindings::{BindError, Bindings};
pub use error::FormError;
pub use maker::{MakeError, Maker};
pub use names::{Names, NamesError};
pub use normal_atoms::{Atom, Values, negate, truth};
pub use shape::{Ids, Shape};
pub use tree::{Tree, Trees};
