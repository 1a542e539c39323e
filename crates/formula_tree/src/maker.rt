ghost use Rattle.std.specs.Prelude.{◌≡◌, IfOk, IfErr};
ghost use Rattle.logic_meaning.specs.Sizes.{height};
ghost use Rattle.logic_meaning.specs.Tree.{Tree};
ghost use Rattle.formula_tree.specs.declared.maker.MakeError.TheVariants.{Memory};
ghost use Rattle.formula_tree.specs.Shapes.{AllIds, IsProperShape, tree_over};
ghost use Rattle.formula_tree.specs.Makers.{IsMade, Keeps};

use crate::shape::Shape;
use std::alloc::AllocError;
use thiserror::Error;

/// Why a formula could not be made.
#[derive(Clone, Copy, Debug, PartialEq, Eq, Drop, Error)]
pub enum MakeError {
    /// There is no memory left.
    #[error("out of memory")]
    Memory,
}

impl From<AllocError> for MakeError {
    ghost from_gives = { λ _ e. e ≡ Memory };

    fn from(_error: AllocError) -> MakeError {
        MakeError::Memory
    }
}

impl From<MakeError> for AllocError {
    fn from(_error: MakeError) -> AllocError {
        AllocError
    }
}

/// What makes formulas and names them by ids. An id's tree never changes.
pub trait Maker {
    type Id: Copy + Eq;

    ghost is_id: { Self → Self.Id → Type 0 };

    ghost tree: { Self → Self.Id → Tree };

    /// An id whose tree is the shape over the trees of its ids. Its only error is `Memory`.
    fn make(&mut self, shape: Shape<Self::Id>) -> Result<Self::Id, MakeError>
        requires ids { AllIds (is_id self.old) shape }
        requires proper { IsProperShape shape }
        ensures made { IfOk result (λ id. IsMade (is_id self.new) (tree self.new) id (tree_over (tree self.old) shape)) }
        ensures kept { Keeps (is_id self.old) (tree self.old) (is_id self.new) (tree self.new) }
        ensures memory { IfErr result (λ e. e ≡ MakeError.Memory) };

    /// The height of the id's tree. It takes no memory.
    fn height(&self, id: Self::Id) -> u64
        requires { is_id self.now id }
        ensures { result ≡ height (tree self.now id) };
}
