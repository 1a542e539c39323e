// The formula behind leading quantifiers.

ghost use Rattle.std.specs.Prelude.{IfSome};
ghost use Rattle.formula_store.specs.Nodes.{IsId};
ghost use Rattle.searched_verdicts.specs.Matrices.{IsMatrix};

use formula_store::{FormulaId, Store};
use formula_tree::Shape;

// The formula behind so many `ex` with which a formula begins; `None` where it begins with fewer.
pub(crate) fn matrix_of(store: &Store, id: FormulaId, count: usize) -> Option<FormulaId>
    requires { IsId store.now id }
    ensures { IfSome result (IsMatrix store.now id count) }
{
    let mut matrix = id;
    let mut left = count;
    'levels: while left > 0 {
        let Shape::Ex(_, inner) = store.shape(matrix) else {
            return None;
        };
        matrix = *inner;
        left -= 1;
    }
    Some(matrix)
}
