//! Lists of formulas.

ghost use Rattle.std.specs.Prelude.{◌≡◌, ◌++◌, IfOk};

use formula_store::FormulaId;
use std::alloc::{AllocError, Global};

/// The formulas of both lists. Its only error is want of memory.
pub(crate) fn joined(
    alloc: Global,
    first: &[FormulaId],
    second: &[FormulaId],
) -> Result<Vec<FormulaId>, AllocError>
    ensures { IfOk result (λ v. v.items ≡ first.now ++ second.now) }
{
    let mut all = Vec::new(alloc);
    all.extend_from_slice(first)?;
    all.extend_from_slice(second)?;
    Ok(all)
}
