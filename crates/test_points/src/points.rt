// Test points: where a name is put.
ghost use Rattle.std.specs.Prelude.{◌≡◌, IfOk};

use linear_forms::Linear;
use logic_meaning::VarId;
use std::alloc::{AllocError, Global};

/// How a test point lies: at a form over a number, infinitesimally above or below it, beyond all numbers, or beyond all
/// numbers in a residue class.
#[derive(Clone, Copy, Debug, PartialEq, Eq, Hash)]
pub enum Place {
    Exact,
    AboveBy,
    BelowBy,
    MinusInfinity,
    PlusInfinity,
    Periodic,
}

/// A name and where it is put. The form of an infinity is 0, and that of a Periodic point is the constant at which it stands.
/// `over` is positive, and 1 unless the place is Exact, AboveBy or BelowBy. `period` is 0 exactly where the place is not
/// Periodic. No number passes 2^127 - 1.
#[derive(Debug, PartialEq, Eq, Hash, Drop)]
pub struct TestPoint {
    pub name: VarId,
    pub place: Place,
    pub form: Linear,
    pub over: i128,
    pub period: i128,
}

impl TestPoint {
    /// An equal test point.
    pub fn copy(&self, alloc: Global) -> Result<TestPoint, AllocError>
        ensures { IfOk result (λ t. t ≡ self.now) }
    {
        let form = self.form.copy(alloc)?;
        Ok(TestPoint {
            name: self.name,
            place: self.place,
            form,
            over: self.over,
            period: self.period,
        })
    }
}
