//! Laws of the definitions, each the contract of a function with an empty body, so that the check proves it.
ghost use Rattle.std.specs.Prelude.{◌≡◌, List};
ghost use Rattle.logic_meaning.specs.Some.{SomeOf};
ghost use Rattle.language_meaning.specs.Value.{NamedPoint};
ghost use Rattle.language_meaning.specs.Point.{IsZeroBelow, IsPointOf};
ghost use Rattle.language_meaning.specs.declared.entries.PointEntry.{PointEntry};

/// Entries whose denominators are not 0 mean one point at most.
pub fn one_point()
    ensures { (es : List PointEntry) (p q : NamedPoint) → (¬ (SomeOf IsZeroBelow es)) → IsPointOf es p → IsPointOf es q → p ≡ q }
{}
