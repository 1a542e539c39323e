//! Lists of atoms by their ids, none of which contains all atoms of another.

ghost use Rattle.std.specs.Prelude.{◌≡◌, false, true, drop, IsTrue, OnOk, IfOk, IfErr, length, ◌≤◌};
ghost use Rattle.normal_forms.specs.Atoms.{is_within, some_within};

use formula_store::FormulaId;
use formula_tree::Ids;

/// Lists of atoms.
pub(crate) type Lines = Vec<Ids<FormulaId>>;

// Whether the last atom of the first list is missing in the second.
fn lacks_last(atoms: &[FormulaId], others: &[FormulaId]) -> bool
    ensures { IsTrue result → is_within atoms.now others.now ≡ false }
{
    let count = atoms.len();
    count > 0 && !others.contains(&atoms[count - 1])
}

/// Whether each atom of the first list is in the second. The last one is looked for first: lists that begin alike mostly differ
/// in it.
pub(crate) fn is_within(atoms: &[FormulaId], others: &[FormulaId]) -> bool
    ensures { result ≡ is_within atoms.now others.now }
{
    if lacks_last(atoms, others) {
        return false;
    }
    for atom in atoms {
        if !others.contains(atom) {
            return false;
        }
    }
    true
}

/// Whether some list is within this one.
pub(crate) fn some_within(lines: &[Ids<FormulaId>], line: &[FormulaId]) -> bool
    ensures { result ≡ some_within lines.now line.now }
{
    for other in lines {
        if is_within(other.items(), line) {
            return true;
        }
    }
    false
}
