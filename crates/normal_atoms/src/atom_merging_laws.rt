// What is proved of merging and deciding. Each function does nothing: its contract is the law, and its check is the proof.
ghost use Rattle.normal_atoms.specs.AtomMergingLaws.{MergingKeepsTruth, SettlingIsSound, MergingBringsNoName, AtomMergesWithItself, DecidingIsSound, MergingIsComputed, DecidingIsComputed};

/// At every point of the theory the atom into which two merge is true exactly where their join is, and a settled join is
/// false, or true.
pub fn merging_keeps_truth()
    ensures truth { MergingKeepsTruth }
    ensures settled { SettlingIsSound }
{}

/// The atom into which two merge has no name that one of them has not.
pub fn merging_brings_no_name()
    ensures { MergingBringsNoName }
{}

/// An atom within the limit merges with itself, joined by `and` and by `or`.
pub fn atom_merges_with_itself()
    ensures { AtomMergesWithItself }
{}

/// An atom that follows from another is true at each point of the theory where that is, and one that the other excludes is not.
pub fn deciding_is_sound()
    ensures { DecidingIsSound }
{}

/// Merging and deciding have definitions that compute, and their answers are right.
pub fn merging_is_computed()
    ensures merging { MergingIsComputed }
    ensures deciding { DecidingIsComputed }
{}
