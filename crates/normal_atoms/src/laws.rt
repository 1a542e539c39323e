// The laws of normal forms and of their negation. Each function does nothing; its contract is a law.
ghost use Rattle.normal_atoms.specs.Laws.{NormalFormKeepsTruth, NormalFormBringsNoName, NormalFormIsNormal, NormalAtomStays, NegationIsOpposite, NegationKeepsNames, NegationOfNormalIsNormal, AtomsAreDecided};
ghost use Rattle.normal_atoms.specs.Atoms.{NumbersAreWithin, MeaningDeterminesAtom};

/// The normal form of an atom has its truth at every point of the theory, brings no name, and is a constant or an atom in normal form.
pub fn normal_form_keeps_truth()
    ensures truth { NormalFormKeepsTruth }
    ensures names { NormalFormBringsNoName }
    ensures normal { NormalFormIsNormal }
{}

/// A normal atom is its own normal form.
pub fn normal_atom_stays()
    ensures { NormalAtomStays }
{}

/// The negation of an atom has the opposite truth and the same names; that of a normal atom is normal, and negated again it is the atom.
pub fn negation_is_opposite()
    ensures truth { NegationIsOpposite }
    ensures names { NegationKeepsNames }
    ensures normal { NegationOfNormalIsNormal }
{}

/// Each atom is true or not at each point of the theory.
pub fn atoms_are_decided()
    ensures { AtomsAreDecided }
{}

/// Each number of a well-formed atom is within 2^127 - 1.
#[tactic(auto, using(crate::proofs::Meaning::numbers_within))]
pub fn atom_numbers_are_within()
    ensures { NumbersAreWithin }
{}

/// Well-formed atoms that mean the same are one atom.
pub fn meaning_determines_atom()
    ensures { MeaningDeterminesAtom }
{}
