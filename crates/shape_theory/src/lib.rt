//! Formulas simplified under assumptions, as a definition that computes, and what is proved of it. Each function does nothing;
//! its contract is a law.
#![tactic(auto)]

ghost use Rattle.shape_theory.specs.Laws.{SimplifyingKeepsTruth, SimplifiedIsReduced, SimplifyingKeepsShape, SimplifyingBringsNoName, SimplifyingQuantifiesNoName, SimplifyingBringsNoQuantifier, SimplifyingBringsNoNode, SimplifyingBringsNoAtom};
ghost use Rattle.shape_theory.specs.Texts.{SimplifyingLengthensNoText};
ghost use Rattle.shape_theory.specs.Theorems.{PrenexFormIsPrenex, PrenexFormHasFewestBlocks, PrenexFormKeepsTruth, PrenexFormKeepsNames, PrenexFormIsNormal};
ghost use Rattle.shape_theory.specs.CleanFormsLaws.{CleanFormIsClean, CleaningKeepsTruth, CleaningKeepsShape, CleaningBringsNoName, CleaningBringsNoNode, CleaningLengthensNoText, PlacesAreCounted, SizesAreThosePlain, FewPlacesDecideLines};

/// A formula simplified under assumptions has its truth at every point of the theory where the assumptions are true.
pub fn simplifying_keeps_truth()
    ensures { SimplifyingKeepsTruth }
{}

/// A formula simplified under assumptions is Reduced under them.
pub fn simplified_is_reduced()
    ensures { SimplifiedIsReduced }
{}

/// Simplifying keeps negation normal form, normal atoms and lists of two members at least, and brings no free name.
pub fn simplifying_brings_no_name()
    ensures shape { SimplifyingKeepsShape }
    ensures names { SimplifyingBringsNoName }
{}

/// A simplified formula quantifies no name that the formula does not, and has no quantifier where the formula has none.
pub fn simplifying_brings_no_quantifier()
    ensures names { SimplifyingQuantifiesNoName }
    ensures free { SimplifyingBringsNoQuantifier }
{}

/// A simplified formula has no more nodes and no more places of atoms.
pub fn simplifying_brings_no_node()
    ensures nodes { SimplifyingBringsNoNode }
    ensures atoms { SimplifyingBringsNoAtom }
{}

/// The text of a formula that is simplified under assumptions is no longer than that of the formula.
pub fn simplifying_lengthens_no_text()
    ensures { SimplifyingLengthensNoText }
{}

/// A prenex form is quantifiers before a formula without quantifiers, in the fewest blocks that the nesting of the
/// quantifiers allows.
pub fn prenex_form_has_fewest_blocks()
    ensures prenex { PrenexFormIsPrenex }
    ensures fewest { PrenexFormHasFewestBlocks }
{}

/// It has the truth of the formula at every point of the theory.
pub fn prenex_form_keeps_truth()
    ensures { PrenexFormKeepsTruth }
{}

/// It has the free names of the formula.
pub fn prenex_form_keeps_names()
    ensures { PrenexFormKeepsNames }
{}

/// Its atoms are normal, and each of its names is known or new.
pub fn prenex_form_is_normal()
    ensures { PrenexFormIsNormal }
{}

/// A clean form is one: a disjunction of conjunctions of atoms, or the dual, none of which has two atoms that merge or
/// contains all atoms of another.
pub fn clean_form_is_clean()
    ensures { CleanFormIsClean }
{}

/// A clean form has the truth of the formula at every point of the theory.
pub fn cleaning_keeps_truth()
    ensures { CleaningKeepsTruth }
{}

/// A clean form is in negation normal form, with normal atoms and lists of two members at least, and has no other free name.
pub fn cleaning_brings_no_name()
    ensures shape { CleaningKeepsShape }
    ensures names { CleaningBringsNoName }
{}

/// A clean form has no more nodes and no longer text than the plain form, which only folds constants and distributes.
pub fn cleaning_brings_no_node()
    ensures nodes { CleaningBringsNoNode }
    ensures text { CleaningLengthensNoText }
{}

/// The places of atoms that are counted are those of the distributed formula, and what is counted without folding constants
/// are those of the plain form; where there are none, the clean form is a constant.
pub fn places_are_counted()
    ensures places { PlacesAreCounted }
    ensures sizes { SizesAreThosePlain }
    ensures few { FewPlacesDecideLines }
{}
