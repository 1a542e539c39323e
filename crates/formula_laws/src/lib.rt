//! What formulas mean: points, truth, linear forms, atoms, answers. Beside the two enums each function does nothing; its contract is a law.
#![tactic(auto)]

ghost use Rattle.logic_meaning.specs.Context.{Context};
ghost use Rattle.logic_meaning.specs.Form.{Form};
ghost use Rattle.logic_meaning.specs.Tree.{Tree};
ghost use Rattle.formula_laws.specs.Laws.{SamePointKeepsTruth, FreeNamesDecideTruth, ReplacingKeepsTruth, NegationNormalFormIsNormal, NegationNormalFormBringsNoName, NegationNormalFormLosesNoName, EquivalenceIsCongruence, QuantifiersDistribute, AbsentNameIsDropped, FoldingKeepsTruth, FoldingBringsNothing, FreeNamesAreListed, GatheringIsExact, SortedFormIsDetermined, SizesAgree, EqualityIsTested};

/// A tree has the same truth at every representation of a rational point.
pub fn same_point_keeps_truth()
    ensures { SamePointKeepsTruth }
{}

/// A tree has the same truth at two points that agree on its free names.
pub fn free_names_decide_truth()
    ensures { FreeNamesDecideTruth }
{}

/// A tree whose atoms are replaced by trees of the same truth, at the points of the theory, has the same truth there.
pub fn replacing_keeps_truth()
    ensures { ReplacingKeepsTruth }
{}

/// The negation normal form of a tree, and that of its negation, are in negation normal form, whatever is taken as the
/// opposite of an atom.
pub fn negation_normal_form_is_normal()
    ensures { NegationNormalFormIsNormal }
{}

/// They bring no name where no opposite atom does.
pub fn negation_normal_form_brings_no_name()
    ensures { NegationNormalFormBringsNoName }
{}

/// They lose no name where no opposite atom does.
pub fn negation_normal_form_loses_no_name()
    ensures { NegationNormalFormLosesNoName }
{}

/// Equivalence goes through every connective and quantifier.
pub fn equivalence_is_congruence()
    ensures { (c : Context) → EquivalenceIsCongruence c }
{}

/// `ex` goes over `or`, and `all` over `and`.
pub fn quantifiers_distribute()
    ensures { (c : Context) → QuantifiersDistribute c }
{}

/// A quantifier of a name that is not free says nothing.
pub fn absent_name_is_dropped()
    ensures { (c : Context) → AbsentNameIsDropped c }
{}

/// Folding constants and nested lists keeps truth.
pub fn folding_keeps_truth()
    ensures { FoldingKeepsTruth }
{}

/// Folding keeps the shape and the theory, and brings no names and no nodes.
pub fn folding_brings_nothing()
    ensures { (f : Tree) → FoldingBringsNothing f }
{}

/// The list of free names that is computed has the free names.
pub fn free_names_are_listed()
    ensures { FreeNamesAreListed }
{}

/// The sorted form has the coefficients, the constant and the values of the form, and is the form where that is sorted.
pub fn gathering_is_exact()
    ensures { (f : Form) → GatheringIsExact f }
{}

/// A sorted form is determined by its coefficients and its constant.
pub fn sorted_form_is_determined()
    ensures { SortedFormIsDetermined }
{}

/// Nodes, subtrees, different subtrees and height of a tree agree.
pub fn sizes_agree()
    ensures { (f : Tree) → SizesAgree f }
{}

/// The test of equality of trees is true of equal trees alone.
pub fn equality_is_tested()
    ensures { EqualityIsTested }
{}
