//! What elimination says of truth itself, in both theories: it is decided, and negation normal form keeps it.

ghost use Rattle.elimination_theory.specs.Decided.{QuantifierIsEliminated, OneQuantifierSuffices, TruthIsDecided, QuantifiersAreEliminated, NegationNormalFormKeepsTruth, OppositeIsNegation, AllIsNotExNot};
ghost use Rattle.elimination_theory.specs.SentenceExample.{SomeHalfIsDecided, NoneGreatestIsTrue};
ghost use Rattle.logic_meaning.specs.Context.{Context};

/// One quantifier over a formula built by `and` and `or` can be eliminated.
pub fn one_quantifier_is_eliminated()
    ensures { (c : Context) → QuantifierIsEliminated c }
{}

/// Where one quantifier can be eliminated, so can all, from the inside: the lifting of quantifier elimination.
pub fn one_quantifier_suffices()
    ensures { (c : Context) → OneQuantifierSuffices c }
{}

/// Every formula is true or not, at every point of the theory.
pub fn truth_is_decided()
    ensures { (c : Context) → TruthIsDecided c }
{}

/// Every formula has an equivalent without quantifiers, over its own free names.
pub fn quantifiers_are_eliminated()
    ensures { (c : Context) → QuantifiersAreEliminated c }
{}

/// The opposite of an atom is true exactly where the atom is not.
pub fn opposite_is_negation()
    ensures { (c : Context) → OppositeIsNegation c }
{}

/// The negation normal form is true exactly where the formula is, and that of the negation exactly where it is not,
/// whatever atom of the opposite truth is taken as the opposite of an atom.
pub fn negation_normal_form_keeps_truth()
    ensures { (c : Context) → NegationNormalFormKeepsTruth c }
{}

/// `all(x, f)` is the negation of `ex(x, not f)`.
pub fn all_is_not_ex_not()
    ensures { (c : Context) → AllIsNotExNot c }
{}

/// `ex(x, 2*x = 1)` is true over the rational numbers and false over the whole ones.
pub fn some_half_is_decided()
    ensures { SomeHalfIsDecided }
{}

/// `all(a, ex(x, x > a))` is true in both theories.
pub fn none_greatest_is_true()
    ensures { NoneGreatestIsTrue }
{}
