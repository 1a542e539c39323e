//! Which causes of a refusal stand in the comparisons, congruences and names of a formula.

ghost use Rattle.std.specs.Prelude.{◌≡◌, true, false};
ghost use Rattle.std.specs.Bool.{MatchBool};
ghost use Rattle.formula_resolving.specs.MetCauses.{no_causes, either, IsRefused, is_met, IsFirstMet};
ghost use Rattle.formula_resolving.specs.Heights.{over, told};

use language_meaning::StaticError;

/// At most so high is a resolved formula.
const MOST_HEIGHT: u64 = 512;

/// Which causes were met so far.
#[derive(Clone, Copy)]
pub(crate) struct Causes {
    pub unbound: bool,
    pub nonlinear: bool,
    pub division: bool,
    pub congruence: bool,
    pub modulus: bool,
    pub overflow: bool,
}

impl Causes {
    /// No cause.
    pub(crate) fn none() -> Causes
        ensures { result ≡ no_causes }
    {
        Causes {
            unbound: false,
            nonlinear: false,
            division: false,
            congruence: false,
            modulus: false,
            overflow: false,
        }
    }

    /// A name stands as a formula, and nothing is bound to it.
    pub(crate) fn nothing_bound() -> Causes
        ensures { result ≡ record no_causes { unbound = true } }
    {
        Causes {
            unbound: true,
            ..Causes::none()
        }
    }

    /// The causes of both.
    pub(crate) fn or(self, other: Causes) -> Causes
        ensures { result ≡ either self other }
    {
        Causes {
            unbound: self.unbound | other.unbound,
            nonlinear: self.nonlinear | other.nonlinear,
            division: self.division | other.division,
            congruence: self.congruence | other.congruence,
            modulus: self.modulus | other.modulus,
            overflow: self.overflow | other.overflow,
        }
    }

    /// Whether there is some cause, or the height is above the limit.
    pub(crate) fn refuse(self, height: u64) -> bool
        ensures { MatchBool result (IsRefused self height) (¬ (IsRefused self height)) }
    {
        self.first(false, height).is_some()
    }

    /// The first cause in the order in which they are looked for, where `named` says whether a bound name stands as a
    /// variable.
    pub(crate) fn first(self, named: bool, height: u64) -> Option<StaticError>
        ensures { IsFirstMet (is_met named self height) result }
    {
        if self.unbound {
            Some(StaticError::Unbound)
        } else if named {
            Some(StaticError::FormulaAsTerm)
        } else if self.nonlinear {
            Some(StaticError::Nonlinear)
        } else if self.division {
            Some(StaticError::Division)
        } else if self.congruence {
            Some(StaticError::CongruenceContext)
        } else if self.modulus {
            Some(StaticError::Modulus)
        } else if height > MOST_HEIGHT {
            Some(StaticError::Depth)
        } else if self.overflow {
            Some(StaticError::Overflow)
        } else {
            None
        }
    }
}

/// The height of a formula over members of this height. Above the limit it is no longer told how high it is.
pub(crate) fn above(height: u64) -> u64
    ensures { result ≡ over height }
{
    height.saturating_add(1).min(MOST_HEIGHT + 1)
}

/// The height, where it is not above the limit, else one more than the limit.
pub(crate) fn told(height: u64) -> u64
    ensures { result ≡ told height }
{
    height.min(MOST_HEIGHT + 1)
}
