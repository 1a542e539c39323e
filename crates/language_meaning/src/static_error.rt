use thiserror::Error;

/// Why a formula is not resolved. The causes are ordered as they are looked for.
#[derive(Clone, Copy, Debug, PartialEq, Eq, PartialOrd, Ord, Drop, Error)]
pub enum StaticError {
    /// A name stands as a formula, and nothing is bound to it.
    #[error("a name stands as a formula and nothing is bound to it")]
    Unbound,
    /// A bound name stands in a term or after a quantifier.
    #[error("a bound name stands as a variable")]
    FormulaAsTerm,
    /// A product or a power of what is not constant.
    #[error("a product of names")]
    Nonlinear,
    /// A quotient that the theory does not have.
    #[error("a quotient by no constant other than 0")]
    Division,
    /// A congruence over the fields.
    #[error("a congruence over the fields")]
    CongruenceContext,
    /// A modulus that is no constant other than 0.
    #[error("a modulus that is no constant other than 0")]
    Modulus,
    /// The formula is higher than 512.
    #[error("the formula is too high")]
    Depth,
    /// A number passes 2^127 - 1.
    #[error("a number passes the limit")]
    Overflow,
    /// There is no memory left.
    #[error("out of memory")]
    Memory,
}
