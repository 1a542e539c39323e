// The scale and the span of a name, as numbers.

/// The scale to which the coefficients of a name are brought, and the span after which all congruences repeat over it.
#[derive(Clone, Copy, Debug, PartialEq, Eq)]
pub struct Period {
    pub scale: i128,
    pub span: i128,
}
