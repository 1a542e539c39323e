//! Fractions of 128 bits, and values with an arbitrarily small part, for searches whose answers are checked: where a number does not fit, there is
//! none, and no clause says what is calculated.
#![tactic(auto)]

mod fraction;
mod numbers;
mod value;

pub use fraction::Fraction;
pub use numbers::{combination, gcd, product, quotient};
pub use value::Value;
