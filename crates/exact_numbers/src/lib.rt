// Whole numbers of 128 bits that answer exactly where the limit 2^127 - 1 is passed, and the laws of whole numbers.
#![tactic(auto)]

mod divisors;
mod fraction;
mod laws;
mod limit;

pub use divisors::{compare_fractions, floor_div, gcd, lcm, residue};
pub use fraction::Fraction;
pub use laws::{
    bezout, congruence_is_solved, congruence_repeats, content, floor_and_residue, fraction_rule,
    greatest_common_divisor, least_common_multiple_divides,
};
pub use limit::{product, sum};
