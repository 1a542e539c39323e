// Test points of both theories, and an atom with a name put at a test point of the ordered fields.
#![tactic(auto)]

mod comparing;
mod congruence;
mod cooper_periods_ends;
mod cooper_periods_laws;
mod cooper_periods_points;
mod cooper_periods_substitution;
mod distinct;
mod ends;
mod error;
mod fields;
mod laws;
mod parts;
mod points;
mod runs;
mod scales;
mod spans;
mod starts;
mod substitution;
mod verdict;

pub use comparing::{comparison_at, in_normal_form};
pub use cooper_periods_laws::{integer_points_suffice, integer_substitution_is_exact};
pub use cooper_periods_points::{integer_points, points_count};
pub use cooper_periods_substitution::{guard, substitute_integer};
pub use distinct::{distinct_points, push_point};
pub use ends::{quotient, seen};
pub use error::PointError;
pub use fields::field_points;
pub use laws::{field_points_suffice, field_substitution_is_exact};
pub use parts::{form_at, rest};
pub use points::{Place, TestPoint};
pub use scales::Period;
pub use spans::period;
pub use substitution::{substitute_field, unchanged};
