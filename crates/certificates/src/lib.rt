//! Certificates of infeasibility for linear constraints over the ordered fields.
#![tactic(auto)]

mod certificate;
mod checking;
mod constraint;
mod error;
mod found;
mod numbers;
mod rows;
mod steps;

pub use certificate::{Certificate, certify};
pub use checking::check;
pub use constraint::{Bound, Constraint};
pub use error::CertError;
