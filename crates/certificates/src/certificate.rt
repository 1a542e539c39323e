// Certificates, and the search for one.
ghost use Rattle.std.specs.Prelude.{◌≡◌, map, IfOk, MatchResult};
ghost use Rattle.formula_laws.specs.StandsOnce.{StandsOnce};
ghost use Rattle.logic_meaning.specs.Measured.{done};
ghost use Rattle.linear_forms.specs.Values.{number_of};
ghost use Rattle.logic_meaning.specs.Search.{search};
ghost use Rattle.linear_theory.specs.Theorems.{AreOver, IsCertificate};
ghost use Rattle.certificates.specs.Constraints.{constraint_of};
ghost use Rattle.certificates.specs.Certificates.{certificate_of, HasNumbersWithin};
ghost use Rattle.certificates.specs.CertificateSearchStops.{StopsSearch};

use crate::constraint::Constraint;
use crate::error::CertError;
use crate::found::Found;
use crate::rows::{first_false, rows_from};
use crate::steps::Search;
use logic_meaning::VarId;
use std::alloc::Global;

/// What tells whether some point meets all of some constraints.
#[derive(Debug, Drop)]
pub enum Certificate {
    /// The names with values at which all constraints are met: numerators over positive denominators, in lowest terms.
    Point(Vec<(VarId, i128, i128)>),
    /// A multiplier of each constraint, by which no point meets them all.
    Farkas(Vec<i128>),
}

/// A point that meets the constraints, with a value of each name in their order, or multipliers that prove that no point of the
/// ordered fields meets them: Fourier's elimination of the names in their order, with Motzkin's multipliers (Fourier, "Analyse
/// des travaux de l'Académie royale des sciences pendant l'année 1823", 1826; Motzkin, "Beiträge zur Theorie der linearen
/// Ungleichungen", 1936). All numbers are within 2^127 - 1.
///
/// The rows of the constraints cost 1 each, and so does each new one. `Nodes` comes exactly where a new row would cost more
/// than `limit`, and `Overflow` exactly where a number passes 2^127 - 1 before that, or a value of a name does; else `Memory`.
pub fn certify(
    alloc: Global,
    constraints: &[Constraint],
    names: &[VarId],
    limit: u64,
) -> Result<Certificate, CertError>
    requires names_differ { StandsOnce (map number_of names.now) }
    requires over { AreOver (map number_of names.now) (map constraint_of constraints.now) }
    ensures answered { MatchResult result (λ r. search limit (map number_of names.now) (map constraint_of constraints.now) ≡ done (certificate_of r)) (λ e. StopsSearch e (search limit (map number_of names.now) (map constraint_of constraints.now))) }
    ensures certificate { IfOk result (λ r. IsCertificate (map number_of names.now) (map constraint_of constraints.now) (certificate_of r)) }
    ensures within { IfOk result HasNumbersWithin }
{
    let search = Search { alloc, limit };
    let (rows, steps) = search.descend(names, rows_from(alloc, constraints)?)?;
    match first_false(&rows) {
        Some(row) => Ok(Certificate::Farkas(row.multipliers(alloc, constraints)?)),
        None => {
            let found = Found::ascend(alloc, steps)?;
            Ok(Certificate::Point(found.into_point(alloc)?))
        }
    }
}
