//! Clauses that hold since no point of the theory meets the rows of their literals' opposites.

ghost use Rattle.std.specs.Prelude.{◌≡◌, ◌++◌, [], ◌∷◌, ◌≤◌, ℕ, IfOk, IfSome, OnOk, IsTrue, map};
ghost use Rattle.logic_meaning.specs.Context.{Fields};
ghost use Rattle.logic_meaning.specs.Point.{Point, Of};
ghost use Rattle.linear_theory.specs.Meeting.{MeetsAll};
ghost use Rattle.certificates.specs.Constraints.{constraint_of};
ghost use Rattle.clause_theory.specs.Turned.{turned};
ghost use Rattle.clause_search.specs.Refuting.{IsRowFor, AreRowsFor, IsTheoryLaw};

use crate::names::Names;
use crate::variables::Variable;
use certificates::{Bound, CertError, Constraint, check};
use clause_theory::{Clause, Literal};
use simplex_search::{Sense, System};
use std::alloc::{AllocError, Global};

// The clause that not all of these literals hold, or of as many as are needed, where multipliers are found by which no point of the theory
// meets their rows. What the search for them does is taken off the effort.
pub(crate) fn lemma(
    alloc: Global,
    variables: &[Variable],
    names: &Names,
    literals: &[Literal],
    effort: &mut u64,
) -> Result<Option<Clause>, AllocError>
    ensures law { IfOk result (λ found. IfSome found (λ k. IsTheoryLaw variables.now k.literals.items)) }
    ensures effort { effort.new ≤ effort.old }
{
    let Some(multipliers) = multipliers_of(alloc, variables, names, literals, effort)? else {
        return Ok(None);
    };
    let refutation = used(alloc, variables, literals, &multipliers)?;
    if refutation.is_sound(alloc)? {
        Ok(Some(refutation.clause()))
    } else {
        Ok(None)
    }
}

// Multipliers of the rows of literals, to be checked.
fn multipliers_of(
    alloc: Global,
    variables: &[Variable],
    names: &Names,
    literals: &[Literal],
    effort: &mut u64,
) -> Result<Option<Vec<i128>>, AllocError>
    ensures { effort.new ≤ effort.old }
{
    let mut system = System::new(alloc, names.len());
    let mut coefficients = Vec::new(alloc);
    for literal in literals {
        match row_for(variables, *literal) {
            None => system.push(&[], 0, Sense::AtMost)?,
            Some(row) => {
                names.write_coefficients(&row.form, &mut coefficients)?;
                system.push(&coefficients, row.form.constant_part(), sense_of(row.bound))?;
            }
        }
    }
    let marks = vec![in alloc; true; literals.len()]?;
    system.multipliers(&marks, effort)
}

// The sense of a bound.
fn sense_of(bound: Bound) -> Sense {
    match bound {
        Bound::Equal => Sense::Equal,
        Bound::AtMost => Sense::AtMost,
        Bound::Below => Sense::Below,
    }
}

// The row of a literal: points where it holds meet it.
fn row_for(variables: &[Variable], literal: Literal) -> Option<&Constraint>
    ensures { IfSome result (λ row. IsRowFor variables.now literal row.now) }
{
    match variables.get(literal.variable) {
        Some(variable) => variable.row(literal.holds),
        None => None,
    }
}

// The opposites of literals, the rows of these, and a multiplier for each row.
#[derive(Drop)]
struct Refutation {
    opposites: Vec<Literal>,
    constraints: Vec<Constraint>,
    multipliers: Vec<i128>,
}

// Those of the literals whose multiplier is not 0.
fn used(
    alloc: Global,
    variables: &[Variable],
    literals: &[Literal],
    multipliers: &[i128],
) -> Result<Refutation, AllocError>
    ensures { IfOk result (λ r. AreRowsFor variables.now r.opposites.items r.constraints.items) }
{
    let mut refutation = Refutation::new(alloc);
    for (literal, multiplier) in literals.iter().zip(multipliers) {
        refutation.add_used(alloc, variables, *literal, *multiplier)?;
    }
    Ok(refutation)
}

impl Refutation {
    // No literals.
    fn new(alloc: Global) -> Refutation
        ensures opposites { result.opposites.items ≡ [] }
        ensures constraints { result.constraints.items ≡ [] }
    {
        Refutation {
            opposites: Vec::new(alloc),
            constraints: Vec::new(alloc),
            multipliers: Vec::new(alloc),
        }
    }

    // Adds a literal, if its multiplier is not 0 and it has a row.
    fn add_used(
        &mut self,
        alloc: Global,
        variables: &[Variable],
        literal: Literal,
        multiplier: i128,
    ) -> Result<(), AllocError>
        ensures { OnOk result (AreRowsFor variables.now self.old.opposites.items self.old.constraints.items → AreRowsFor variables.now self.new.opposites.items self.new.constraints.items) }
    {
        match row_for(variables, literal) {
            Some(row) if multiplier != 0 => self.add(alloc, literal, row, multiplier),
            Some(_) | None => Ok(()),
        }
    }

    // Adds a literal, with its row.
    fn add(
        &mut self,
        alloc: Global,
        literal: Literal,
        row: &Constraint,
        multiplier: i128,
    ) -> Result<(), AllocError>
        ensures opposites { OnOk result (self.new.opposites.items ≡ self.old.opposites.items ++ turned literal ∷ []) }
        ensures constraints { OnOk result (map constraint_of self.new.constraints.items ≡ map constraint_of self.old.constraints.items ++ constraint_of row.now ∷ []) }
    {
        let copy = Constraint {
            form: row.form.copy(alloc)?,
            bound: row.bound,
        };
        self.constraints.push(copy)?;
        self.opposites.push(literal.turned())?;
        self.multipliers.push(multiplier)?;
        Ok(())
    }

    // Whether the multipliers prove that no point meets the rows; not where a number passes 2^127 - 1.
    fn is_sound(&self, alloc: Global) -> Result<bool, AllocError>
        ensures { IfOk result (λ b. IsTrue b → (p : Point ℕ) → Of Fields p → ¬ (MeetsAll p (map constraint_of self.now.constraints.items))) }
    {
        match check(alloc, &self.constraints, &self.multipliers) {
            Ok(refuted) => Ok(refuted),
            Err(CertError::Memory) => Err(AllocError),
            Err(CertError::Overflow | CertError::Nodes) => Ok(false),
        }
    }

    // The clause of the opposites.
    fn clause(self) -> Clause
        ensures { result.literals ≡ self.opposites }
    {
        let Refutation {
            opposites,
            constraints: _,
            multipliers: _,
        } = self;
        Clause {
            literals: opposites,
        }
    }
}
