//! Constraints, read and oriented.

ghost use Rattle.std.specs.Prelude.{◌≡◌, IfOk, IfErr, OnOk, map};
ghost use Rattle.std.specs.List.{AllByRecursion};
ghost use Rattle.logic_meaning.specs.Context.{Fields, Integers};
ghost use Rattle.normal_atoms.specs.Atoms.{context_of};
ghost use Rattle.formula_store.specs.Nodes.{tree, IsId};
ghost use Rattle.language_meaning.specs.Trees.{formulas_of};
ghost use Rattle.written_syntax.specs.CodeTrees.{formula_tree};
ghost use Rattle.written_syntax.specs.Writable.{AreWritableFormulas};
ghost use Rattle.written_syntax.specs.ConstraintLists.{AreConstraints};
ghost use Rattle.certificates.specs.Constraints.{constraint_of as meant_constraint};
ghost use Rattle.program_meaning.specs.Certificates.{tree_constraint, constraints_of as meant_constraints};
ghost use Rattle.session_state.specs.Keeping.{state_of, IsSessionState};
ghost use Rattle.session_state.specs.Growth.{KeepsState};
ghost use Rattle.form_commands.specs.Reading.{AreNumbered};
ghost use Rattle.constraint_queries.specs.Steps.{AreReady, NoConstraints, cert_refusal};

use certificates::{CertError, Constraint};
use form_commands::{check_fields, read_all};
use formula_store::FormulaId;
use least_search::tree_constraint;
use normal_atoms::Context;
use program_meaning::StatementError;
use session_state::SessionState;
use written_syntax::Formula;

/// The constraints, or the first cause of a refusal before what is calculated with them: in reading, or the theory.
pub fn constraints_of(
    state: &mut SessionState,
    written: &[Formula],
) -> Result<Vec<Constraint>, StatementError>
    requires proper { AreWritableFormulas (formulas_of (map formula_tree written.now)) }
    requires constraints { AreConstraints (formulas_of (map formula_tree written.now)) }
    requires session { IsSessionState state.old }
    requires numbered { AreNumbered state.old.names (formulas_of (map formula_tree written.now)) }
    ensures constraints { IfOk result (λ v. map meant_constraint v.items ≡ meant_constraints (state_of state.old) (formulas_of (map formula_tree written.now))) }
    ensures ready { OnOk result (AreReady (state_of state.old) (formulas_of (map formula_tree written.now))) }
    ensures refused { IfErr result (NoConstraints (state_of state.old) (formulas_of (map formula_tree written.now))) }
    ensures kept { KeepsState state.old state.new }
{
    match read_all(state, written) {
        Ok(ids) => {
            check_fields(state.context)?;
            oriented(state, &ids)
        }
        Err(error) => {
            check_overflow(state.context, error)?;
            Err(error)
        }
    }
}

/// Where reading overflows, the theory has to be that of the ordered fields: that it is not is looked for first.
fn check_overflow(context: Context, error: StatementError) -> Result<(), StatementError>
    ensures fields { OnOk result (error ≡ StatementError.Overflow → context_of context ≡ Fields) }
    ensures integers { IfErr result (λ e. (e ≡ StatementError.Context) × (error ≡ StatementError.Overflow) × (context_of context ≡ Integers)) }
{
    match error {
        StatementError::Overflow => check_fields(context),
        _ => Ok(()),
    }
}

/// The word for a search or a check that is not finished.
pub fn refusal_of(error: CertError) -> StatementError
    ensures { result ≡ cert_refusal error }
{
    match error {
        CertError::Overflow => StatementError::Overflow,
        CertError::Nodes => StatementError::Nodes,
        CertError::Memory => StatementError::Memory,
    }
}

/// The constraints that resolved comparisons are.
fn oriented(state: &SessionState, ids: &[FormulaId]) -> Result<Vec<Constraint>, StatementError>
    requires { AllByRecursion (IsId state.now.store) ids.now }
    ensures constraints { IfOk result (λ v. map meant_constraint v.items ≡ map (λ id. tree_constraint (tree state.now.store id)) ids.now) }
    ensures memory { IfErr result (λ e. e ≡ StatementError.Memory) }
{
    let mut constraints = Vec::new(state.alloc);
    for id in ids {
        let Ok(constraint) = tree_constraint(state.alloc, &state.store, *id) else {
            return Err(StatementError::Memory);
        };
        if let Err(_failed) = constraints.push(constraint) {
            return Err(StatementError::Memory);
        }
    }
    Ok(constraints)
}
