//! The least value of a target under weak constraints.

ghost use Rattle.std.specs.Prelude.{◌≡◌, ◌≤◌, ◌++◌, [], ◌∷◌, None, IfOk, IfErr, OnOk, OnErr, map};
ghost use Rattle.written_syntax.specs.Proper.{IsProperFormula};
ghost use Rattle.language_meaning.specs.Trees.{formulas_of};
ghost use Rattle.language_meaning.specs.Holes.{alone};
ghost use Rattle.written_syntax.specs.CodeTrees.{term_tree, formula_tree, inner_of};
ghost use Rattle.written_syntax.specs.Writable.{IsWritableTerm, AreWritableFormulas};
ghost use Rattle.written_syntax.specs.ConstraintLists.{AreWeakConstraints};
ghost use Rattle.language_meaning.specs.Statements.{Least as LeastOf};
ghost use Rattle.session_state.specs.Numbered.{numbered};
ghost use Rattle.program_meaning.specs.Meaning.{meaning};
ghost use Rattle.program_meaning.specs.State.{with_names};
ghost use Rattle.program_meaning.specs.Targets.{target_name};
ghost use Rattle.session_state.specs.Keeping.{state_of, HasIds, IsSessionState};
ghost use Rattle.session_state.specs.Growth.{GrowsState};
ghost use Rattle.normal_atoms.specs.Atoms.{context_of};
ghost use Rattle.form_commands.specs.Replies.{use_of, RefusesCommand, AnswersQuery};
ghost use Rattle.constraint_queries.specs.LeastQueriesSteps.{cause_of, IsProblemIn, IsProblemUnread};

use crate::found::look;
use crate::least_queries_lines::target_line;
use crate::problem::problem;
use form_commands::{Workshop, check_fields, static_refusal};
use formula_resolving::linearise;
use formula_store::FormulaId;
use language_meaning::StaticError;
use logic_meaning::VarId;
use normal_atoms::Context;
use program_meaning::{Line, StatementError};
use qe_parallel::Gate;
use session_state::SessionState;
use std::thread::Threads;
use written_syntax::{Formula, Term};

/// Answers with the least value of the target, and with values of the names that attain it. After an `Err` the names may have grown.
pub fn answer_least<R: Threads + Sync, G: Gate + Sync>(
    workshop: &Workshop<'_, R, G>,
    state: &mut SessionState,
    written: &[Formula],
    target: &Term,
    printed: bool,
) -> Result<Line, StatementError>
    requires workers { 1 ≤ workshop.now.limits.workers }
    requires proper { AreWritableFormulas (formulas_of (map formula_tree written.now)) }
    requires weak { AreWeakConstraints (formulas_of (map formula_tree written.now)) }
    requires target { IsWritableTerm (term_tree target.now) }
    requires session { IsSessionState state.old }
    ensures session { OnOk result (IsSessionState state.new) }
    ensures answer { IfOk result (AnswersQuery (LeastOf (formulas_of (map formula_tree written.now)) (term_tree target.now)) (state_of state.old) workshop.now.limits.nodes printed (state_of state.new).names) }
    ensures next { OnOk result (state_of state.new ≡ with_names (numbered (meaning (LeastOf (formulas_of (map formula_tree written.now)) (term_tree target.now))) (state_of state.old)) (state_of state.new).names) }
    ensures given_back { OnOk result ((numbered (meaning (LeastOf (formulas_of (map formula_tree written.now)) (term_tree target.now))) (state_of state.old)).names ≡ (state_of state.new).names ++ target_name ∷ []) }
    ensures refused { IfErr result (RefusesCommand (LeastOf (formulas_of (map formula_tree written.now)) (term_tree target.now)) (state_of state.old) workshop.now.limits.nodes (use_of None printed)) }
    ensures grown { OnErr result (GrowsState state.old state.new) }
{
    let Ok(problem) = problem(state.alloc, written, target) else {
        return Err(StatementError::Memory);
    };
    let id = read(state, &problem)?;
    let last = state.names.count() - 1;
    let found = look(workshop, state, id, VarId { number: last })?;
    let line = target_line(state, &found, printed)?;
    state.names.keep_first(last);
    Ok(line)
}

/// The resolved problem, whose names are numbered, that of the target last, or the first cause of a refusal before what is calculated
/// with it: in reading, or the theory.
fn read(state: &mut SessionState, problem: &Formula) -> Result<FormulaId, StatementError>
    requires proper { IsProperFormula (formula_tree problem.now) }
    requires plain { inner_of problem.now ≡ alone }
    requires ids { HasIds state.old }
    ensures read { IfOk result (IsProblemIn state.old (formula_tree problem.now) state.new) }
    ensures unread { IfErr result (IsProblemUnread (state_of state.old) (formula_tree problem.now)) }
    ensures grown { GrowsState state.old state.new }
{
    let read = linearise(
        state.alloc,
        problem,
        &state.bindings,
        &state.answers,
        state.context,
        &mut state.names,
        &mut state.store,
    );
    match read {
        Ok(id) => {
            check_fields(state.context)?;
            Ok(id)
        }
        Err(error) => Err(cause(state.context, error)),
    }
}

/// The word for a problem that is not read. That the theory is another one comes before what is looked for behind congruences.
fn cause(context: Context, error: StaticError) -> StatementError
    ensures { result ≡ cause_of (context_of context) error }
{
    match context {
        Context::Fields => static_refusal(error),
        Context::Integers => match error {
            StaticError::Modulus | StaticError::Depth | StaticError::Overflow => {
                StatementError::Context
            }
            StaticError::Unbound
            | StaticError::FormulaAsTerm
            | StaticError::Nonlinear
            | StaticError::Division
            | StaticError::CongruenceContext
            | StaticError::Memory => static_refusal(error),
        },
    }
}
