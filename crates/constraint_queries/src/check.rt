//! Whether multipliers prove that no point meets constraints.

ghost use Rattle.std.specs.Prelude.{◌≡◌, ◌⊎◌, None, IfOk, IfErr, OnOk, OnErr, map};
ghost use Rattle.logic_meaning.specs.Some.{SomeOf};
ghost use Rattle.language_meaning.specs.declared.tree.Literal.TheVariants.{Past};
ghost use Rattle.language_meaning.specs.Trees.{formulas_of};
ghost use Rattle.written_syntax.specs.CodeTrees.{formula_tree};
ghost use Rattle.written_syntax.specs.Writable.{AreWritableFormulas};
ghost use Rattle.written_syntax.specs.ConstraintLists.{AreConstraints};
ghost use Rattle.language_meaning.specs.Statements.{Check};
ghost use Rattle.written_syntax.specs.StatementSyntaxWritable.{AreWritableNumbers};
ghost use Rattle.session_state.specs.Numbered.{numbered};
ghost use Rattle.program_meaning.specs.Certificates.{multipliers_of as meant_multipliers, IsCheckAnswer};
ghost use Rattle.program_meaning.specs.Meaning.{meaning};
ghost use Rattle.session_state.specs.Keeping.{state_of, IsSessionState};
ghost use Rattle.session_state.specs.Growth.{KeepsState, GrowsState};
ghost use Rattle.form_commands.specs.Replies.{use_of, RefusesCommand, AnswersQuery};
ghost use Rattle.form_commands.specs.Reading.{AreNumbered};
ghost use Rattle.constraint_queries.specs.Steps.{RefusesCheck, AcceptsCheck};

use crate::constraints::{constraints_of, refusal_of};
use certificates::check;
use form_commands::{number_all, printed_line, text_of_truth};
use language_meaning::Literal;
use program_meaning::{Line, StatementError};
use session_state::SessionState;
use std::alloc::Global;
use written_syntax::Formula;

/// Answers whether the multipliers prove that no point meets the constraints. After an `Err` the names may have grown.
pub fn answer_check(
    limit: u64,
    state: &mut SessionState,
    written: &[Formula],
    multipliers: &[Literal],
    printed: bool,
) -> Result<Line, StatementError>
    requires proper { AreWritableFormulas (formulas_of (map formula_tree written.now)) }
    requires constraints { AreConstraints (formulas_of (map formula_tree written.now)) }
    requires numbers { AreWritableNumbers multipliers.now }
    requires session { IsSessionState state.old }
    ensures session { OnOk result (IsSessionState state.new) }
    ensures answer { IfOk result (AnswersQuery (Check (formulas_of (map formula_tree written.now)) multipliers.now) (state_of state.old) limit printed (state_of state.new).names) }
    ensures next { OnOk result (state_of state.new ≡ numbered (meaning (Check (formulas_of (map formula_tree written.now)) multipliers.now)) (state_of state.old)) }
    ensures refused { IfErr result (RefusesCommand (Check (formulas_of (map formula_tree written.now)) multipliers.now) (state_of state.old) limit (use_of None printed)) }
    ensures grown { OnErr result (GrowsState state.old state.new) }
{
    number_all(written, &state.bindings, &mut state.names)?;
    let proves = proves(state, written, multipliers)?;
    printed_line(state.alloc, text_of_truth(proves), printed)
}

/// Whether the multipliers prove it, or the first cause of a refusal.
fn proves(
    state: &mut SessionState,
    written: &[Formula],
    multipliers: &[Literal],
) -> Result<bool, StatementError>
    requires proper { AreWritableFormulas (formulas_of (map formula_tree written.now)) }
    requires constraints { AreConstraints (formulas_of (map formula_tree written.now)) }
    requires numbers { AreWritableNumbers multipliers.now }
    requires session { IsSessionState state.old }
    requires numbered { AreNumbered state.old.names (formulas_of (map formula_tree written.now)) }
    ensures answer { IfOk result (IsCheckAnswer (state_of state.old) (formulas_of (map formula_tree written.now)) multipliers.now) }
    ensures accepted { OnOk result (AcceptsCheck (state_of state.old) (formulas_of (map formula_tree written.now)) multipliers.now) }
    ensures refused { IfErr result (RefusesCheck (state_of state.old) (formulas_of (map formula_tree written.now)) multipliers.now) }
    ensures kept { KeepsState state.old state.new }
{
    let constraints = constraints_of(state, written)?;
    let numbers = numbers_of(state.alloc, multipliers)?;
    match check(state.alloc, &constraints, &numbers) {
        Ok(proves) => Ok(proves),
        Err(error) => Err(refusal_of(error)),
    }
}

/// The numbers of the literals. `Overflow` comes exactly where one is above 2^127 - 1, else `Memory`.
fn numbers_of(alloc: Global, literals: &[Literal]) -> Result<Vec<i128>, StatementError>
    ensures numbers { IfOk result (λ v. v.items ≡ meant_multipliers literals.now) }
    ensures fits { OnOk result (¬ (SomeOf (λ m. m ≡ Past) literals.now)) }
    ensures stopped { IfErr result (λ e. ((e ≡ StatementError.Overflow) × SomeOf (λ m. m ≡ Past) literals.now) ⊎ (e ≡ StatementError.Memory)) }
{
    let mut numbers = Vec::new(alloc);
    for literal in literals {
        let Literal::Fits(number) = literal else {
            return Err(StatementError::Overflow);
        };
        if let Err(_failed) = numbers.push(*number) {
            return Err(StatementError::Memory);
        }
    }
    Ok(numbers)
}
