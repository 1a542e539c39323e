//! A certificate of constraints: a point that meets them all, or multipliers by which none does.

ghost use Rattle.std.specs.Prelude.{◌≡◌, None, IfOk, IfErr, OnOk, OnErr, map};
ghost use Rattle.std.specs.List.{AllByRecursion};
ghost use Rattle.linear_forms.specs.Values.{number_of};
ghost use Rattle.language_meaning.specs.Names.{IsVariable};
ghost use Rattle.language_meaning.specs.Trees.{formulas_of};
ghost use Rattle.written_syntax.specs.CodeTrees.{formula_tree};
ghost use Rattle.written_syntax.specs.Writable.{AreWritableFormulas};
ghost use Rattle.written_syntax.specs.ConstraintLists.{AreConstraints};
ghost use Rattle.language_meaning.specs.Statements.{Certify};
ghost use Rattle.logic_meaning.specs.Names.{place};
ghost use Rattle.certificates.specs.Certificates.{certificate_of as meant_certificate, HasNumbersWithin};
ghost use Rattle.session_state.specs.Numbered.{numbered};
ghost use Rattle.program_meaning.specs.Certificates.{constrained_names, IsCertificateAnswer};
ghost use Rattle.program_meaning.specs.Meaning.{meaning};
ghost use Rattle.session_state.specs.Keeping.{state_of, IsSessionState};
ghost use Rattle.session_state.specs.Growth.{KeepsState, GrowsState};
ghost use Rattle.form_commands.specs.Replies.{use_of, Refuses, RefusesCommand, IsQueryAnswer, AnswersQuery};
ghost use Rattle.form_commands.specs.Reading.{AreNumbered};
ghost use Rattle.constraint_queries.specs.Steps.{RefusesCertificate, AreReady};

use crate::constraints::{constraints_of, refusal_of};
use crate::lines::certificate_line;
use certificates::{Certificate, certify};
use form_commands::number_all;
use formula_tree::Names;
use logic_meaning::{Name, VarId};
use program_meaning::{Line, StatementError};
use session_state::SessionState;
use written_syntax::Formula;

/// Answers with a certificate of the constraints, under a limit of rows. After an `Err` the names may have grown.
pub fn answer_certificate(
    limit: u64,
    state: &mut SessionState,
    written: &[Formula],
    printed: bool,
) -> Result<Line, StatementError>
    requires proper { AreWritableFormulas (formulas_of (map formula_tree written.now)) }
    requires constraints { AreConstraints (formulas_of (map formula_tree written.now)) }
    requires session { IsSessionState state.old }
    ensures session { OnOk result (IsSessionState state.new) }
    ensures answer { IfOk result (AnswersQuery (Certify (formulas_of (map formula_tree written.now))) (state_of state.old) limit printed (state_of state.new).names) }
    ensures next { OnOk result (state_of state.new ≡ numbered (meaning (Certify (formulas_of (map formula_tree written.now)))) (state_of state.old)) }
    ensures refused { IfErr result (RefusesCommand (Certify (formulas_of (map formula_tree written.now))) (state_of state.old) limit (use_of None printed)) }
    ensures grown { OnErr result (GrowsState state.old state.new) }
{
    number_all(written, &state.bindings, &mut state.names)?;
    answer_numbered(limit, state, written, printed)
}

/// Answers the command, whose variables have their numbers.
fn answer_numbered(
    limit: u64,
    state: &mut SessionState,
    written: &[Formula],
    printed: bool,
) -> Result<Line, StatementError>
    requires proper { AreWritableFormulas (formulas_of (map formula_tree written.now)) }
    requires constraints { AreConstraints (formulas_of (map formula_tree written.now)) }
    requires session { IsSessionState state.old }
    requires numbered { AreNumbered state.old.names (formulas_of (map formula_tree written.now)) }
    ensures answer { IfOk result (IsQueryAnswer (state_of state.old) limit printed (Certify (formulas_of (map formula_tree written.now))) state.new.names) }
    ensures refused { IfErr result (Refuses (state_of state.old) limit (use_of None printed) (Certify (formulas_of (map formula_tree written.now)))) }
    ensures kept { KeepsState state.old state.new }
{
    let found = certificate_of(limit, state, written)?;
    certificate_line(state, &found, printed)
}

/// The certificate, or the first cause of a refusal.
fn certificate_of(
    limit: u64,
    state: &mut SessionState,
    written: &[Formula],
) -> Result<Certificate, StatementError>
    requires proper { AreWritableFormulas (formulas_of (map formula_tree written.now)) }
    requires constraints { AreConstraints (formulas_of (map formula_tree written.now)) }
    requires session { IsSessionState state.old }
    requires numbered { AreNumbered state.old.names (formulas_of (map formula_tree written.now)) }
    ensures found { IfOk result (λ r. IsCertificateAnswer (state_of state.old) limit (formulas_of (map formula_tree written.now)) (meant_certificate r)) }
    ensures within { IfOk result HasNumbersWithin }
    ensures ready { OnOk result (AreReady (state_of state.old) (formulas_of (map formula_tree written.now))) }
    ensures refused { IfErr result (RefusesCertificate (state_of state.old) limit (formulas_of (map formula_tree written.now))) }
    ensures kept { KeepsState state.old state.new }
{
    let constraints = constraints_of(state, written)?;
    let names = names_of(state, written)?;
    match certify(state.alloc, &constraints, &names, limit) {
        Ok(found) => Ok(found),
        Err(error) => Err(refusal_of(error)),
    }
}

/// The numbers of the names of the constraints, in the order of their first places in the text.
fn names_of(state: &SessionState, written: &[Formula]) -> Result<Vec<VarId>, StatementError>
    requires { AreWritableFormulas (formulas_of (map formula_tree written.now)) }
    ensures names { IfOk result (λ v. map number_of v.items ≡ constrained_names (state_of state.now) (formulas_of (map formula_tree written.now))) }
    ensures memory { IfErr result (λ e. e ≡ StatementError.Memory) }
{
    let mut own = Names::new(state.alloc);
    number_all(written, &state.bindings, &mut own)?;
    places_of(state, &own)
}

/// The numbers that the session has for the names of this list.
fn places_of(state: &SessionState, own: &Names) -> Result<Vec<VarId>, StatementError>
    requires { AllByRecursion IsVariable own.now }
    ensures places { IfOk result (λ v. map number_of v.items ≡ map (place state.now.names) own.now) }
    ensures memory { IfErr result (λ e. e ≡ StatementError.Memory) }
{
    let mut places = Vec::new(state.alloc);
    for number in 0..own.count() {
        if let Some(text) = own.text(VarId { number }) {
            let place = state.names.place(&Name::of(text));
            if let Err(_failed) = places.push(place) {
                return Err(StatementError::Memory);
            }
        }
    }
    Ok(places)
}
