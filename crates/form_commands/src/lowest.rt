//! Answers in lowest terms.

ghost use Rattle.std.specs.Prelude.{◌≡◌, ℤ, pos, ◌<ℤ◌, ◌/◌, ◌∷◌, unsigned_abs, All, map, IfOk};
ghost use Rattle.exact_numbers.specs.Limit.{InLimit};
ghost use Rattle.exact_numbers.specs.Divides.{Divides};
ghost use Rattle.exact_numbers.specs.Division.{DividesAll};
ghost use Rattle.logic_meaning.specs.Form.{Form, coefficients};
ghost use Rattle.logic_meaning.specs.FieldsPoints.{divisor_of, form_over};
ghost use Rattle.test_points.specs.Points.{place_at, place_of, answer_of, IsShaped, IsTestPoint};
ghost use Rattle.reference_engine.specs.Case.{case_seen, HavePoints};
ghost use Rattle.form_commands.specs.Lowest.{lowest_answer, lowest_case};

use exact_numbers::gcd;
use linear_forms::Linear;
use reference_engine::PrintedCase;
use std::alloc::{AllocError, Global};
use test_points::{Place, TestPoint, quotient};

/// The cases with their answers in lowest terms, in order.
pub(crate) fn lowest_cases(
    alloc: Global,
    cases: Vec<PrintedCase>,
) -> Result<Vec<PrintedCase>, AllocError>
    requires { HavePoints cases.items }
    ensures cases { IfOk result (λ v. map case_seen v.items ≡ map lowest_case (map case_seen cases.items)) }
    ensures points { IfOk result (λ v. HavePoints v.items) }
{
    let mut lowest = Vec::new(alloc);
    for case in cases {
        let PrintedCase { guard, answers } = case;
        let answers = lowest_answers(alloc, &answers)?;
        lowest.push(PrintedCase { guard, answers })?;
    }
    Ok(lowest)
}

/// The answers with their places in lowest terms, in order.
fn lowest_answers(alloc: Global, answers: &[TestPoint]) -> Result<Vec<TestPoint>, AllocError>
    requires { All IsTestPoint answers.now }
    ensures answers { IfOk result (λ v. map answer_of v.items ≡ map lowest_answer (map answer_of answers.now)) }
    ensures points { IfOk result (λ v. All IsTestPoint v.items) }
{
    let mut lowest = Vec::with_capacity(alloc, answers.len())?;
    for answer in answers {
        lowest.push(in_lowest_terms(alloc, answer)?)?;
    }
    Ok(lowest)
}

/// The answer with its place in lowest terms.
fn in_lowest_terms(alloc: Global, answer: &TestPoint) -> Result<TestPoint, AllocError>
    requires { IsTestPoint answer.now }
    ensures answer { IfOk result (λ t. answer_of t ≡ lowest_answer (answer_of answer.now)) }
    ensures point { IfOk result IsTestPoint }
{
    match answer.place {
        Place::Exact | Place::AboveBy | Place::BelowBy => divided(alloc, answer),
        Place::MinusInfinity | Place::PlusInfinity | Place::Periodic => answer.copy(alloc),
    }
}

/// The answer with its form and its denominator divided by all that their numbers share.
fn divided(alloc: Global, answer: &TestPoint) -> Result<TestPoint, AllocError>
    requires point { IsTestPoint answer.now }
    requires shaped { (e : Form) (d : ℤ) → IsShaped answer.now.place e d answer.now.period }
    ensures name { IfOk result (λ t. t.name ≡ answer.now.name) }
    ensures place { IfOk result (λ t. place_of t ≡ place_at answer.now.place (form_over (divisor_of answer.now.form (unsigned_abs answer.now.over)) answer.now.form) (unsigned_abs answer.now.over / divisor_of answer.now.form (unsigned_abs answer.now.over)) answer.now.period) }
    ensures point { IfOk result IsTestPoint }
{
    let divisor = common_divisor(&answer.form, answer.over);
    match answer.form.divide_exact(alloc, divisor) {
        Ok(form) => Ok(TestPoint {
            name: answer.name,
            place: answer.place,
            form,
            over: quotient(answer.over, divisor),
            period: answer.period,
        }),
        Err(_) => Err(AllocError),
    }
}

/// The greatest common divisor of all numbers of a form over a positive number.
fn common_divisor(form: &Linear, over: i128) -> i128
    requires positive { pos 0 <ℤ over }
    requires within { InLimit over }
    ensures value { result ≡ pos (divisor_of form.now (unsigned_abs over)) }
    ensures positive { pos 0 <ℤ result }
    ensures within { InLimit result }
    ensures over { Divides result over }
    ensures numbers { DividesAll result (form.now.constant ∷ coefficients form.now.terms) }
{
    let number = form.constant_part();
    let shared = gcd(number, form.content());
    gcd(over, shared)
}
