// The texts of answers.
ghost use Rattle.std.specs.Prelude.{◌≡◌, ◌<◌, ◌≤◌, ◌+◌, ◌^◌, ◌++◌, [], map, OnOk, IsErrOf, length};
ghost use Rattle.logic_meaning.specs.Text.{first_sign, later_sign, sum_text};
ghost use Rattle.formula_laws.specs.Within.{AreTermsWithin};
ghost use Rattle.logic_meaning.specs.Writing.{text_limit};
ghost use Rattle.test_points.specs.Points.{answer_of, place_of};
ghost use Rattle.logic_meaning.specs.AnswerTexts.{separated, quotient_text, period_text, place_text, answer_text, answer_texts, next_epsilon, next_infinity};
ghost use Rattle.redlog_printer.specs.Within.{IsPlaceWithin, IsAnswerWithin, AreAnswersWithin};

use crate::error::PrintError;
use crate::forms::put_form;
use crate::output::Output;
use formula_tree::Names;
use linear_forms::Linear;
use test_points::{Place, TestPoint};

// The numbers that the next infinitesimal and the next infinity have.
#[derive(Clone, Copy)]
struct Counts {
    epsilon: u128,
    infinity: u128,
}

impl Counts {
    // The numbers behind an answer.
    fn after(self, point: &TestPoint) -> Counts
        requires epsilon { self.epsilon < 2 ^ 64 }
        requires infinity { self.infinity < 2 ^ 64 }
        ensures epsilon { result.epsilon ≡ next_epsilon (place_of point.now) self.epsilon }
        ensures infinity { result.infinity ≡ next_infinity (place_of point.now) self.infinity }
    {
        match point.place {
            Place::Exact => self,
            Place::AboveBy | Place::BelowBy => Counts {
                epsilon: self.epsilon + 1,
                infinity: self.infinity,
            },
            Place::PlusInfinity | Place::MinusInfinity | Place::Periodic => Counts {
                epsilon: self.epsilon,
                infinity: self.infinity + 1,
            },
        }
    }
}

// A form over a number; 1 is not written.
fn put_quotient(
    out: &mut Output,
    names: &Names,
    form: &Linear,
    over: u128,
) -> Result<(), PrintError>
    requires { AreTermsWithin (length names.now) form.now.terms }
    ensures wrote { OnOk result (out.new ≡ out.old ++ quotient_text names.now form.now over) }
    ensures long { IsErrOf result PrintError.Text → text_limit < length out.old + length (quotient_text names.now form.now over) }
{
    if over == 1 {
        return put_form(out, names, form);
    }
    if form.places() == 0 {
        put_form(out, names, form)?;
    } else {
        out.put(b"(")?;
        put_form(out, names, form)?;
        out.put(b")")?;
    }
    out.put(b"/")?;
    out.put_number(over)
}

// The multiple of an infinity behind a number; a factor 1 is not written.
fn put_period(out: &mut Output, period: i128, infinity: u128) -> Result<(), PrintError>
    ensures wrote { OnOk result (out.new ≡ out.old ++ period_text period infinity) }
    ensures long { IsErrOf result PrintError.Text → text_limit < length out.old + length (period_text period infinity) }
{
    out.put(if period < 0 { b" - " } else { b" + " })?;
    let factor = period.unsigned_abs();
    if factor != 1 {
        out.put_number(factor)?;
        out.put(b"*")?;
    }
    out.put(b"infinity")?;
    out.put_number(infinity)
}

// A number.
fn put_whole(out: &mut Output, names: &Names, number: i128) -> Result<(), PrintError>
    ensures wrote { OnOk result (out.new ≡ out.old ++ sum_text names.now [] number) }
    ensures long { IsErrOf result PrintError.Text → text_limit < length out.old + length (sum_text names.now [] number) }
{
    out.put(if number < 0 { b"-" } else { b"" })?;
    out.put_number(number.unsigned_abs())
}

// A number and the multiple of an infinity behind it.
fn put_periodic(
    out: &mut Output,
    names: &Names,
    number: i128,
    period: i128,
    infinity: u128,
) -> Result<(), PrintError>
    ensures wrote { OnOk result (out.new ≡ out.old ++ (sum_text names.now [] number ++ period_text period infinity)) }
    ensures long { IsErrOf result PrintError.Text → text_limit < length out.old + length (sum_text names.now [] number ++ period_text period infinity) }
{
    put_whole(out, names, number)?;
    put_period(out, period, infinity)
}

// Where an answer puts its name.
fn put_place(
    out: &mut Output,
    names: &Names,
    counts: Counts,
    point: &TestPoint,
) -> Result<(), PrintError>
    requires { IsPlaceWithin (length names.now) (place_of point.now) }
    ensures wrote { OnOk result (out.new ≡ out.old ++ place_text names.now counts.epsilon counts.infinity (place_of point.now)) }
    ensures long { IsErrOf result PrintError.Text → text_limit < length out.old + length (place_text names.now counts.epsilon counts.infinity (place_of point.now)) }
{
    let over = point.over.unsigned_abs();
    match point.place {
        Place::Exact => put_quotient(out, names, &point.form, over),
        Place::AboveBy => {
            put_quotient(out, names, &point.form, over)?;
            out.put(b" + epsilon")?;
            out.put_number(counts.epsilon)
        }
        Place::BelowBy => {
            put_quotient(out, names, &point.form, over)?;
            out.put(b" - epsilon")?;
            out.put_number(counts.epsilon)
        }
        Place::PlusInfinity => {
            out.put(b"infinity")?;
            out.put_number(counts.infinity)
        }
        Place::MinusInfinity => {
            out.put(b"-infinity")?;
            out.put_number(counts.infinity)
        }
        Place::Periodic => {
            let number = point.form.constant_part();
            put_periodic(out, names, number, point.period, counts.infinity)
        }
    }
}

// An answer with something before it.
fn put_answer(
    out: &mut Output,
    names: &Names,
    counts: Counts,
    before: &[u8],
    point: &TestPoint,
) -> Result<(), PrintError>
    requires { IsAnswerWithin (length names.now) (answer_of point.now) }
    ensures wrote { OnOk result (out.new ≡ out.old ++ (before.now ++ answer_text names.now counts.epsilon counts.infinity (answer_of point.now))) }
    ensures long { IsErrOf result PrintError.Text → text_limit < length out.old + length (before.now ++ answer_text names.now counts.epsilon counts.infinity (answer_of point.now)) }
{
    out.put(before)?;
    out.put_name(names, point.name)?;
    out.put(b" = ")?;
    put_place(out, names, counts, point)
}

// The answers of a case, with commas between them.
pub(crate) fn put_answers(
    out: &mut Output,
    names: &Names,
    points: &[TestPoint],
) -> Result<(), PrintError>
    requires { AreAnswersWithin (length names.now) (map answer_of points.now) }
    ensures wrote { OnOk result (out.new ≡ out.old ++ separated [] (answer_texts names.now 1 1 (map answer_of points.now))) }
    ensures long { IsErrOf result PrintError.Text → text_limit < length out.old + length (separated [] (answer_texts names.now 1 1 (map answer_of points.now))) }
{
    let mut counts = Counts {
        epsilon: 1,
        infinity: 1,
    };
    let mut before: &[u8] = b"";
    for point in points {
        put_answer(out, names, counts, before, point)?;
        counts = counts.after(point);
        before = b",";
    }
    Ok(())
}
