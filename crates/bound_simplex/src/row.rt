// Rows, and the bounds on a form that they are.
use bound_values::{Fraction, Value, gcd, quotient};
use std::alloc::{AllocError, Global};

/// A multiple of a name.
#[derive(Clone, Copy, Debug, PartialEq, Eq)]
pub struct Term {
    pub name: usize,
    pub coefficient: i128,
}

/// How the value of a row is to compare with 0.
#[derive(Clone, Copy, Debug, PartialEq, Eq)]
pub enum Bound {
    AtMost,
    Below,
    Equal,
}

/// The sum of its terms and a constant is to compare with 0 as the bound says.
#[derive(Debug, Drop)]
pub struct Row {
    pub terms: Vec<Term>,
    pub constant: i128,
    pub bound: Bound,
}

/// Which values the names may have: any of an ordered field, or whole numbers.
#[derive(Clone, Copy, Debug, PartialEq, Eq)]
pub enum Domain {
    Field,
    Whole,
}

// What a row asks of the value of its form.
#[derive(Clone, Copy)]
pub(crate) enum Demand {
    Nothing,
    Never,
    AtLeast(Value),
    AtMost(Value),
    Exactly(Value),
}

// A row, as a demand on a form whose coefficients have no common divisor and of which the first is positive; the names rise.
#[derive(Drop)]
pub(crate) struct Condition {
    pub(crate) form: Vec<Term>,
    pub(crate) demand: Demand,
}

impl Condition {
    // The condition of a row; `None` where a number does not fit.
    pub(crate) fn of(
        alloc: Global,
        row: &Row,
        domain: Domain,
    ) -> Result<Option<Condition>, AllocError> {
        let Some(mut form) = collected(alloc, &row.terms)? else {
            return Ok(None);
        };
        let Some(content) = divide_by_content(&mut form) else {
            return Ok(None);
        };
        Ok(asked_by(content, row, domain).map(|demand| Condition { form, demand }))
    }
}

// The terms by rising names, each name once, without zeros; `None` where a number does not fit.
fn collected(alloc: Global, terms: &[Term]) -> Result<Option<Vec<Term>>, AllocError> {
    let mut sorted = Vec::from_slice(alloc, terms)?;
    sorted.sort_unstable_by_key(|term| term.name);
    let mut form: Vec<Term> = Vec::with_capacity(alloc, sorted.len())?;
    for term in &sorted {
        match form.last_mut() {
            Some(last) if last.name == term.name => {
                let Some(total) = last.coefficient.checked_add(term.coefficient) else {
                    return Ok(None);
                };
                last.coefficient = total;
            }
            _ => form.push(*term)?,
        }
    }
    form.retain(|term| term.coefficient != 0);
    Ok(Some(form))
}

// Divides the coefficients by their greatest common divisor with the sign of the first, and gives that number, 0 where there is none;
// `None` where one does not fit.
fn divide_by_content(form: &mut [Term]) -> Option<i128> {
    let mut content = 0;
    for term in form.iter() {
        content = gcd(term.coefficient, content);
    }
    if let Some(first) = form.first()
        && first.coefficient < 0
    {
        content = content.checked_neg()?;
    }
    for term in form.iter_mut() {
        term.coefficient = quotient(term.coefficient, content)?;
    }
    Some(content)
}

// What a row asks of the form of which it is this multiple and its constant; `None` where a number does not fit.
fn asked_by(multiple: i128, row: &Row, domain: Domain) -> Option<Demand> {
    if multiple == 0 {
        return Some(constant_demand(row));
    }
    let edge = Fraction::reduced(row.constant.checked_neg()?, multiple)?;
    if row.bound == Bound::Equal {
        return Some(Demand::Exactly(Value::plain(edge)));
    }
    if 0 < multiple {
        Some(Demand::AtMost(stricter(edge, row.bound, domain, -1)?))
    } else {
        Some(Demand::AtLeast(stricter(edge, row.bound, domain, 1)?))
    }
}

// The bound at an edge, which moves by a step where it is strict: an arbitrarily small one over a field, and over whole numbers a whole
// one. Other edges are not rounded, so that what is refuted is refuted over the fractions too. `None` where a number does not fit.
fn stricter(edge: Fraction, bound: Bound, domain: Domain, step: i128) -> Option<Value> {
    if bound != Bound::Below {
        return Some(Value::plain(edge));
    }
    match domain {
        Domain::Field => Some(Value {
            number: edge,
            margin: Fraction::whole(step),
        }),
        Domain::Whole if edge.is_whole() => Some(Value::plain(edge.plus(Fraction::whole(step))?)),
        Domain::Whole => Some(Value::plain(edge)),
    }
}

// What a row without names asks.
fn constant_demand(row: &Row) -> Demand {
    let is_met = match row.bound {
        Bound::AtMost => row.constant <= 0,
        Bound::Below => row.constant < 0,
        Bound::Equal => row.constant == 0,
    };
    if is_met {
        Demand::Nothing
    } else {
        Demand::Never
    }
}
