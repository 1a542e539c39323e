//! Numbers at the limit, forms at points, and atoms.

use exact_numbers::{compare_fractions, gcd, lcm, product, sum};
use linear_forms::{Linear, Values};
use logic_meaning::VarId;
use normal_atoms::{Atom, Rel, negate, truth};
use std::alloc::Global;
use std::cmp::Ordering;

const X: VarId = VarId { number: 0 };

const Y: VarId = VarId { number: 1 };

/// A number, or that there is none.
fn told(alloc: Global, number: Option<i128>) -> Option<String> {
    match number {
        Some(number) => format!(in alloc; "{number}").ok(),
        None => "none".to_string(alloc).ok(),
    }
}

/// Products and sums at the limit, a divisor and a multiple.
pub(crate) fn numbers(alloc: Global) -> Option<String> {
    let greatest = told(alloc, product(i128::MAX, -1))?;
    let past = told(alloc, product(1 << 64, 1 << 63))?;
    let none = told(alloc, sum(i128::MAX, 1))?;
    let zero = told(alloc, sum(i128::MAX, -i128::MAX))?;
    let divisor = gcd(-12, 18);
    let multiple = told(alloc, lcm(4, 6))?;
    format!(in alloc; "{greatest} {past} {none} {zero} {divisor} {multiple}").ok()
}

/// How two fractions close to 1 compare, whose products pass the limit.
pub(crate) fn fractions(alloc: Global) -> Option<String> {
    let most = i128::MAX;
    match compare_fractions(most, most - 1, most - 1, most - 2) {
        Ordering::Less => "less".to_string(alloc).ok(),
        Ordering::Equal => "equal".to_string(alloc).ok(),
        Ordering::Greater => "greater".to_string(alloc).ok(),
    }
}

/// The form `3 * y - 2 * x`, and its values where `x` is 7/2 and `y` is -4/2, over the denominator 2, and where a product passes the limit.
pub(crate) fn values(alloc: Global) -> Option<String> {
    let x = Linear::variable(alloc, X).ok()?;
    let y = Linear::variable(alloc, Y).ok()?;
    let form = y.combine(alloc, 3, &x, -2).ok()?;
    let mut at = Values::new(alloc, 2);
    at.put(X, 7).ok()?;
    at.put(Y, -4).ok()?;
    let value = told(alloc, form.value(&at))?;
    at.put(X, i128::MAX).ok()?;
    let past = told(alloc, form.value(&at))?;
    format!(in alloc; "{value} {past}").ok()
}

/// The atom `x < 0` where `x` is -1/2, and its negation there.
pub(crate) fn atoms(alloc: Global) -> Option<String> {
    let atom = Atom::Compare(Rel::Less, Linear::variable(alloc, X).ok()?);
    let opposite = negate(alloc, &atom).ok()?;
    let mut at = Values::new(alloc, 2);
    at.put(X, -1).ok()?;
    let holds = truth(&atom, &at)?;
    let fails = truth(&opposite, &at)?;
    format!(in alloc; "{holds} {fails}").ok()
}
