// Whole numbers for names over one denominator, and the value of a form at them.
ghost use Rattle.std.specs.Prelude.{◌≡◌, ℕ, pos, [], ◌<ℤ◌, OnOk, OnErr, IfErr, IfOk, map, nat_eq, if◌then◌else◌};
ghost use Rattle.logic_meaning.specs.Form.{value};
ghost use Rattle.logic_meaning.specs.Terms.{total_steps};
ghost use Rattle.linear_forms.specs.Linear.{terms_of};
ghost use Rattle.linear_forms.specs.Values.{number_at, number_of};
ghost use Rattle.std.specs.Map.{keys_of};

use crate::error::LinError;
use exact_numbers::{product, sum};
use logic_meaning::VarId;
use std::alloc::{AllocError, Global};
use std::collections::BTreeMap;
use std::marker::Model;

/// Whole numbers for names over one positive denominator; a name that is not put in has the number 0.
#[derive(Drop)]
pub struct Values {
    numbers: BTreeMap<usize, i128>,
    denominator: i128,
}

impl Model for Values {
    ghost use Rattle.std.specs.Prelude.{pos, ◌<ℤ◌};
    ghost use Rattle.linear_forms.specs.Values.{Numbers};

    ghost Value = { Numbers };

    ghost view = { λ v. record { entries = v.numbers.entries; denominator = v.denominator } };

    ghost invariant = { λ v. pos 0 <ℤ v.denominator };
}

impl Values {
    /// No numbers over the denominator.
    pub fn new(alloc: Global, denominator: i128) -> Values
        requires { pos 0 <ℤ denominator }
        ensures { result ≡ record { entries = []; denominator = denominator } }
    {
        Values {
            numbers: BTreeMap::new(alloc),
            denominator,
        }
    }

    /// Gives `v` the number `n`, in place of what it had. Its only error is `Memory`, which leaves the numbers as they were.
    pub fn put(&mut self, v: VarId, n: i128) -> Result<(), LinError>
        ensures put { OnOk result ((x : ℕ) → number_at self.new x ≡ (if nat_eq v.number x then n else number_at self.old x)) }
        ensures denominator { self.new.denominator ≡ self.old.denominator }
        ensures memory { IfErr result (λ e. e ≡ LinError.Memory) }
        ensures unchanged { OnErr result (self.new ≡ self.old) }
    {
        match self.numbers.insert(v.number, n) {
            Ok(_) => Ok(()),
            Err(_) => Err(LinError::Memory),
        }
    }

    /// The number of `v`, 0 where none was put in.
    pub fn get(&self, v: VarId) -> i128
        ensures { result ≡ number_at self.now v.number }
    {
        match self.numbers.get(&v.number) {
            Some(number) => *number,
            None => 0,
        }
    }

    /// The names that were put in, rising; every other name has the number 0.
    pub fn names(&self, alloc: Global) -> Result<Vec<VarId>, AllocError>
        ensures { IfOk result (λ v. map number_of v.items ≡ keys_of self.now.entries) }
    {
        let mut names = Vec::new(alloc);
        for name in self.numbers.keys() {
            names.push(VarId { number: *name })?;
        }
        Ok(names)
    }

    /// The denominator.
    pub fn denominator(&self) -> i128
        ensures value { result ≡ self.now.denominator }
        ensures positive { pos 0 <ℤ result }
    {
        self.denominator
    }
}

// The sum of the terms at the numbers, or `None` at the first product or partial sum that passes the limit.
pub(crate) fn total(terms: &[(VarId, i128)], at: &Values) -> Option<i128>
    ensures { result ≡ total_steps (pos 0) (terms_of terms.now) (number_at at.now) }
{
    let mut total = 0;
    for term in terms {
        let part = product(term.1, at.get(term.0))?;
        total = sum(total, part)?;
    }
    Some(total)
}
