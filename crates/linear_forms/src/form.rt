// A linear form: a sorted list of names with their coefficients, and a constant.
ghost use Rattle.std.specs.Prelude.{◌≡◌, ℕ, pos, ◌<ℤ◌, [], ◌∷◌, IfOk, IfErr, IsErrOf, MatchOption, option_map, length, slice_get};
ghost use Rattle.exact_numbers.specs.Limit.{InLimit};
ghost use Rattle.exact_numbers.specs.Divides.{content_of};
ghost use Rattle.exact_numbers.specs.Division.{DividesAll, IsContent};
ghost use Rattle.logic_meaning.specs.Form.{coefficient, value};
ghost use Rattle.logic_meaning.specs.Terms.{CombinePasses, coefficients, value_steps, ValuePasses};
ghost use Rattle.linear_forms.specs.Combinations.{IsLinear, IsCombination, IsQuotient};
ghost use Rattle.linear_forms.specs.Values.{number_at, point_of};
ghost use Rattle.logic_meaning.specs.Reduction.{quotient, residue_form};
ghost use Rattle.linear_forms.specs.Equality.{form_eq, form_decides, form_writes};
ghost use Rattle.std.proofs.Common.{ap};
ghost use Rattle.std.specs.Cmp.{decided, partial_equiv_from_equiv};

use crate::error::LinError;
use crate::merge::{merge, place};
use crate::terms;
use crate::values::{Values, total};
use exact_numbers::{product, residue, sum};
use logic_meaning::VarId;
use std::alloc::{AllocError, Global};
use std::hash::{Hash, Hasher};
use std::marker::Model;

/// A sum of whole multiples of names, and a constant.
#[derive(Debug, Drop)]
pub struct Linear {
    terms: Vec<(VarId, i128)>,
    constant: i128,
}

impl Model for Linear {
    ghost use Rattle.logic_meaning.specs.Form.{Form};
    ghost use Rattle.linear_forms.specs.Combinations.{IsLinear};

    ghost Value = { Form };

    ghost use Rattle.linear_forms.specs.Linear.{terms_of};

    ghost view = { λ l. record { terms = terms_of l.terms.items; constant = l.constant } };

    ghost invariant = { λ l. IsLinear (record { terms = terms_of l.terms.items; constant = l.constant }) };
}

/// Two forms are equal exactly where they have the same terms and the same constant.
impl PartialEq for Linear {
    ghost eq = { form_eq };

    ghost laws = { partial_equiv_from_equiv (decided form_eq form_decides) };

    fn eq(&self, other: &Linear) -> bool {
        self.terms == other.terms && self.constant.cmp(&other.constant).is_eq()
    }
}

impl Eq for Linear {
    ghost laws = { decided form_eq form_decides };
}

impl Hash for Linear {
    ghost hash_input = { form_writes };

    ghost respects_eq = { λ f g e. ap form_writes ((form_decides f g).0 e) };

    fn hash<H: Hasher>(&self, state: &mut H) {
        self.terms.hash(state);
        self.constant.hash(state);
    }
}

impl Linear {
    ghost use Rattle.linear_forms.specs.Linear.{term_of, terms_of};

    /// The form with these terms, whose names rise and whose coefficients are not 0, and this constant. It takes no memory.
    pub fn of(terms: Vec<(VarId, i128)>, constant: i128) -> Linear
        requires { IsLinear (record { terms = terms_of terms.items; constant = constant }) }
        ensures form { result ≡ record { terms = terms_of terms.items; constant = constant } }
        ensures linear { IsLinear result }
    {
        Linear { terms, constant }
    }

    /// An equal form.
    pub fn copy(&self, alloc: Global) -> Result<Linear, AllocError>
        ensures same { IfOk result (λ r. r ≡ self.now) }
        ensures linear { IsLinear self.now }
    {
        let mut terms = Vec::new(alloc);
        terms.extend_from_slice(&self.terms)?;
        Ok(Linear {
            terms,
            constant: self.constant,
        })
    }

    /// The same terms with another constant. It takes no memory.
    pub fn with_constant(self, constant: i128) -> Linear
        requires { InLimit constant }
        ensures form { result ≡ record { terms = self.terms; constant = constant } }
        ensures linear { IsLinear result }
    {
        Linear {
            terms: self.terms,
            constant,
        }
    }

    /// The constant form `c`.
    pub fn constant(alloc: Global, c: i128) -> Linear
        requires { InLimit c }
        ensures form { result ≡ record { terms = []; constant = c } }
        ensures linear { IsLinear result }
    {
        Linear {
            terms: Vec::new(alloc),
            constant: c,
        }
    }

    /// The form that is the name `v`. Its only error is `Memory`.
    pub fn variable(alloc: Global, v: VarId) -> Result<Linear, LinError>
        ensures form { IfOk result (λ r. r ≡ record { terms = record { times = pos 1; name = v.number } ∷ []; constant = pos 0 }) }
        ensures linear { IfOk result IsLinear }
        ensures memory { IfErr result (λ e. e ≡ LinError.Memory) }
    {
        let mut terms = Vec::new(alloc);
        match terms.push((v, 1)) {
            Ok(()) => Ok(Linear { terms, constant: 0 }),
            Err(_) => Err(LinError::Memory),
        }
    }

    /// The form `a * self + b * other`: one merge of the two lists, linear in their lengths.
    /// `Overflow` comes exactly where a product or a sum of one place passes 2^127 - 1, else `Memory`.
    pub fn combine(
        &self,
        alloc: Global,
        a: i128,
        other: &Linear,
        b: i128,
    ) -> Result<Linear, LinError>
        ensures combined { IfOk result (IsCombination a self.now b other.now) }
        ensures overflow { IsErrOf result LinError.Overflow → CombinePasses a self.now b other.now }
    {
        let constant = place(a, self.constant, b, other.constant).ok_or(LinError::Overflow)?;
        let terms = merge(alloc, &self.terms, a, &other.terms, b)?;
        Ok(Linear { terms, constant })
    }

    /// The form with each number divided by `by`, which is not 0 and divides them all. Its only error is `Memory`.
    pub fn divide_exact(&self, alloc: Global, by: i128) -> Result<Linear, LinError>
        requires nonzero { ¬ (by ≡ pos 0) }
        requires divides { DividesAll by (self.now.constant ∷ coefficients self.now.terms) }
        ensures divided { IfOk result (IsQuotient self.now by) }
        ensures value { IfOk result (λ r. r ≡ quotient self.now by) }
        ensures memory { IfErr result (λ e. e ≡ LinError.Memory) }
    {
        match terms::divided(alloc, &self.terms, by) {
            Ok(terms) => Ok(Linear {
                terms,
                constant: self.constant / by,
            }),
            Err(_) => Err(LinError::Memory),
        }
    }

    /// The form with each number modulo `modulus`, which is positive, and without the names whose coefficient becomes 0.
    pub fn residues(&self, alloc: Global, modulus: i128) -> Result<Linear, AllocError>
        requires { pos 0 <ℤ modulus }
        ensures value { IfOk result (λ r. r ≡ residue_form self.now modulus) }
        ensures linear { IfOk result IsLinear }
    {
        let terms = terms::residues(alloc, &self.terms, modulus)?;
        Ok(Linear {
            terms,
            constant: residue(self.constant, modulus),
        })
    }

    /// The coefficient of `v`, 0 where `v` does not stand in the form: a binary search.
    pub fn coefficient(&self, v: VarId) -> i128
        ensures value { result ≡ coefficient v.number self.now }
        ensures within { InLimit result }
    {
        terms::coefficient(&self.terms, v)
    }

    /// The constant.
    pub fn constant_part(&self) -> i128
        ensures value { result ≡ self.now.constant }
        ensures linear { IsLinear self.now }
    {
        self.constant
    }

    /// The greatest common divisor of the coefficients without the constant; 0 where there is none.
    pub fn content(&self) -> i128
        ensures greatest { IsContent (coefficients self.now.terms) result }
        ensures value { result ≡ content_of (coefficients self.now.terms) }
        ensures within { InLimit result }
    {
        terms::content(&self.terms)
    }

    /// The name and the coefficient at a place of the list, from 0 on; `None` exactly where the list has no such place.
    pub fn term(&self, place: usize) -> Option<(VarId, i128)>
        ensures value { option_map term_of result ≡ slice_get self.now.terms place }
        ensures linear { IsLinear self.now }
    {
        self.terms.get(place).copied()
    }

    /// How many places the list has. It takes no memory.
    pub fn places(&self) -> usize
        ensures { result ≡ length self.now.terms }
    {
        self.terms.len()
    }

    /// The value at the numbers times their denominator: the products in rising order of the names, and the constant's last.
    /// `None` exactly where a product or a partial sum passes 2^127 - 1.
    pub fn value(&self, at: &Values) -> Option<i128>
        ensures rule { result ≡ value_steps self.now (number_at at.now) at.now.denominator }
        ensures outcome { MatchOption result (ValuePasses self.now (number_at at.now) at.now.denominator) (λ n. n ≡ value self.now (point_of at.now)) }
    {
        let total = total(&self.terms, at)?;
        sum(total, product(self.constant, at.denominator())?)
    }
}
