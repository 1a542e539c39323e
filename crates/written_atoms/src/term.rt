ghost use Rattle.std.specs.Prelude.{◌≡◌, ℕ, List, false, pos, Ok, map, IfOk, IsTrue};
ghost use Rattle.language_meaning.specs.declared.tree.Literal.TheVariants.{Fits};
ghost use Rattle.std.specs.Option.{ForSome};
ghost use Rattle.std.specs.Result.{ForOk};
ghost use Rattle.logic_meaning.specs.Context as meaning;
ghost use Rattle.linear_forms.specs.Combinations.{IsLinear};
ghost use Rattle.normal_atoms.specs.Atoms.{context_of};
ghost use Rattle.written_syntax.specs.Proper.{IsNumeral, IsProperTerm, AreProperTerms};
ghost use Rattle.language_meaning.specs.Trees.{TermTree, terms_of, Number, Named, Sum, Product};
ghost use Rattle.written_syntax.specs.CodeTrees.{term_tree};
ghost use Rattle.resolved_formulas.specs.LowestForms.{IsLowestForm};
ghost use Rattle.logic_meaning.specs.Names.{place};
ghost use Rattle.written_atoms.specs.Rational.{rational_of};
ghost use Rattle.written_atoms.specs.Term.{Given, IsTermRead, IsNoSum, IsSumPlus, IsWholeSum, IsDifferenceRead, varies, is_no_divisor, is_forbidden, is_above_one, IsPlus, IsTimes, IsOver, IsPower, IsOpposite};

use crate::rational::Rational;
use crate::sum::RunningSum;
use exact_numbers::Fraction;
use formula_tree::Names;
use language_meaning::Literal;
use logic_meaning::{Name, VarId};
use normal_atoms::Context;
use std::alloc::{AllocError, Global};
use written_syntax::Term;

/// What is read of a term: its form, where it has one, and which causes of a refusal stand in it.
#[derive(Drop)]
pub struct ReadTerm {
    pub(crate) form: Option<Rational>,
    pub(crate) nonlinear: bool,
    pub(crate) division: bool,
}

impl ReadTerm {
    /// What is read of a literal.
    pub fn literal(alloc: Global, literal: Literal) -> ReadTerm
        requires { IsNumeral literal }
        ensures { (c : meaning.Context) (number : List ℕ → ℕ) → IsTermRead c number (Number literal) result }
    {
        ReadTerm::of(match literal {
            Literal::Fits(number) => Some(Rational::constant(alloc, Fraction::whole(number))),
            Literal::Past => None,
        })
    }

    /// What is read of a name that has this number. An `Err` is want of memory.
    pub fn variable(alloc: Global, name: VarId) -> Result<ReadTerm, AllocError>
        ensures { IfOk result (λ r. (c : meaning.Context) (number : List ℕ → ℕ) (x : List ℕ) → number x ≡ name.number → IsTermRead c number (Named x) r) }
    {
        let form = Rational::variable(alloc, name)?;
        Ok(ReadTerm::of(Some(form)))
    }

    /// The same once more. An `Err` is want of memory.
    pub fn copy(&self, alloc: Global) -> Result<ReadTerm, AllocError>
        ensures { IfOk result (λ r. (c : meaning.Context) (number : List ℕ → ℕ) (t : TermTree) → IsTermRead c number t self.now → IsTermRead c number t r) }
    {
        let form = match &self.form {
            Some(form) => Some(form.copy(alloc)?),
            None => None,
        };
        Ok(ReadTerm {
            form,
            nonlinear: self.nonlinear,
            division: self.division,
        })
    }

    // A term of this form, in which no cause stands.
    fn of(form: Option<Rational>) -> ReadTerm
        ensures { result ≡ record { form = form; nonlinear = false; division = false } }
    {
        ReadTerm {
            form,
            nonlinear: false,
            division: false,
        }
    }

    // Whether the form is there and not constant.
    fn varies(&self) -> bool
        ensures { result ≡ varies self.now.form }
    {
        match &self.form {
            Some(form) => !form.is_constant(),
            None => false,
        }
    }

    /// Whether the form is there and no constant other than 0.
    pub(crate) fn is_no_divisor(&self) -> bool
        ensures { result ≡ is_no_divisor self.now.form }
    {
        match &self.form {
            Some(form) => !form.is_divisor(),
            None => false,
        }
    }

    // Whether nothing may be divided by the term.
    fn is_forbidden(&self, context: Context) -> bool
        ensures { result ≡ is_forbidden (context_of context) self.now.form }
    {
        match context {
            Context::Fields => self.is_no_divisor(),
            Context::Integers => true,
        }
    }

    /// The form, without the causes.
    pub(crate) fn into_form(self) -> Option<Rational>
        ensures { result ≡ self.form }
    {
        let ReadTerm {
            form,
            nonlinear: _,
            division: _,
        } = self;
        form
    }

    // The same term, whose form the program holds.
    fn linear(self) -> ReadTerm
        ensures same { result ≡ self }
        ensures linear { ForSome result.form (λ v. IsLinear v.form) }
    {
        if let Some(form) = &self.form {
            let _constant = form.form.constant_part();
        }
        self
    }

    // The sum of two terms.
    fn plus(&self, alloc: Global, other: &ReadTerm) -> Result<ReadTerm, AllocError>
        ensures sum { IfOk result (IsPlus self.now other.now) }
        ensures linear { IfOk result (λ r. ForSome r.form (λ v. IsLinear v.form)) }
    {
        let form = match (&self.form, &other.form) {
            (Some(left), Some(right)) => left.plus(alloc, right)?,
            _ => None,
        };
        Ok(ReadTerm {
            form,
            nonlinear: self.nonlinear || other.nonlinear,
            division: self.division || other.division,
        })
    }

    /// The difference of two terms. An `Err` is want of memory.
    pub fn difference(&self, alloc: Global, other: &ReadTerm) -> Result<ReadTerm, AllocError>
        ensures read { IfOk result (λ r. (c : meaning.Context) (number : List ℕ → ℕ) (s t : TermTree) → IsTermRead c number s self.now → IsTermRead c number t other.now → IsDifferenceRead c number s t r) }
        ensures linear { IfOk result (λ r. ForSome r.form (λ v. IsLinear v.form)) }
    {
        let opposite = other.opposite(alloc)?;
        self.plus(alloc, &opposite)
    }

    /// The product of two terms. An `Err` is want of memory.
    pub fn times(&self, alloc: Global, other: &ReadTerm) -> Result<ReadTerm, AllocError>
        ensures { IfOk result (IsTimes self.now other.now) }
    {
        let form = match (&self.form, &other.form) {
            (Some(left), Some(right)) => left.times(alloc, right)?,
            _ => None,
        };
        Ok(ReadTerm {
            form,
            nonlinear: self.nonlinear || other.nonlinear || (self.varies() && other.varies()),
            division: self.division || other.division,
        })
    }

    /// The first term divided by the second. An `Err` is want of memory.
    pub fn over(
        &self,
        alloc: Global,
        context: Context,
        divisor: &ReadTerm,
    ) -> Result<ReadTerm, AllocError>
        ensures { IfOk result (IsOver (context_of context) self.now divisor.now) }
    {
        let form = match (&self.form, &divisor.form) {
            (Some(left), Some(right)) => left.over(alloc, context, right)?,
            _ => None,
        };
        Ok(ReadTerm {
            form,
            nonlinear: self.nonlinear || divisor.nonlinear,
            division: self.division || divisor.division || divisor.is_forbidden(context),
        })
    }

    // The term raised to a power.
    fn power(self, alloc: Global, exponent: Literal) -> ReadTerm
        requires lowest { ForSome self.form (λ v. IsLowestForm (rational_of v)) }
        requires numeral { IsNumeral exponent }
        ensures { IsPower self exponent result }
    {
        let raises_names = self.varies() && is_above_one(exponent);
        let ReadTerm {
            form,
            nonlinear,
            division,
        } = self;
        let form = match form {
            Some(form) => form.power(alloc, exponent),
            None => None,
        };
        ReadTerm {
            form,
            nonlinear: nonlinear || raises_names,
            division,
        }
    }

    /// The term with the other sign. An `Err` is want of memory.
    pub fn opposite(&self, alloc: Global) -> Result<ReadTerm, AllocError>
        ensures { IfOk result (IsOpposite self.now) }
    {
        let form = match &self.form {
            Some(form) => Some(form.opposite(alloc)?),
            None => None,
        };
        Ok(ReadTerm {
            form,
            nonlinear: self.nonlinear,
            division: self.division,
        })
    }
}

// Whether the exponent is above 1.
fn is_above_one(exponent: Literal) -> bool
    requires { IsNumeral exponent }
    ensures { result ≡ is_above_one exponent }
{
    match exponent {
        Literal::Fits(number) => number > 1,
        Literal::Past => true,
    }
}

/// What is read of the members of a sum: the causes in them, and the sum so far.
#[derive(Drop)]
pub struct ReadSum {
    pub(crate) total: RunningSum,
    pub(crate) nonlinear: bool,
    pub(crate) division: bool,
}

impl ReadSum {
    /// No members.
    pub fn new(alloc: Global) -> ReadSum
        ensures { IsNoSum result }
    {
        ReadSum {
            total: RunningSum::new(alloc),
            nonlinear: false,
            division: false,
        }
    }

    /// One member more. An `Err` is want of memory.
    pub fn plus(self, alloc: Global, part: &ReadTerm) -> Result<ReadSum, AllocError>
        ensures { IfOk result (IsSumPlus self part.now) }
    {
        let nonlinear = self.nonlinear | part.nonlinear;
        let division = self.division | part.division;
        Ok(ReadSum {
            total: self.total.plus(alloc, &part.form)?,
            nonlinear,
            division,
        })
    }

    /// The sum of the members. An `Err` is want of memory.
    pub fn into_term(self, alloc: Global) -> Result<ReadTerm, AllocError>
        ensures { IfOk result (IsWholeSum self) }
    {
        let ReadSum {
            total,
            nonlinear,
            division,
        } = self;
        Ok(ReadTerm {
            form: total.into_form(alloc)?,
            nonlinear,
            division,
        })
    }
}

// The next three take what the recursion gave, so that nothing of theirs stands on the stack while it goes down.

// The opposite of what was read.
fn opposite_of(alloc: Global, inner: Result<ReadTerm, AllocError>) -> Result<ReadTerm, AllocError>
    ensures { IfOk result (λ r. Given inner (λ a. IsOpposite a r)) }
{
    let inner = inner?;
    inner.opposite(alloc)
}

// The quotient of what was read.
fn quotient_of(
    alloc: Global,
    context: Context,
    dividend: Result<ReadTerm, AllocError>,
    divisor: Result<ReadTerm, AllocError>,
) -> Result<ReadTerm, AllocError>
    ensures { IfOk result (λ r. Given dividend (λ a. Given divisor (λ b. IsOver (context_of context) a b r))) }
{
    let dividend = dividend?;
    let divisor = divisor?;
    dividend.over(alloc, context, &divisor)
}

// The power of what was read.
fn power_of(
    alloc: Global,
    base: Result<ReadTerm, AllocError>,
    exponent: Literal,
) -> Result<ReadTerm, AllocError>
    requires lowest { ForOk base (λ a. ForSome a.form (λ v. IsLowestForm (rational_of v))) }
    requires numeral { IsNumeral exponent }
    ensures { IfOk result (λ r. Given base (λ a. IsPower a exponent r)) }
{
    Ok(base?.power(alloc, exponent))
}

/// Reads a term in one pass: each part's form is made once. The recursion is as deep as the term.
#[tactic(auto, using(written_syntax::proofs::TreeEquations::trees))]
#[cycle(reading)]
pub(crate) fn read_term(
    alloc: Global,
    context: Context,
    names: &Names,
    term: &Term,
) -> Result<ReadTerm, AllocError>
    requires { IsProperTerm (term_tree term.now) }
    ensures { IfOk result (IsTermRead (context_of context) (place names.now) (term_tree term.now)) }
{
    match term {
        Term::Number(literal) => Ok(ReadTerm::literal(alloc, *literal)),
        Term::Name(name) => ReadTerm::variable(alloc, names.place(name)),
        Term::Sum(terms) => read_sum(alloc, context, names, terms.items()),
        Term::Product(terms) => read_product(alloc, context, names, terms.items()),
        Term::Negative(inner) => opposite_of(alloc, read_term(alloc, context, names, inner)),
        Term::Quotient(dividend, divisor) => quotient_of(
            alloc,
            context,
            read_term(alloc, context, names, dividend),
            read_term(alloc, context, names, divisor),
        ),
        Term::Power(base, exponent) => {
            power_of(alloc, read_term(alloc, context, names, base), *exponent)
        }
    }
}

// Reads the sum of the terms. A sum of whole forms takes the time that its names take, whatever their number.
#[cycle(reading)]
fn read_sum(
    alloc: Global,
    context: Context,
    names: &Names,
    terms: &[Term],
) -> Result<ReadTerm, AllocError>
    requires { AreProperTerms (terms_of (map term_tree terms.now)) }
    ensures { IfOk result (IsTermRead (context_of context) (place names.now) (Sum (terms_of (map term_tree terms.now)))) }
{
    let mut total = ReadSum::new(alloc);
    for term in terms {
        let part = read_term(alloc, context, names, term)?;
        total = total.plus(alloc, &part)?;
    }
    total.into_term(alloc)
}

// Reads the product of the terms.
#[cycle(reading)]
fn read_product(
    alloc: Global,
    context: Context,
    names: &Names,
    terms: &[Term],
) -> Result<ReadTerm, AllocError>
    requires { AreProperTerms (terms_of (map term_tree terms.now)) }
    ensures { IfOk result (IsTermRead (context_of context) (place names.now) (Product (terms_of (map term_tree terms.now)))) }
{
    let mut total = ReadTerm::of(Some(Rational::constant(alloc, Fraction::whole(1))));
    for term in terms {
        let part = read_term(alloc, context, names, term)?;
        total = total.times(alloc, &part)?;
    }
    Ok(total)
}

/// Reads the difference of two terms.
pub(crate) fn read_difference(
    alloc: Global,
    context: Context,
    names: &Names,
    left: &Term,
    right: &Term,
) -> Result<ReadTerm, AllocError>
    requires left_proper { IsProperTerm (term_tree left.now) }
    requires right_proper { IsProperTerm (term_tree right.now) }
    ensures read { IfOk result (IsDifferenceRead (context_of context) (place names.now) (term_tree left.now) (term_tree right.now)) }
    ensures linear { IfOk result (λ r. ForSome r.form (λ v. IsLinear v.form)) }
{
    let left = read_term(alloc, context, names, left)?;
    if is_nothing(right) {
        return Ok(left.linear());
    }
    let right = read_term(alloc, context, names, right)?;
    left.difference(alloc, &right)
}

// Whether the term is 0 as it is written, so that nothing is taken away.
fn is_nothing(term: &Term) -> bool
    ensures { IsTrue result → term_tree term.now ≡ Number (Fits (pos 0)) }
{
    match term {
        Term::Number(literal) => is_zero(*literal),
        _ => false,
    }
}

// Whether the literal is 0.
fn is_zero(literal: Literal) -> bool
    ensures { IsTrue result → literal ≡ Fits (pos 0) }
{
    match literal {
        Literal::Fits(number) => number == 0,
        Literal::Past => false,
    }
}
