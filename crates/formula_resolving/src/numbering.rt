//! The variables of a formula get their numbers, in the order of the text.

ghost use Rattle.std.specs.Prelude.{◌≡◌, ◌≤◌, ◌∷◌, [], IfOk, length, map};
ghost use Rattle.language_meaning.specs.Trees.{terms_of, formulas_of};
ghost use Rattle.written_syntax.specs.CodeTrees.{term_tree, formula_tree};
ghost use Rattle.written_syntax.specs.Valued.{IsUnquantified};
ghost use Rattle.language_meaning.specs.Resolving.{variables_of, variables_in, formula_variables, all_variables};
ghost use Rattle.logic_meaning.specs.Bindings.{bound_to};
ghost use Rattle.formula_resolving.specs.Numbering.{IsNumbered, Grows};

use formula_tree::{Bindings, Names, NamesError};
use logic_meaning::Name;
use written_syntax::{Formula, Term};

/// What is bound to a name, which has at most 64 bytes; `None` exactly where nothing is.
pub fn bound_formula<Id: Copy>(name: &Name, bound: &Bindings<Id>) -> Option<Id>
    ensures bound { result ≡ bound_to bound.now name.now }
    ensures short { length name.now ≤ 64 }
{
    // The name of an answer is longer.
    prove!(name.bytes().len() <= 64);
    if bound.len() == 0 {
        return None;
    }
    bound.get(name)
}

/// Numbers a variable, and answers whether something is bound to its name.
fn number_name<Id: Copy>(
    name: &Name,
    bound: &Bindings<Id>,
    names: &mut Names,
) -> Result<bool, NamesError>
    ensures numbered { IfOk result (λ met. IsNumbered bound.now (name.now ∷ []) names.old names.new met) }
    ensures grown { Grows names.old names.new }
{
    names.number(name)?;
    Ok(bound_formula(name, bound).is_some())
}

/// Numbers the variables of a term, and answers whether something is bound to one of them.
#[tactic(auto, using(crate::proofs::Numbered::steps, written_syntax::proofs::TreeEquations::trees))]
#[cycle(terms)]
fn number_term<Id: Copy>(
    term: &Term,
    bound: &Bindings<Id>,
    names: &mut Names,
) -> Result<bool, NamesError>
    ensures numbered { IfOk result (λ met. IsNumbered bound.now (variables_of (term_tree term.now)) names.old names.new met) }
    ensures grown { Grows names.old names.new }
{
    match term {
        Term::Number(_) => Ok(false),
        Term::Name(name) => number_name(name, bound, names),
        Term::Sum(terms) => number_terms(terms.items(), bound, names),
        Term::Product(terms) => number_terms(terms.items(), bound, names),
        Term::Quotient(left, right) => {
            let left = number_term(left, bound, names)?;
            let right = number_term(right, bound, names)?;
            Ok(left | right)
        }
        Term::Power(base, _) => number_term(base, bound, names),
        Term::Negative(inner) => number_term(inner, bound, names),
    }
}

/// Numbers the variables of the terms, and answers whether something is bound to one of them.
#[cycle(terms)]
fn number_terms<Id: Copy>(
    terms: &[Term],
    bound: &Bindings<Id>,
    names: &mut Names,
) -> Result<bool, NamesError>
    ensures numbered { IfOk result (λ met. IsNumbered bound.now (variables_in (terms_of (map term_tree terms.now))) names.old names.new met) }
    ensures grown { Grows names.old names.new }
{
    let mut met = false;
    for term in terms {
        met = met | number_term(term, bound, names)?;
    }
    Ok(met)
}

/// Numbers the variables of a formula, in the order of the text, and answers whether something is bound to one of them. Its
/// only error is `Memory`, after which the names may have grown.
#[cycle(formulas)]
pub fn number_formula<Id: Copy>(
    formula: &Formula,
    bound: &Bindings<Id>,
    names: &mut Names,
) -> Result<bool, NamesError>
    ensures numbered { IfOk result (λ met. IsNumbered bound.now (formula_variables (formula_tree formula.now)) names.old names.new met) }
    ensures grown { Grows names.old names.new }
{
    let mut met = false;
    let mut inner = formula;
    'prefix: while let Formula::Ex(name, body) | Formula::All(name, body) = inner {
        met = met | number_name(name, bound, names)?;
        inner = body;
    }
    let rest = number_matrix(inner, bound, names)?;
    Ok(met | rest)
}

/// Numbers the variables of a formula that begins with no quantifier.
#[tactic(auto, using(crate::proofs::Numbered::steps, written_syntax::proofs::TreeEquations::trees))]
#[cycle(formulas)]
fn number_matrix<Id: Copy>(
    formula: &Formula,
    bound: &Bindings<Id>,
    names: &mut Names,
) -> Result<bool, NamesError>
    requires { IsUnquantified (formula_tree formula.now) }
    ensures numbered { IfOk result (λ met. IsNumbered bound.now (formula_variables (formula_tree formula.now)) names.old names.new met) }
    ensures grown { Grows names.old names.new }
{
    match formula {
        Formula::True | Formula::False | Formula::Named(_) | Formula::Computed(_) => Ok(false),
        Formula::Compare(_, left, right) => {
            let left = number_term(left, bound, names)?;
            let right = number_term(right, bound, names)?;
            Ok(left | right)
        }
        Formula::Cong(left, right, modulus) | Formula::Ncong(left, right, modulus) => {
            let left = number_term(left, bound, names)?;
            let right = number_term(right, bound, names)?;
            let modulus = number_term(modulus, bound, names)?;
            Ok(left | (right | modulus))
        }
        Formula::Not(inner) => number_formula(inner, bound, names),
        Formula::And(members) | Formula::Or(members) => {
            number_formulas(members.items(), bound, names)
        }
        Formula::Impl(left, right) | Formula::Repl(left, right) | Formula::Equiv(left, right) => {
            let left = number_formula(left, bound, names)?;
            let right = number_formula(right, bound, names)?;
            Ok(left | right)
        }
        Formula::Ex(..) | Formula::All(..) => unreachable!(),
    }
}

/// Numbers the variables of the formulas, and answers whether something is bound to one of them.
#[cycle(formulas)]
fn number_formulas<Id: Copy>(
    formulas: &[Formula],
    bound: &Bindings<Id>,
    names: &mut Names,
) -> Result<bool, NamesError>
    ensures numbered { IfOk result (λ met. IsNumbered bound.now (all_variables (formulas_of (map formula_tree formulas.now))) names.old names.new met) }
    ensures grown { Grows names.old names.new }
{
    let mut met = false;
    for formula in formulas {
        met = met | number_formula(formula, bound, names)?;
    }
    Ok(met)
}
