//! The variables of a formula and of the commands inside it get their numbers, in the order of the text.

ghost use Rattle.std.specs.Prelude.{◌≡◌, OnOk, map};
ghost use Rattle.std.specs.List.{fold};
ghost use Rattle.language_meaning.specs.Holes.{all_of};
ghost use Rattle.written_syntax.specs.CodeTrees.{whole_formula, whole_command, formula_tree};
ghost use Rattle.written_syntax.specs.Valued.{IsUnquantified};
ghost use Rattle.language_meaning.specs.Texts.{text_of};
ghost use Rattle.language_meaning.specs.Resolving.{formula_variables};
ghost use Rattle.logic_meaning.specs.Names.{with_name};
ghost use Rattle.formula_resolving.specs.Numbering.{Grows};
ghost use Rattle.formula_resolving.specs.Text.{text_variables, IsTextNumbered, AreTextsNumbered};

use crate::numbering::number_formula;
use formula_tree::{Bindings, Names, NamesError};
use written_syntax::{Formula, InnerCommand};

/// Numbers the variables of a formula and of the commands inside it, in the order of the text. Its only error is `Memory`,
/// after which the names may have grown.
pub fn number_text<Id: Copy>(
    formula: &Formula,
    bound: &Bindings<Id>,
    names: &mut Names,
) -> Result<(), NamesError>
    ensures numbered { OnOk result (names.new ≡ fold with_name names.old (text_variables formula.now)) }
    ensures grown { Grows names.old names.new }
{
    number_whole(formula, bound, names)
}

/// The same, whatever commands stand before and after the formula.
#[cycle(texts)]
fn number_whole<Id: Copy>(
    formula: &Formula,
    bound: &Bindings<Id>,
    names: &mut Names,
) -> Result<(), NamesError>
    ensures numbered { OnOk result (IsTextNumbered (whole_formula formula.now) names.old names.new) }
    ensures grown { Grows names.old names.new }
{
    let mut rest = formula;
    'prefix: while let Formula::Ex(name, body) | Formula::All(name, body) = rest {
        names.number(name)?;
        rest = body;
    }
    number_matrix(rest, bound, names)
}

/// The same of a formula that begins with no quantifier.
#[cycle(texts)]
fn number_matrix<Id: Copy>(
    formula: &Formula,
    bound: &Bindings<Id>,
    names: &mut Names,
) -> Result<(), NamesError>
    requires { IsUnquantified (formula_tree formula.now) }
    ensures numbered { OnOk result (IsTextNumbered (whole_formula formula.now) names.old names.new) }
    ensures grown { Grows names.old names.new }
{
    match formula {
        Formula::True | Formula::False => Ok(()),
        Formula::Named(name) => {
            // The name of an answer is longer.
            prove!(name.bytes().len() <= 64);
            Ok(())
        }
        Formula::Compare(..) | Formula::Cong(..) | Formula::Ncong(..) => {
            number_formula(formula, bound, names)?;
            Ok(())
        }
        Formula::Not(inner) => number_whole(inner, bound, names),
        Formula::And(members) | Formula::Or(members) => {
            number_members(members.items(), bound, names)
        }
        Formula::Impl(left, right) | Formula::Repl(left, right) | Formula::Equiv(left, right) => {
            number_whole(left, bound, names)?;
            number_whole(right, bound, names)
        }
        Formula::Computed(command) => number_command(command, bound, names),
        Formula::Ex(..) | Formula::All(..) => unreachable!(),
    }
}

/// The same of the formulas of a list.
#[cycle(texts)]
fn number_members<Id: Copy>(
    formulas: &[Formula],
    bound: &Bindings<Id>,
    names: &mut Names,
) -> Result<(), NamesError>
    ensures numbered { OnOk result (AreTextsNumbered (all_of (map whole_formula formulas.now)) names.old names.new) }
    ensures grown { Grows names.old names.new }
{
    for formula in formulas {
        number_whole(formula, bound, names)?;
    }
    Ok(())
}

/// Numbers the variables of what a command says: those of its formula, and then those of what it may assume.
#[cycle(texts)]
fn number_command<Id: Copy>(
    command: &InnerCommand,
    bound: &Bindings<Id>,
    names: &mut Names,
) -> Result<(), NamesError>
    ensures numbered { OnOk result (names.new ≡ fold with_name names.old (formula_variables (text_of (whole_command command.now)))) }
    ensures grown { Grows names.old names.new }
{
    match command {
        InnerCommand::Nnf(formula)
        | InnerCommand::Pnf(formula)
        | InnerCommand::Dnf(formula)
        | InnerCommand::Cnf(formula) => number_whole(formula, bound, names),
        InnerCommand::Simpl(formula, given) | InnerCommand::Qe(formula, given) => {
            number_whole(formula, bound, names)?;
            number_members(given.items(), bound, names)
        }
    }
}
