//! The commands inside a formula, each after those inside it.

ghost use Rattle.std.specs.Prelude.{◌≡◌, IfOk, map};
ghost use Rattle.std.specs.List.{AllByRecursion};
ghost use Rattle.language_meaning.specs.Holes.{alone, beside, together, all_of};
ghost use Rattle.written_syntax.specs.CodeTrees.{whole_formula, whole_command, inner_of};
ghost use Rattle.written_syntax.specs.LastTokens.{all_in_order};
ghost use Rattle.formula_resolving.specs.Order.{nest_of, IsCounted, IsGathered, inside_of};

use std::alloc::{AllocError, Global};
use written_syntax::{Formula, InnerCommand};

/// A command inside a formula, and how many stand inside it and in no other command there.
#[derive(Clone, Copy)]
pub struct Step<'a> {
    pub command: &'a InnerCommand,
    pub inside: usize,
}

/// The commands inside a formula, each after those inside it.
pub fn commands_inside<'a>(alloc: Global, formula: &'a Formula) -> Result<Vec<Step<'a>>, AllocError>
    ensures order { IfOk result (λ steps. map nest_of steps.items ≡ all_in_order (inner_of formula.now)) }
    ensures counts { IfOk result (λ steps. AllByRecursion IsCounted steps.items) }
{
    let mut steps = Vec::new(alloc);
    gather(formula, &mut steps)?;
    Ok(steps)
}

/// Appends the commands inside the formula, and answers how many of these stand in no other.
#[tactic(auto, using(written_syntax::proofs::TreeEquations::wholes))]
#[cycle(gathering)]
fn gather<'a>(formula: &'a Formula, steps: &mut Vec<Step<'a>>) -> Result<usize, AllocError>
    ensures { IfOk result (λ n. IsGathered (whole_formula formula.now).inner steps.old.items steps.new.items n) }
{
    let mut rest = formula;
    'chain: loop {
        match rest {
            Formula::True | Formula::False | Formula::Named(_) => return Ok(0),
            Formula::Compare(..) | Formula::Cong(..) | Formula::Ncong(..) => return Ok(0),
            Formula::Not(inner) | Formula::Ex(_, inner) | Formula::All(_, inner) => rest = inner,
            Formula::And(members) | Formula::Or(members) => {
                return gather_all(members.items(), steps);
            }
            Formula::Impl(left, right) | Formula::Repl(left, right) | Formula::Equiv(left, right) =>
                {
                    return gather_both(left, right, steps);
                }
            Formula::Computed(command) => return gather_command(command, steps),
        }
    }
}

/// The same of two formulas.
#[cycle(gathering)]
fn gather_both<'a>(
    left: &'a Formula,
    right: &'a Formula,
    steps: &mut Vec<Step<'a>>,
) -> Result<usize, AllocError>
    ensures { IfOk result (λ n. IsGathered (together (whole_formula left.now).inner (whole_formula right.now).inner) steps.old.items steps.new.items n) }
{
    let first = gather(left, steps)?;
    let second = gather(right, steps)?;
    Ok(first + second)
}

/// The same of the formulas of a list.
#[cycle(gathering)]
fn gather_all<'a>(formulas: &'a [Formula], steps: &mut Vec<Step<'a>>) -> Result<usize, AllocError>
    ensures { IfOk result (λ n. IsGathered (all_of (map whole_formula formulas.now)).inner steps.old.items steps.new.items n) }
{
    let mut count = 0;
    for formula in formulas {
        count += gather(formula, steps)?;
    }
    Ok(count)
}

/// Appends the commands inside the command, and then this. It is one.
#[cycle(gathering)]
fn gather_command<'a>(
    command: &'a InnerCommand,
    steps: &mut Vec<Step<'a>>,
) -> Result<usize, AllocError>
    ensures { IfOk result (λ n. IsGathered (beside (whole_command command.now) alone) steps.old.items steps.new.items n) }
{
    let inside = gather_inside(command, steps)?;
    steps.push(Step { command, inside })?;
    Ok(1)
}

/// Appends the commands inside the command.
#[tactic(auto, using(written_syntax::proofs::TreeEquations::wholes))]
#[cycle(gathering)]
fn gather_inside<'a>(
    command: &'a InnerCommand,
    steps: &mut Vec<Step<'a>>,
) -> Result<usize, AllocError>
    ensures { IfOk result (λ n. IsGathered (inside_of (whole_command command.now)) steps.old.items steps.new.items n) }
{
    match command {
        InnerCommand::Nnf(formula)
        | InnerCommand::Pnf(formula)
        | InnerCommand::Dnf(formula)
        | InnerCommand::Cnf(formula) => gather(formula, steps),
        InnerCommand::Simpl(formula, given) | InnerCommand::Qe(formula, given) => {
            let own = gather(formula, steps)?;
            let more = gather_all(given.items(), steps)?;
            Ok(own + more)
        }
    }
}
