ghost use Rattle.std.specs.Prelude.{◌≡◌};
ghost use Rattle.written_syntax.specs.CodeTrees.{whole_command as inner_whole};
ghost use Rattle.language_meaning.specs.Inner.{command_in};
ghost use Rattle.written_syntax.specs.StatementSyntaxCodeTrees.{whole_command};

use crate::entries::Entries;
use crate::grid::GridAxes;
use crate::literals::Literals;
use crate::tree::{Formula, Formulas, InnerCommand, Term};
use language_meaning::Setting;
use logic_meaning::Name;

/// What a statement asks for.
#[derive(Drop)]
pub enum Command {
    Echo(Formula),
    Nnf(Formula),
    Pnf(Formula),
    Dnf(Formula),
    Cnf(Formula),
    Simpl(Formula, Formulas),
    Qe(Formula, Formulas),
    Qea(Formula, Formulas),
    Holds(Formula, Entries),
    Sample(Formula, Entries),
    Grid(Formula, GridAxes),
    /// Asks for a point that meets the constraints, or for multipliers by which none does.
    Certify(Formulas),
    /// Asks whether the multipliers prove that no point meets the constraints.
    Check(Formulas, Literals),
    /// Asks for the least value of the term under the constraints.
    Least(Formulas, Term),
}

impl Command {
    /// The command that stands inside a formula, by itself. It takes no memory.
    #[tactic(auto, using(crate::proofs::TreeEquations::wholes))]
    pub fn of_inner(command: InnerCommand) -> Command
        ensures { whole_command result ≡ command_in (inner_whole command) }
    {
        match command {
            InnerCommand::Nnf(formula) => Command::Nnf(formula),
            InnerCommand::Pnf(formula) => Command::Pnf(formula),
            InnerCommand::Dnf(formula) => Command::Dnf(formula),
            InnerCommand::Cnf(formula) => Command::Cnf(formula),
            InnerCommand::Simpl(formula, given) => Command::Simpl(formula, given),
            InnerCommand::Qe(formula, given) => Command::Qe(formula, given),
        }
    }
}

/// What a statement does. A command is kept in a box, since a formula is large.
#[derive(Drop)]
pub enum Action {
    Empty,
    Ignored,
    Finish,
    Choose(Setting),
    Say(Box<Command>),
    Assign(Name, Box<Command>),
    /// Puts atoms behind the standing assumptions.
    Assume(Formulas),
    /// Takes the standing assumptions back.
    Retract,
}

/// One statement of a script. Its line is printed where it ends with `;`.
#[derive(Drop)]
pub struct Statement {
    pub action: Action,
    pub printed: bool,
}
