ghost use Rattle.std.specs.Prelude.{◌≡◌, ◌≤◌};
ghost use Rattle.program_meaning.specs.SmtState.{State, first_state};
ghost use Rattle.program_meaning.specs.Replies.{Replies};
ghost use Rattle.smt_tokens.specs.CodeTrees.{command_tree};
ghost use Rattle.smt_theorems.specs.Commands.{HasProperNumbers};
ghost use Rattle.smtlib_front.specs.Represents.{Represents};
ghost use Rattle.smtlib_front.specs.Steps.{Does};

use crate::kept::Kept;
use engine_answers::Limits;
use formula_store::{FormulaId, Store};
use formula_tree::Names;
use normal_atoms::Context;
use program_meaning::{SmtError, SmtReply};
use qe_parallel::Gate;
use smt_reader::read_command;
use smt_tokens::SmtCommand;
use std::alloc::Global;
use std::marker::Model;
use std::thread::Threads;

/// What the commands of a script share. It is seen as its limits, its formulas and what the commands so far left.
#[derive(Drop)]
pub struct Smt {
    pub(crate) alloc: Global,
    pub(crate) limits: Limits,
    pub(crate) store: Store,
    pub(crate) logic: Option<Context>,
    pub(crate) declared: Names,
    pub(crate) asserted: Vec<FormulaId>,
    pub(crate) kept: Kept,
}

impl Model for Smt {
    ghost use Rattle.std.specs.Prelude.{◌≤◌, length};
    ghost use Rattle.smtlib_front.specs.Seen.{Seen, HasValueForEach};

    ghost Value = { Seen };

    ghost view = { λ s. record { limits = s.limits; formulas = s.store; logic = s.logic; declared = s.declared; asserted = s.asserted.items; kept = s.kept } };

    ghost invariant = { λ s. (1 ≤ s.limits.workers) × HasValueForEach (length s.declared) s.kept };
}

impl Smt {
    /// A script of which nothing is answered yet, under these limits: without a logic, with no name declared and nothing asserted.
    pub fn new(alloc: Global, limits: Limits) -> Smt
        requires { 1 ≤ limits.workers }
        ensures state { Represents result first_state }
        ensures limits { result.limits ≡ limits }
    {
        Smt {
            alloc,
            limits,
            store: Store::new(alloc),
            logic: None,
            declared: Names::new(alloc),
            asserted: Vec::new(alloc),
            kept: Kept::Nothing,
        }
    }

    /// Answers the command that these bytes spell, or says the first cause of its refusal, which changes nothing.
    /// An elimination is worked on by as many threads of the runtime as the script has workers; each passes the gate before a piece.
    pub fn command<R: Threads + Sync, G: Gate + Sync>(
        &mut self,
        rt: &R,
        bytes: &[u8],
        gate: &G,
    ) -> Result<SmtReply, SmtError>
        requires state { (s : State) × Represents self.old s }
        ensures reply { (s : State) → Represents self.old s → (next : State) × Replies s self.old.limits.nodes bytes.now result next × Represents self.new next }
        ensures limits { self.new.limits ≡ self.old.limits }
    {
        let command = read_command(self.alloc, bytes)?;
        self.answer(rt, &command, gate)
    }

    /// Does what the command says.
    fn answer<R: Threads + Sync, G: Gate + Sync>(
        &mut self,
        rt: &R,
        command: &SmtCommand,
        gate: &G,
    ) -> Result<SmtReply, SmtError>
        requires proper { HasProperNumbers (command_tree command.now) }
        requires state { (s : State) × Represents self.old s }
        ensures does { (s : State) → Represents self.old s → Does s self.old.limits.nodes (command_tree command.now) result self.new }
        ensures limits { self.new.limits ≡ self.old.limits }
    {
        match command {
            SmtCommand::Choose(sort) => self.choose(*sort),
            SmtCommand::Ignored => Ok(SmtReply::Nothing),
            SmtCommand::Declare(name) => self.declare(name),
            SmtCommand::Assert(expression) => self.assert(expression),
            SmtCommand::Check => self.check(rt, gate),
            SmtCommand::Values(names) => self.values(names.items()),
            SmtCommand::Exit => Ok(SmtReply::Finished),
        }
    }
}
