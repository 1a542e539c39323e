//! The command that asks whether all that is asserted can be true together.

ghost use Rattle.std.specs.Prelude.{◌≡◌, codes, IfOk};
ghost use Rattle.program_meaning.specs.SmtState.{State};
ghost use Rattle.smt_language.specs.Trees.{Check};
ghost use Rattle.smtlib_front.specs.Represents.{Represents};
ghost use Rattle.smtlib_front.specs.Steps.{Does};
ghost use Rattle.smtlib_front.specs.Words.{word_of_verdict, kept_by};

use crate::kept::Kept;
use crate::sentences::sentence_of;
use crate::smt::Smt;
use engine_answers::{Engine, Verdict};
use program_meaning::{SmtError, SmtReply};
use qe_parallel::Gate;
use searched_verdicts::verdict_of;
use std::alloc::{AllocError, Global};
use std::thread::Threads;

/// A sentence is at most so high.
const MOST_HEIGHT: u64 = 512;

impl Smt {
    /// Checks the sentence, and keeps the values that make it true.
    pub(crate) fn check<R: Threads + Sync, G: Gate + Sync>(
        &mut self,
        rt: &R,
        gate: &G,
    ) -> Result<SmtReply, SmtError>
        requires state { (s : State) × Represents self.old s }
        ensures does { (s : State) → Represents self.old s → Does s self.old.limits.nodes Check result self.new }
        ensures limits { self.new.limits ≡ self.old.limits }
    {
        let Some(context) = self.logic else {
            return Err(SmtError::Mode);
        };
        let count = self.declared.count();
        let sentence = sentence_of(self.alloc, &mut self.store, &self.asserted, count)?;
        if self.store.facts(sentence).height > MOST_HEIGHT {
            return Err(SmtError::Depth);
        }
        let engine = Engine {
            rt,
            alloc: self.alloc,
            context,
            limits: self.limits,
            gate,
        };
        let verdict = verdict_of(&engine, &mut self.store, sentence, count)?;
        let line = word_of(self.alloc, &verdict)?;
        self.tidy()?;
        self.kept = kept_by(verdict);
        Ok(SmtReply::Printed(line))
    }

    /// Gives up the formulas that nothing asserted needs.
    fn tidy(&mut self) -> Result<(), AllocError>
        requires state { (s : State) × Represents self.old s }
        ensures state { (s : State) → Represents self.old s → Represents self.new s }
        ensures declared { self.new.declared ≡ self.old.declared }
        ensures limits { self.new.limits ≡ self.old.limits }
    {
        let Ok(ids) = self.store.keep_only(&self.asserted) else {
            return Err(AllocError);
        };
        self.asserted = ids;
        Ok(())
    }
}

/// The word for the verdict.
fn word_of(alloc: Global, verdict: &Verdict) -> Result<Vec<u8>, AllocError>
    ensures { IfOk result (λ line. line.items ≡ word_of_verdict verdict.now) }
{
    let word: &str = match verdict {
        Verdict::False => "unsat",
        Verdict::True(_) | Verdict::TrueAlone => "sat",
        Verdict::Unknown => "unknown",
    };
    word.as_bytes().iter().copied().collect(alloc)
}

/// What the verdict leaves for `get-value`.
fn kept_by(verdict: Verdict) -> Kept
    ensures { result ≡ kept_by verdict }
{
    match verdict {
        Verdict::False | Verdict::Unknown => Kept::Nothing,
        Verdict::True(values) => Kept::Values(values),
        Verdict::TrueAlone => Kept::TooLarge,
    }
}
