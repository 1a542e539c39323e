//! That scripts are answered. Each function does nothing; its contract is a law.

ghost use Rattle.redlog_run.specs.Accepted.{NeverRefusedIsUnrefused, SomeFormulaIsUnrefused};
ghost use Rattle.redlog_run.specs.NoRefusal.{UnrefusedScriptsHaveNoRefusal};
ghost use Rattle.redlog_run.specs.WithoutFormulas.{EndingIsAnswered, ChoicesAreAnswered, NoneIsRefused, SomeChoiceIsAnswered};

/// A script each of whose statements, in each state that the ones before it may leave, has no cause of a refusal has no run with a
/// refusal, so `run` answers it or runs out of memory.
pub fn unrefused_scripts_have_no_refusal()
    ensures { UnrefusedScriptsHaveNoRefusal }
{}

/// A script of statements that are never refused, up to the first that ends it, is such a script. `rlset pasf; true;` is one.
pub fn never_refused_is_unrefused()
    ensures statements { NeverRefusedIsUnrefused }
    ensures example { SomeFormulaIsUnrefused }
{}

/// A script whose first statement is `end`, `bye` or `quit` has exactly one run, which has no line. One whose statements,
/// through the first that ends it, are empty, ignored, choices of a theory or `rlretract` has exactly one, which has their lines.
/// No run of such a script has a refusal, so `run` answers it or runs out of memory. `rlset pasf; end;` is such a script.
pub fn scripts_without_formulas()
    ensures ending { EndingIsAnswered }
    ensures choices { ChoicesAreAnswered }
    ensures none_refused { NoneIsRefused }
    ensures example { SomeChoiceIsAnswered }
{}
