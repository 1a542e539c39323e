//! Samples and truths of formulas with quantifiers, by their cases.

ghost use Rattle.std.specs.Prelude.{◌≡◌, ◌≤◌};

use crate::blocks::chain_text;
use engine_answers::{Engine, Limits};
use exact_numbers::Fraction;
use formula_store::Store;
use gate_texts::{LIMIT, normal_id, sample_text, tell};
use linear_forms::Values;
use logic_meaning::VarId;
use normal_atoms::Context;
use qe_parallel::OpenGate;
use std::alloc::Global;
use std::fmt::Write;
use std::io;
use std::thread::Threads;

pub(crate) fn rows<R: Threads + Sync + Print + AllocGlobal>(rt: &R) -> io::Result<()> {
    let fields = Context::Fields;
    let integers = Context::Integers;
    // two points on each side, so the lower ones: just above 0, and the next critical value is 1
    let title = "sample between 0 and 1, by cases";
    sample(rt, title, fields, "ex(x,x>0 and x<1);")?;
    // the upper points are fewer: just below 3, and the critical value before it is 2
    sample(rt, "sample below 3", fields, "ex(x,x>1 and x>2 and x<3);")?;
    // far above, and the greatest critical value is 3
    sample(rt, "sample above 3", fields, "ex(x,x>3);")?;
    // no guard is true
    sample(rt, "sample between 0 and 0", fields, "ex(x,x>0 and x<0);")?;
    // far below in the class of 1, whose greatest member below 0 is -2
    let title = "sample of a residue below 0, by cases";
    sample(rt, title, integers, "ex(x,x<0 and cong(x,1,3));")?;
    // far above in the class of 0, whose least member above 3 is 4
    let title = "sample of an even number above 3";
    sample(rt, title, integers, "ex(x,x>3 and cong(x,0,2));")?;
    tell(rt, "sample of a chain of 200 names", chain(rt, rt.alloc()))?;
    // above each number there is another
    let title = "whether each number has a greater one";
    truth(rt, title, fields, "all(x,ex(y,y>x+a));")?;
    // nothing lies between 0 and 0
    let title = "whether a number lies between 0 and 0";
    truth(rt, title, fields, "ex(x,x>a and x<b);")
}

/// The sample of the statement's formula, with 0 for its free names.
fn sample<R: Threads + Sync + Print + AllocGlobal>(
    rt: &R,
    title: &str,
    context: Context,
    statement: &str,
) -> io::Result<()> {
    let alloc = rt.alloc();
    match sample_of(rt, alloc, context, statement) {
        Some(sample) => tell(rt, title, sample_text(alloc, &sample).ok()),
        None => tell(rt, title, None),
    }
}

/// That sample.
fn sample_of<R: Threads + Sync>(
    rt: &R,
    alloc: Global,
    context: Context,
    statement: &str,
) -> Option<Option<Vec<(VarId, Fraction)>>> {
    let mut store = Store::new(alloc);
    let id = normal_id(alloc, context, statement, &mut store)?;
    let origin = Values::new(alloc, 1);
    let gate = OpenGate::new();
    let engine = engine(rt, alloc, context, &gate);
    engine.sample(&mut store, id, &origin).ok()
}

/// A chain of 200 names, each less than the next. The last goes to 0, and each other far below the next one, whose value is the only
/// critical value there: so the values are -199 to 0.
fn chain<R: Threads + Sync>(rt: &R, alloc: Global) -> Option<String> {
    let statement = chain_statement(alloc)?;
    let values = sample_of(rt, alloc, Context::Fields, &statement)??;
    ends_text(alloc, &values)
}

/// How many values there are, and the first and the last of them.
fn ends_text(alloc: Global, values: &[(VarId, Fraction)]) -> Option<String> {
    let count = values.len();
    let first = values.first()?.1.numerator;
    let last = values.last()?.1.numerator;
    format!(in alloc; "{count} values, from {first} to {last}").ok()
}

/// The question for that chain.
fn chain_statement(alloc: Global) -> Option<String> {
    let names = names_text(alloc, 200)?;
    let chain = chain_text(alloc, 200)?;
    format!(in alloc; "ex({{{names}}},{chain});").ok()
}

/// So many names, as text.
fn names_text(alloc: Global, count: usize) -> Option<String> {
    let mut text = String::new(alloc);
    for number in 0..count {
        let comma = if number > 0 { "," } else { "" };
        text.push_str(&format!(in alloc; "{comma}x{number}").ok()?)
            .ok()?;
    }
    Some(text)
}

/// Whether the statement's formula is true with 0 for its free names.
fn truth<R: Threads + Sync + Print + AllocGlobal>(
    rt: &R,
    title: &str,
    context: Context,
    statement: &str,
) -> io::Result<()> {
    tell(rt, title, holds(rt, rt.alloc(), context, statement))
}

/// That truth.
fn holds<R: Threads + Sync>(
    rt: &R,
    alloc: Global,
    context: Context,
    statement: &str,
) -> Option<String> {
    let mut store = Store::new(alloc);
    let id = normal_id(alloc, context, statement, &mut store)?;
    let origin = Values::new(alloc, 1);
    let gate = OpenGate::new();
    let engine = engine(rt, alloc, context, &gate);
    let truth = engine.truth(&mut store, id, &origin).ok()?;
    truth.to_string(alloc).ok()
}

/// An engine of two threads.
fn engine<'a, R: Threads + Sync>(
    rt: &'a R,
    alloc: Global,
    context: Context,
    gate: &'a OpenGate,
) -> Engine<'a, R, OpenGate>
    ensures context { result.context ≡ context }
    ensures workers { 1 ≤ result.limits.workers }
{
    let limits = Limits {
        nodes: LIMIT,
        workers: 2,
    };
    Engine {
        rt,
        alloc,
        context,
        limits,
        gate,
    }
}
