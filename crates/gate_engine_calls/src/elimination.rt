//! Formulas eliminated by cases, with their case trees as text.

ghost use Rattle.logic_meaning.specs.Some.{EachOf};
ghost use Rattle.formula_store.specs.Nodes.{IsId};

use engine_answers::{Case, CaseTree, Limits, eliminate, guards_together};
use formula_store::Store;
use gate_texts::{LIMIT, answers_text, normal_id, tell, unfolded_text};
use normal_atoms::Context;
use qe_parallel::OpenGate;
use std::alloc::{AllocError, Global};
use std::fmt::Write;
use std::io;
use std::thread::Threads;

/// A formula that is eliminated under a limit of nodes.
#[derive(Clone, Copy)]
struct Row {
    title: &'static str,
    context: Context,
    statement: &'static str,
    nodes: u64,
}

/// Formulas of one block, of more, and at limits.
const ROWS: [Row; 12] = [
    // the negation has two points on each side, so the lower ones: far below nothing is left, at `a` it is `a - b <= 0`
    Row {
        title: "no number between two",
        context: Context::Fields,
        statement: "all(x,x<a or x>b);",
        nodes: LIMIT,
    },
    // the negation has one point on the upper side, far above, which leaves `true`
    Row {
        title: "each number below another",
        context: Context::Fields,
        statement: "all(x,x<a);",
        nodes: LIMIT,
    },
    // at `a` the second part is false, and the first is `a - b > 0`; at `b` it is the other way round
    Row {
        title: "a number that is one of two, and above the other",
        context: Context::Fields,
        statement: "ex(x,x=a and x>b or x=b and x>a);",
        nodes: LIMIT,
    },
    // the inner block leaves `x - b >= 0`; the upper side has one point, far above, which leaves `true`
    Row {
        title: "a number above another, and none between it and a third",
        context: Context::Fields,
        statement: "ex(x,x>a and all(y,y<x or y>=b));",
        nodes: LIMIT,
    },
    // the negation of the inner block has two points on each side: far below nothing is left, at `x` it is `x - a <= 0`, so the
    // block leaves `x - a > 0`; the upper side has one point, far above, which leaves `true`
    Row {
        title: "a number with none between it and another",
        context: Context::Fields,
        statement: "ex(x,all(y,y<x or y>a));",
        nodes: LIMIT,
    },
    // the inner block leaves that 2 divides `x` or `x - 1`, which is `true`; so the matrix, its negation, is `false`, without a case
    Row {
        title: "each whole number halved",
        context: Context::Integers,
        statement: "all(x,ex(y,x=2*y or x=2*y+1));",
        nodes: LIMIT,
    },
    // from the inside out the blocks leave `z - b >= 0`, at `b` `y - b > 0`, and the negation of `x - b < 0`, which is left just above
    // `x`; at `b` the outer block leaves `a - b > 0`
    Row {
        title: "four blocks one in the other",
        context: Context::Fields,
        statement: "ex(x,x<a and all(y,y<=x or ex(z,z<y and all(u,u<z or u>=b))));",
        nodes: LIMIT,
    },
    // the inner block speaks of another number and is `false`, so that the matrix is `false`
    Row {
        title: "a name bound in its own block",
        context: Context::Fields,
        statement: "ex(x,x>0 and all(x,x<1));",
        nodes: LIMIT,
    },
    // `x` goes to `a`, which leaves `a - b < 0`; one root is enough, so that the reference elimination, which costs 14 nodes, is not
    // asked
    Row {
        title: "a root that is enough, under the limit 13",
        context: Context::Fields,
        statement: "ex(x,x=a and x<b);",
        nodes: 13,
    },
    // `x` goes to `a` and `y` to `b`, which leaves `a + b - c < 0`; the reference elimination costs 28 nodes, and is not asked
    Row {
        title: "two roots that are enough, under the limit 27",
        context: Context::Fields,
        statement: "ex({x,y},x=a and y=b and x+y<c);",
        nodes: 27,
    },
    // with M = 2^127 - 1 each number that is formed passes M, also in the reference elimination
    Row {
        title: "numbers past the limit",
        context: Context::Fields,
        statement: "ex(x,170141183460469231731687303715884105727*x>=3*a and 5*x<=170141183460469231731687303715884105727*b);",
        nodes: LIMIT,
    },
    // four nodes, three of them in the matrix
    Row {
        title: "four nodes under the limit 2",
        context: Context::Fields,
        statement: "ex(x,x>a and x<b);",
        nodes: 2,
    },
];

pub(crate) fn rows<R: Threads + Sync + Print + AllocGlobal>(rt: &R) -> io::Result<()> {
    for row in &ROWS {
        tell(rt, row.title, told(rt, rt.alloc(), row))?;
    }
    Ok(())
}

/// The case tree of the statement's formula, or why there is none.
fn told<R: Threads + Sync>(rt: &R, alloc: Global, row: &Row) -> Option<String> {
    let mut store = Store::new(alloc);
    let context = row.context;
    let id = normal_id(alloc, context, row.statement, &mut store)?;
    let limits = Limits {
        nodes: row.nodes,
        workers: 2,
    };
    let gate = OpenGate::new();
    match eliminate(rt, alloc, &mut store, context, id, &[], limits, &gate) {
        Ok(case_tree) => tree_text(alloc, &mut store, &case_tree),
        Err(error) => format!(in alloc; "{error}").ok(),
    }
}

/// The kind of the block, the matrix, the guards together and the answers of each case.
fn tree_text(alloc: Global, store: &mut Store, case_tree: &CaseTree) -> Option<String>
    requires matrix { IsId store.old case_tree.now.matrix }
    requires guards { EachOf (λ k. IsId store.old k.guard) case_tree.now.cases.items }
{
    let word = if case_tree.universal { "all" } else { "ex" };
    let matrix = unfolded_text(alloc, store, case_tree.matrix)?;
    let guards = guards_text(alloc, store, case_tree)?;
    let answers = cases_text(alloc, &case_tree.cases).ok()?;
    format!(in alloc; "{word}, {matrix}: {guards}{answers}").ok()
}

/// The guards together.
fn guards_text(alloc: Global, store: &mut Store, case_tree: &CaseTree) -> Option<String>
    requires { EachOf (λ k. IsId store.old k.guard) case_tree.now.cases.items }
{
    let together = guards_together(alloc, store, case_tree).ok()?;
    unfolded_text(alloc, store, together)
}

/// The answers of each case.
fn cases_text(alloc: Global, cases: &[Case]) -> Result<String, AllocError> {
    let mut text = String::new(alloc);
    for case in cases {
        let answers = answers_text(alloc, &case.answers)?;
        text.push_str(&format!(in alloc; " [{answers}]")?)?;
    }
    Ok(text)
}
