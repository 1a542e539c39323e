//! Blocks of `ex` over formulas without quantifiers, branch by branch, with what is left of them as text.

ghost use Rattle.std.specs.Prelude.{◌≡◌, All, IfSome};
ghost use Rattle.formula_laws.specs.StandsOnce.{StandsOnce};
ghost use Rattle.formula_store.specs.Nodes.{IsId};
ghost use Rattle.branch_rounds.specs.Branches.{numbers};

use branch_rounds::{Branch, Budget, Work, block_branches};
use formula_store::Store;
use gate_texts::{LIMIT, answers_text, tell, tidy_id, unfolded_text};
use logic_meaning::VarId;
use normal_atoms::Context;
use qe_parallel::OpenGate;
use std::alloc::{AllocError, Global};
use std::fmt::Write;
use std::io;
use std::thread::Threads;
use test_points::TestPoint;

pub(crate) fn rows<R: Threads + Sync + Print + AllocGlobal>(rt: &R) -> io::Result<()> {
    let fields = Context::Fields;
    // `x` goes to `a` and `y` to `b`, which leaves `a + b - c < 0`
    let title = "a block with an equation for each name";
    row(
        rt,
        title,
        fields,
        "x=a and y=b and x+y<c;",
        &[name(0), name(2)],
    )?;
    // `x` goes to a half of `a`, where 2 divides `a`, which leaves `a - 2*b > 0`
    let title = "a half above another number";
    row(rt, title, Context::Integers, "2*x=a and x>b;", &[name(0)])?;
    // the second name stands nowhere and goes to 0, and then `x` to `a`, which leaves `true`
    let title = "a block with a name that stands nowhere";
    row(rt, title, fields, "x=a;", &[name(0), name(2)])?;
    // two points on each side, so the lower ones: far below nothing is left, above `a` it is `a - b < 0`
    let title = "a block of a number between two";
    row(rt, title, fields, "x>a and x<b;", &[name(0)])?;
    tell(rt, "a chain of 100 names", chain(rt, rt.alloc()))
}

/// The branches of a block over the statement's formula, whose names have numbers in the order of the text.
fn row<R: Threads + Sync + Print + AllocGlobal>(
    rt: &R,
    title: &str,
    context: Context,
    statement: &str,
    block: &[VarId],
) -> io::Result<()>
    requires { StandsOnce (numbers block.now) }
{
    tell(
        rt,
        title,
        block_text(rt, rt.alloc(), context, statement, block),
    )
}

fn block_text<R: Threads + Sync>(
    rt: &R,
    alloc: Global,
    context: Context,
    statement: &str,
    block: &[VarId],
) -> Option<String>
    requires { StandsOnce (numbers block.now) }
{
    let mut store = Store::new(alloc);
    let branches = branches_of(rt, alloc, context, statement, block, &mut store)?;
    branches_text(alloc, &store, &branches)
}

/// The name of a number.
fn name(number: usize) -> VarId
    ensures { result.number ≡ number }
{
    VarId { number }
}

/// The branches, over formulas of the store.
pub(crate) fn branches_of<R: Threads + Sync>(
    rt: &R,
    alloc: Global,
    context: Context,
    statement: &str,
    block: &[VarId],
    store: &mut Store,
) -> Option<Vec<Branch>>
    requires { StandsOnce (numbers block.now) }
    ensures { IfSome result (λ v. All (λ b. IsId store.new b.formula) v.items) }
{
    let matrix = tidy_id(alloc, context, statement, store)?;
    let work = Work {
        alloc,
        context,
        assumed: &[],
        workers: 2,
    };
    let mut budget = Budget::of_limit(LIMIT);
    let gate = OpenGate::new();
    block_branches(rt, &work, &mut budget, store, matrix, block, &gate).ok()
}

/// The formulas of the branches, each with its test points.
fn branches_text(alloc: Global, store: &Store, branches: &[Branch]) -> Option<String>
    requires { All (λ b. IsId store.now b.formula) branches.now }
{
    let mut text = "branches".to_string(alloc).ok()?;
    for branch in branches {
        let told = branch_text(alloc, store, branch)?;
        text.push_str(&told).ok()?;
    }
    Some(text)
}

/// The formula of a branch, with its test points.
fn branch_text(alloc: Global, store: &Store, branch: &Branch) -> Option<String>
    requires { IsId store.now branch.now.formula }
{
    let formula = unfolded_text(alloc, store, branch.formula())?;
    let points = points_text(alloc, branch.points()).ok()?;
    format!(in alloc; " [{formula}:{points}]").ok()
}

/// The test points that led to a branch, the first one first, or how many they are, where these are many.
fn points_text(alloc: Global, points: &[TestPoint]) -> Result<String, AllocError> {
    if points.len() > 9 {
        let count = points.len();
        return format!(in alloc; " {count} points");
    }
    answers_text(alloc, points)
}

/// A chain of 100 names, each less than the next, with all of them in the block: each but the last goes far below the next one,
/// which leaves `true`, and the last goes to 0.
fn chain<R: Threads + Sync>(rt: &R, alloc: Global) -> Option<String> {
    let mut text = chain_text(alloc, 100)?;
    text.push(';').ok()?;
    let block = first_names(alloc, 100)?;
    block_text(rt, alloc, Context::Fields, &text, &block)
}

/// The chain of so many names, as text: each is less than the next.
pub(crate) fn chain_text(alloc: Global, count: usize) -> Option<String> {
    let mut text = String::new(alloc);
    let mut before = 0;
    for number in 1..count {
        let word = if before > 0 { " and " } else { "" };
        text.push_str(&format!(in alloc; "{word}x{before}<x{number}").ok()?)
            .ok()?;
        before = number;
    }
    Some(text)
}

/// The first of all names, so many.
pub(crate) fn first_names(alloc: Global, count: usize) -> Option<Vec<VarId>>
    ensures { IfSome result (λ v. StandsOnce (numbers v.items)) }
{
    let mut names = Vec::new(alloc);
    for number in 0..count {
        names.push(name(number)).ok()?;
    }
    Some(names)
}
