//! Calls on formulas, with what they give as text.

use formula_resolving::{PlainMaker, linearise};
use formula_store::{Store, Unfold};
use formula_tree::{Bindings, Names, Tree};
use gate_texts::{
    LIMIT, answers_text, form_of, formula_of, normal_id, numbered_id, sample_text, tell, tree_text,
};
use linear_forms::{Linear, Values};
use logic_meaning::{Name, VarId};
use normal_atoms::{Atom, Context, Rel};
use plain_samples::sample_plain;
use redlog_printer::formula_text;
use redlog_reader::read_statement;
use reference_engine::{PrintedCase, cases_plain, put_in};
use std::alloc::{AllocError, Global};
use std::fmt::Write;
use std::io;

pub(crate) fn rows<R: Print + AllocGlobal>(rt: &R) -> io::Result<()> {
    let alloc = rt.alloc();
    let fields = Context::Fields;
    let integers = Context::Integers;
    let pair = plain_tree(alloc, fields, "x>0 and 6<=4*x;");
    tell(rt, "a plain tree", pair)?;
    let whole = unfolding(alloc, "p>0 equiv (p>0 impl q>0);", 5);
    tell(rt, "a tree of 5 nodes, unfolded under the limit 5", whole)?;
    let large = unfolding(alloc, "p>0 equiv (p>0 impl q>0);", 4);
    tell(rt, "the same under the limit 4", large)?;
    let same = ids(alloc, "x>0 or y>0;", "2*x>0 or -y<0;");
    tell(rt, "a formula, written in two ways", same)?;
    let other = ids(alloc, "x>0 or y>0;", "y>0 or x>0;");
    tell(rt, "a formula, and one with its members exchanged", other)?;
    tell(rt, "an atom, printed", printed_atom(alloc))?;
    let between = cases(alloc, fields, "ex(x,x>a and x<b);");
    tell(rt, "cases of a number between two", between)?;
    let half = cases(alloc, integers, "ex(x,2*x=a);");
    tell(rt, "cases of a half", half)?;
    let fifteenth = sample(alloc, fields, "ex({x,y},3*x=1 and 5*y=x);");
    tell(rt, "sample of a third and a fifteenth", fifteenth)?;
    let below = sample(alloc, integers, "ex(x,x<0 and cong(x,1,3));");
    tell(rt, "sample of a residue below 0", below)?;
    let none = sample(alloc, integers, "ex(x,0<x and x<1);");
    tell(rt, "sample between 0 and 1", none)
}

/// The tree that a maker of plain trees keeps of the statement's formula.
#[tactic(auto, using(written_syntax::proofs::WritableLemmas::writable, gate_texts::proofs::PlainFormulas::no_places))]
fn plain_tree(alloc: Global, context: Context, statement: &str) -> Option<String> {
    let statement = read_statement(alloc, statement.as_bytes()).ok()?;
    let formula = formula_of(alloc, &statement)?;
    let mut names = Names::new(alloc);
    let mut maker = PlainMaker::new(alloc);
    let bound = Bindings::new(alloc);
    let id = linearise(alloc, formula, &bound, &[], context, &mut names, &mut maker).ok()?;
    tree_text(alloc, maker.plain(id)).ok()
}

/// Whether two statements' formulas over the ordered fields have one id in a store.
fn ids(alloc: Global, first: &str, second: &str) -> Option<String> {
    let mut names = Names::new(alloc);
    let mut store = Store::new(alloc);
    let first = numbered_id(alloc, Context::Fields, first, &mut names, &mut store)?;
    let second = numbered_id(alloc, Context::Fields, second, &mut names, &mut store)?;
    let text = if first == second { "one id" } else { "two ids" };
    text.to_string(alloc).ok()
}

/// The tree of the statement's formula over the ordered fields, unfolded under a limit of nodes.
fn unfolding(alloc: Global, statement: &str, limit: u64) -> Option<String> {
    let mut store = Store::new(alloc);
    let id = normal_id(alloc, Context::Fields, statement, &mut store)?;
    match store.unfold(id, limit) {
        Ok(tree) => tree_text(alloc, &tree).ok(),
        Err(Unfold::Large) => "large".to_string(alloc).ok(),
        Err(Unfold::Memory) => None,
    }
}

/// The text of `x > 0`, as the printer gives it.
#[tactic(auto, using(formula_tree::proofs::TreeEquations::trees))]
fn printed_atom(alloc: Global) -> Option<String> {
    let mut names = Names::new(alloc);
    names.number(&Name::of(b"x")).ok()?;
    let form = Linear::variable(alloc, VarId { number: 0 }).ok()?;
    let tree = Tree::One(Atom::Compare(Rel::Greater, form));
    let text = formula_text(alloc, &tree, &names).ok()?;
    String::from_utf8(text).ok()
}

/// The cases of the statement's formula.
fn cases(alloc: Global, context: Context, statement: &str) -> Option<String> {
    let form = form_of(alloc, context, statement)?;
    let cases = cases_plain(alloc, &form, context, LIMIT).ok()?;
    cases_text(alloc, &cases).ok()
}

/// The guards and the answers of the cases.
fn cases_text(alloc: Global, cases: &[PrintedCase]) -> Result<String, AllocError> {
    let mut text = "cases".to_string(alloc)?;
    for case in cases {
        let guard = tree_text(alloc, &case.guard)?;
        let answers = answers_text(alloc, &case.answers)?;
        text.push_str(&format!(in alloc; " [{guard}:{answers}]")?)?;
    }
    Ok(text)
}

/// The sample of the statement's formula, with 0 for its free names.
fn sample(alloc: Global, context: Context, statement: &str) -> Option<String> {
    let form = form_of(alloc, context, statement)?;
    let origin = Values::new(alloc, 1);
    let closed = put_in(alloc, &form, context, &origin).ok()?;
    let values = sample_plain(alloc, &closed, context, LIMIT).ok()?;
    sample_text(alloc, &values).ok()
}
