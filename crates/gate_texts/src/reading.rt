//! Formulas of statements, read on their own.

ghost use Rattle.std.specs.Prelude.{IfSome};
ghost use Rattle.logic_meaning.specs.Every.{Every};
ghost use Rattle.normal_atoms.specs.Atoms.{context_of};
ghost use Rattle.logic_meaning.specs.NormalForm.{IsNormal};
ghost use Rattle.elimination_theory.specs.Theorems.{IsTidy};
ghost use Rattle.formula_tree.specs.Trees.{tree_of};
ghost use Rattle.formula_store.specs.Nodes.{tree, IsId};
ghost use Rattle.nnf_trees.specs.Nnfs.{HasModulus};
ghost use Rattle.written_syntax.specs.Writable.{IsWritableFormula};
ghost use Rattle.written_syntax.specs.StatementSyntaxWritable.{IsWritable};
ghost use Rattle.written_syntax.specs.StatementSyntaxCodeTrees.{statement_tree};
ghost use Rattle.written_syntax.specs.CodeTrees.{formula_tree};

use formula_resolving::{commands_inside, linearise};
use formula_store::{FormulaId, Store};
use formula_tree::{Bindings, Names, Tree};
use normal_atoms::Context;
use redlog_reader::read_statement;
use reference_engine::{eliminate_shared, unfolded_form};
use std::alloc::Global;
use written_syntax::{Action, Command, Formula, Statement};

/// The limit of nodes of each call.
pub const LIMIT: u64 = 1_000_000;

/// The formula that the statement asks for as it is, if no command stands inside it.
pub fn formula_of(alloc: Global, statement: &Statement) -> Option<&Formula>
    requires { IsWritable (statement_tree statement.now) }
    ensures { IfSome result (λ f. IsWritableFormula (formula_tree f.now)) }
{
    let Action::Say(command) = &statement.action else {
        return None;
    };
    let Command::Echo(formula) = &**command else {
        return None;
    };
    let inside = commands_inside(alloc, formula).ok()?;
    if inside.is_empty() {
        Some(formula)
    } else {
        None
    }
}

/// The id of the statement's formula, over normal atoms. Names that are new get the next numbers, in the order of the text.
#[tactic(auto, using(written_syntax::proofs::WritableLemmas::writable, crate::proofs::PlainFormulas::no_places))]
pub fn numbered_id(
    alloc: Global,
    context: Context,
    statement: &str,
    names: &mut Names,
    store: &mut Store,
) -> Option<FormulaId>
    ensures is { IfSome result (IsId store.new) }
    ensures normal { IfSome result (λ id. Every (IsNormal (context_of context)) (tree store.new id)) }
{
    let statement = read_statement(alloc, statement.as_bytes()).ok()?;
    let formula = formula_of(alloc, &statement)?;
    let bound = Bindings::new(alloc);
    match linearise(alloc, formula, &bound, &[], context, names, store) {
        Ok(id) => Some(id),
        Err(_) => None,
    }
}

/// The same, with the numbers of its names from 0 on.
pub fn normal_id(
    alloc: Global,
    context: Context,
    statement: &str,
    store: &mut Store,
) -> Option<FormulaId>
    ensures is { IfSome result (IsId store.new) }
    ensures normal { IfSome result (λ id. Every (IsNormal (context_of context)) (tree store.new id)) }
{
    let mut names = Names::new(alloc);
    numbered_id(alloc, context, statement, &mut names, store)
}

/// The tree of the negation normal form of the statement's formula.
pub fn form_of(alloc: Global, context: Context, statement: &str) -> Option<Tree>
    ensures moduli { IfSome result (λ t. Every HasModulus (tree_of t)) }
    ensures normal { IfSome result (λ t. Every (IsNormal (context_of context)) (tree_of t)) }
{
    let mut store = Store::new(alloc);
    let id = normal_id(alloc, context, statement, &mut store)?;
    unfolded_form(alloc, &mut store, id, LIMIT).ok()
}

/// The id of the statement's formula without quantifiers, as the reference elimination gives it.
pub fn tidy_id(
    alloc: Global,
    context: Context,
    statement: &str,
    store: &mut Store,
) -> Option<FormulaId>
    ensures is { IfSome result (IsId store.new) }
    ensures tidy { IfSome result (λ id. IsTidy (context_of context) (tree store.new id)) }
{
    let id = normal_id(alloc, context, statement, store)?;
    eliminate_shared(alloc, store, context, id, LIMIT).ok()
}
