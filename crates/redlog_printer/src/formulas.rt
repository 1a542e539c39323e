//! The text of formulas. The recursion is as deep as the formula is high, which the levels of a script bound by 512.

ghost use Rattle.std.specs.Prelude.{◌≡◌, ◌<◌, ◌≤◌, ◌+◌, ◌++◌, ℕ, IfOk, OnOk, IsErrOf, length, codes};
ghost use Rattle.formula_tree.specs.Trees.{tree_of, trees_of};
ghost use Rattle.logic_meaning.specs.Text.{name_at, is_compound, tree_text, members_text};
ghost use Rattle.redlog_printer.specs.ArgumentText.{argument_text};
ghost use Rattle.formula_laws.specs.Within.{IsTreeWithin, AreTreesWithin};
ghost use Rattle.logic_meaning.specs.Writing.{text_limit};

use crate::error::PrintError;
use crate::forms::put_atom;
use crate::output::Output;
use formula_tree::{Names, Tree, Trees};
use logic_meaning::VarId;
use std::alloc::Global;

/// The text of a formula, where the names of the list are numbered by their places. `Text` comes exactly where the text
/// is longer than 32 MiB, else `Memory`.
pub fn formula_text(alloc: Global, tree: &Tree, names: &Names) -> Result<Vec<u8>, PrintError>
    requires { IsTreeWithin (length names.now) (tree_of tree.now) }
    ensures text { IfOk result (λ v. v.items ≡ tree_text names.now (tree_of tree.now)) }
    ensures short { OnOk result (length (tree_text names.now (tree_of tree.now)) ≤ text_limit) }
    ensures long { IsErrOf result PrintError.Text → text_limit < length (tree_text names.now (tree_of tree.now)) }
{
    let mut out = Output::new(alloc);
    put_tree(&mut out, names, tree)?;
    Ok(out.into_bytes())
}

/// The text of a formula.
#[cycle(text)]
#[tactic(auto, using(formula_tree::proofs::TreeEquations::trees))]
pub fn put_tree(out: &mut Output, names: &Names, tree: &Tree) -> Result<(), PrintError>
    requires { IsTreeWithin (length names.now) (tree_of tree.now) }
    ensures wrote { OnOk result (out.new ≡ out.old ++ tree_text names.now (tree_of tree.now)) }
    ensures long { IsErrOf result PrintError.Text → text_limit < length out.old + length (tree_text names.now (tree_of tree.now)) }
{
    match tree {
        Tree::True => out.put(b"true"),
        Tree::False => out.put(b"false"),
        Tree::One(atom) => put_atom(out, names, atom),
        Tree::And(fs) => put_members(out, names, b" and ", fs),
        Tree::Or(fs) => put_members(out, names, b" or ", fs),
        Tree::Not(f) => put_member(out, names, b"not ", f),
        Tree::Impl(f, g) => put_both(out, names, f, b" impl ", g),
        Tree::Repl(f, g) => put_both(out, names, f, b" repl ", g),
        Tree::Equiv(f, g) => put_both(out, names, f, b" equiv ", g),
        Tree::Ex(x, f) => put_quantified(out, names, b"ex(", *x, f),
        Tree::All(x, f) => put_quantified(out, names, b"all(", *x, f),
    }
}

// Whether the formula is put in parentheses where it is a member or an argument.
#[tactic(auto, using(formula_tree::proofs::TreeEquations::trees))]
fn is_compound(tree: &Tree) -> bool
    ensures { result ≡ is_compound (tree_of tree.now) }
{
    match tree {
        Tree::True | Tree::False | Tree::One(_) | Tree::Ex(..) | Tree::All(..) => false,
        Tree::And(_)
        | Tree::Or(_)
        | Tree::Not(_)
        | Tree::Impl(..)
        | Tree::Repl(..)
        | Tree::Equiv(..) => true,
    }
}

// A formula as a member or an argument.
#[cycle(text)]
fn put_argument(out: &mut Output, names: &Names, tree: &Tree) -> Result<(), PrintError>
    requires { IsTreeWithin (length names.now) (tree_of tree.now) }
    ensures wrote { OnOk result (out.new ≡ out.old ++ argument_text names.now (tree_of tree.now)) }
    ensures long { IsErrOf result PrintError.Text → text_limit < length out.old + length (argument_text names.now (tree_of tree.now)) }
{
    if is_compound(tree) {
        out.put(b"(")?;
        put_tree(out, names, tree)?;
        out.put(b")")
    } else {
        put_tree(out, names, tree)
    }
}

// The members with a word between each two.
#[cycle(text)]
fn put_members(
    out: &mut Output,
    names: &Names,
    word: &[u8],
    trees: &Trees,
) -> Result<(), PrintError>
    requires { AreTreesWithin (length names.now) (trees_of trees.now) }
    ensures wrote { OnOk result (out.new ≡ out.old ++ members_text names.now word.now (trees_of trees.now)) }
    ensures long { IsErrOf result PrintError.Text → text_limit < length out.old + length (members_text names.now word.now (trees_of trees.now)) }
{
    let [first, others @ ..] = trees.items() else {
        return Ok(());
    };
    put_argument(out, names, first)?;
    for tree in others {
        put_member(out, names, word, tree)?;
    }
    Ok(())
}

// A member or an argument with a word before it.
#[cycle(text)]
fn put_member(out: &mut Output, names: &Names, word: &[u8], tree: &Tree) -> Result<(), PrintError>
    requires { IsTreeWithin (length names.now) (tree_of tree.now) }
    ensures wrote { OnOk result (out.new ≡ out.old ++ (word.now ++ argument_text names.now (tree_of tree.now))) }
    ensures long { IsErrOf result PrintError.Text → text_limit < length out.old + length (word.now ++ argument_text names.now (tree_of tree.now)) }
{
    out.put(word)?;
    put_argument(out, names, tree)
}

// Two arguments with a word between them.
#[cycle(text)]
fn put_both(
    out: &mut Output,
    names: &Names,
    left: &Tree,
    word: &[u8],
    right: &Tree,
) -> Result<(), PrintError>
    requires left { IsTreeWithin (length names.now) (tree_of left.now) }
    requires right { IsTreeWithin (length names.now) (tree_of right.now) }
    ensures wrote { OnOk result (out.new ≡ out.old ++ (argument_text names.now (tree_of left.now) ++ word.now ++ argument_text names.now (tree_of right.now))) }
    ensures long { IsErrOf result PrintError.Text → text_limit < length out.old + length (argument_text names.now (tree_of left.now) ++ word.now ++ argument_text names.now (tree_of right.now)) }
{
    put_argument(out, names, left)?;
    put_member(out, names, word, right)
}

// A quantified formula, from the word with its parenthesis on.
#[cycle(text)]
fn put_quantified(
    out: &mut Output,
    names: &Names,
    word: &[u8],
    x: VarId,
    tree: &Tree,
) -> Result<(), PrintError>
    requires name { x.number < length names.now }
    requires tree { IsTreeWithin (length names.now) (tree_of tree.now) }
    ensures wrote { OnOk result (out.new ≡ out.old ++ (word.now ++ name_at names.now x.number ++ codes "," ++ tree_text names.now (tree_of tree.now) ++ codes ")")) }
    ensures long { IsErrOf result PrintError.Text → text_limit < length out.old + length (word.now ++ name_at names.now x.number ++ codes "," ++ tree_text names.now (tree_of tree.now) ++ codes ")") }
{
    out.put(word)?;
    out.put_name(names, x)?;
    out.put(b",")?;
    put_tree(out, names, tree)?;
    out.put(b")")
}
