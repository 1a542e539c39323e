//! The text of a formula of the store.

ghost use Rattle.std.specs.Prelude.{◌≡◌, ◌+◌, ◌<◌, ◌≤◌, ◌++◌, IsErrOf, IfOk, IfSome, OnOk, length, codes};
ghost use Rattle.formula_store.specs.Nodes.{tree, IsId};
ghost use Rattle.logic_meaning.specs.Members.{HasTwoMembers};
ghost use Rattle.logic_meaning.specs.Text.{name_at, tree_text};
ghost use Rattle.formula_laws.specs.Within.{IsTreeWithin};
ghost use Rattle.logic_meaning.specs.Writing.{text_limit};
ghost use Rattle.redlog_printer.specs.Texts.{Begins, brackets, IsOpened};

use crate::error::PrintError;
use crate::forms::put_atom;
use crate::formulas::put_tree;
use crate::output::Output;
use formula_store::{FormulaId, Store, Unfold};
use formula_tree::{Names, Shape};
use logic_meaning::VarId;
use std::alloc::Global;

/// A formula with more nodes has a text that is too long.
const MOST_PRINTED_NODES: u64 = 8_388_608;

/// The text of a formula. `Text` comes exactly where it is longer than 32 MiB, else `Memory`.
///
/// The quantifiers that the formula begins with are written in a loop, since a prenex form has as many as its statement; the
/// recursion is as deep as what stands behind them is high.
pub fn stored_text(
    alloc: Global,
    store: &Store,
    names: &Names,
    id: FormulaId,
) -> Result<Vec<u8>, PrintError>
    requires id { IsId store.now id }
    requires within { IsTreeWithin (length names.now) (tree store.now id) }
    requires members { HasTwoMembers (tree store.now id) }
    ensures text { IfOk result (λ v. v.items ≡ tree_text names.now (tree store.now id)) }
    ensures short { OnOk result (length (tree_text names.now (tree store.now id)) ≤ text_limit) }
    ensures long { IsErrOf result PrintError.Text → text_limit < length (tree_text names.now (tree store.now id)) }
{
    let mut out = Output::new(alloc);
    put_formula(store, names, &mut out, id)?;
    Ok(out.into_bytes())
}

/// Writes the formula.
fn put_formula(
    store: &Store,
    names: &Names,
    out: &mut Output,
    id: FormulaId,
) -> Result<(), PrintError>
    requires id { IsId store.now id }
    requires within { IsTreeWithin (length names.now) (tree store.now id) }
    requires members { HasTwoMembers (tree store.now id) }
    ensures wrote { OnOk result (out.new ≡ out.old ++ tree_text names.now (tree store.now id)) }
    ensures long { IsErrOf result PrintError.Text → text_limit < length out.old + length (tree_text names.now (tree store.now id)) }
{
    let (matrix, count) = put_quantifiers(store, names, out, id)?;
    put_matrix(store, names, out, matrix)?;
    put_brackets(out, count)
}

/// Writes the quantifiers that the formula begins with, and gives what stands behind them and how many brackets are open.
fn put_quantifiers(
    store: &Store,
    names: &Names,
    out: &mut Output,
    id: FormulaId,
) -> Result<(FormulaId, usize), PrintError>
    requires id { IsId store.now id }
    requires within { IsTreeWithin (length names.now) (tree store.now id) }
    requires members { HasTwoMembers (tree store.now id) }
    ensures made { IfOk result (λ r. IsId store.now r.0) }
    ensures opened { IfOk result (λ r. IsOpened names.now out.old (tree store.now id) out.new (tree store.now r.0) r.1) }
    ensures long { IsErrOf result PrintError.Text → text_limit < length out.old + length (tree_text names.now (tree store.now id)) }
{
    let mut id = id;
    let mut count = 0;
    'quantifiers: while let Some(first) = quantifier(store, id) {
        let Quantified { word, name, matrix } = first;
        put_opening(names, out, word, name)?;
        id = matrix;
        count += 1;
    }
    Ok((id, count))
}

/// A quantifier as it is written, its name, and the formula behind it.
#[derive(Clone, Copy)]
struct Quantified {
    word: &'static [u8],
    name: VarId,
    matrix: FormulaId,
}

/// The quantifier that the formula begins with, if it does.
fn quantifier(store: &Store, id: FormulaId) -> Option<Quantified>
    requires { IsId store.now id }
    ensures begins { IfSome result (λ q. Begins (tree store.now id) q.word.now q.name.number (tree store.now q.matrix)) }
    ensures smaller { IfSome result (λ q. q.matrix.number < id.number) }
{
    match store.shape(id) {
        Shape::Ex(name, matrix) => Some(Quantified {
            word: b"ex(",
            name: *name,
            matrix: *matrix,
        }),
        Shape::All(name, matrix) => Some(Quantified {
            word: b"all(",
            name: *name,
            matrix: *matrix,
        }),
        _ => None,
    }
}

/// Writes a quantifier up to its comma.
fn put_opening(names: &Names, out: &mut Output, word: &[u8], name: VarId) -> Result<(), PrintError>
    requires { name.number < length names.now }
    ensures wrote { OnOk result (out.new ≡ out.old ++ (word.now ++ name_at names.now name.number ++ codes ",")) }
    ensures long { IsErrOf result PrintError.Text → text_limit < length out.old + length (word.now ++ name_at names.now name.number ++ codes ",") }
{
    out.put(word)?;
    out.put_name(names, name)?;
    out.put(b",")
}

/// Writes a formula that begins with no quantifier. Only a compound one is unfolded for it.
fn put_matrix(
    store: &Store,
    names: &Names,
    out: &mut Output,
    id: FormulaId,
) -> Result<(), PrintError>
    requires id { IsId store.now id }
    requires within { IsTreeWithin (length names.now) (tree store.now id) }
    requires members { HasTwoMembers (tree store.now id) }
    ensures wrote { OnOk result (out.new ≡ out.old ++ tree_text names.now (tree store.now id)) }
    ensures long { IsErrOf result PrintError.Text → text_limit < length out.old + length (tree_text names.now (tree store.now id)) }
{
    match store.shape(id) {
        Shape::One(atom) => put_atom(out, names, atom),
        _ => put_unfolded(store, names, out, id),
    }
}

/// Writes a formula that is unfolded for it.
fn put_unfolded(
    store: &Store,
    names: &Names,
    out: &mut Output,
    id: FormulaId,
) -> Result<(), PrintError>
    requires id { IsId store.now id }
    requires within { IsTreeWithin (length names.now) (tree store.now id) }
    requires members { HasTwoMembers (tree store.now id) }
    ensures wrote { OnOk result (out.new ≡ out.old ++ tree_text names.now (tree store.now id)) }
    ensures long { IsErrOf result PrintError.Text → text_limit < length out.old + length (tree_text names.now (tree store.now id)) }
{
    match store.unfold(id, MOST_PRINTED_NODES) {
        Ok(tree) => put_tree(out, names, &tree),
        Err(Unfold::Large) => Err(PrintError::Text),
        Err(Unfold::Memory) => Err(PrintError::Memory),
    }
}

/// Closes so many brackets.
fn put_brackets(out: &mut Output, count: usize) -> Result<(), PrintError>
    ensures wrote { OnOk result (out.new ≡ out.old ++ brackets count) }
    ensures long { IsErrOf result PrintError.Text → text_limit < length out.old + count }
{
    for _closed in 0..count {
        out.put(b")")?;
    }
    Ok(())
}
