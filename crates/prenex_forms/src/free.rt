//! Which names are free in a formula.

ghost use Rattle.std.specs.Prelude.{◌≡◌, ◌<◌, ◌↔◌, ℕ, pos, true, false, IsTrue, length, slice_set};
ghost use Rattle.logic_meaning.specs.Form.{coefficient};
ghost use Rattle.logic_meaning.specs.Atom.{Mentions};
ghost use Rattle.logic_meaning.specs.Every.{FreeInSome};
ghost use Rattle.logic_meaning.specs.Tree.{IsFree};
ghost use Rattle.nnf_trees.specs.Nnfs.{nnf_of, nnfs_of};
ghost use Rattle.prenex_forms.specs.Chosen.{flag};
ghost use Rattle.prenex_forms.specs.Marks.{Marks};

use crate::atoms::form;
use linear_forms::Linear;
use logic_meaning::VarId;
use nnf_trees::{Members, Nnf};

/// Marks each name that is free in the formula and not hidden. The hidden names are the same afterwards. It takes no memory, and
/// the time of one walk. The recursion is as deep as the formula is high.
#[cycle(mark)]
#[tactic(auto, using(nnf_trees::proofs::NnfEquations::nnfs))]
pub(crate) fn mark_free(f: &Nnf, hidden: &mut [bool], marks: &mut [bool])
    requires { length hidden.old ≡ length marks.old }
    ensures marks { Marks hidden.old marks.old (IsFree (nnf_of f.now)) marks.new }
    ensures hidden { hidden.new ≡ hidden.old }
{
    match f {
        Nnf::Constant(_) => {}
        Nnf::One(atom) => mark_names(form(atom), hidden, marks),
        Nnf::Joined(_, members) => mark_free_in(members, hidden, marks),
        Nnf::Quantified(_, name, inner) => {
            let before = hide(hidden, *name);
            mark_free(inner, hidden, marks);
            put_back(hidden, *name, before);
        }
    }
}

// The same of the members.
#[cycle(mark)]
fn mark_free_in(members: &Members, hidden: &mut [bool], marks: &mut [bool])
    requires { length hidden.old ≡ length marks.old }
    ensures marks { Marks hidden.old marks.old (FreeInSome Mentions (nnfs_of members.now)) marks.new }
    ensures hidden { hidden.new ≡ hidden.old }
{
    for member in members.items() {
        mark_free(member, hidden, marks);
    }
}

// Marks each name of the form that is not hidden.
fn mark_names(form: &Linear, hidden: &[bool], marks: &mut [bool])
    requires { length hidden.now ≡ length marks.old }
    ensures { Marks hidden.now marks.old (λ x. ¬ (coefficient x form.now ≡ pos 0)) marks.new }
{
    // Its clause says that each name stands once.
    let _constant = form.constant_part();
    for place in 0..form.places() {
        let Some((name, _)) = form.term(place) else {
            unreachable!()
        };
        if is_shown(hidden, name) {
            marks[name.number] = true;
        }
    }
}

// Whether the name has a flag, and is not hidden.
fn is_shown(hidden: &[bool], name: VarId) -> bool
    ensures { IsTrue result ↔ ((name.number < length hidden.now) × (flag hidden.now name.number ≡ false)) }
{
    match hidden.get(name.number) {
        Some(hidden) => !*hidden,
        None => false,
    }
}

// Hides the name, and says whether it was hidden before.
fn hide(hidden: &mut [bool], name: VarId) -> bool
    ensures before { result ≡ flag hidden.old name.number }
    ensures hidden { hidden.new ≡ slice_set hidden.old name.number true }
{
    if name.number >= hidden.len() {
        return false;
    }
    let before = hidden[name.number];
    hidden[name.number] = true;
    before
}

// Hides the name, or shows it.
fn put_back(hidden: &mut [bool], name: VarId, before: bool)
    ensures { hidden.new ≡ slice_set hidden.old name.number before }
{
    if name.number < hidden.len() {
        hidden[name.number] = before;
    }
}
