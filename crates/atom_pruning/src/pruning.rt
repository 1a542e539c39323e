//! Which atoms of a conjunction are needed.

ghost use Rattle.std.specs.Prelude.{◌≡◌, ◌<◌, ◌≤◌, ℕ, true, false, List, length, slice_index_or, IfOk, IsTrue};
ghost use Rattle.logic_meaning.specs.Context.{Context as Theory};
ghost use Rattle.logic_meaning.specs.Atom.{Atom as Meant};
ghost use Rattle.atom_pruning.specs.Rows.{AreRows};
ghost use Rattle.atom_pruning.specs.Asked.{asked_of, AreMarks};
ghost use Rattle.atom_pruning.specs.Kept.{AreImpossible, IsKept};
ghost use Rattle.atom_pruning.specs.Keeping.{KeepEnough, needed, IsNeeded};

use crate::outlook::Outlook;
use crate::question::Question;
use crate::row_list::RowList;
use crate::rows::AtomRows;
use std::alloc::{AllocError, Global};

/// What is kept of the atoms of a conjunction: nothing where no point meets them all, else those that are marked, which imply the others.
#[derive(Debug, Drop)]
pub enum Pruned {
    Impossible,
    Marked(Vec<bool>),
}

/// What is kept of the conjunction of the atoms that have these rows, under the assumptions that have those: where Farkas multipliers
/// show that no point of the theory meets all, nothing (Farkas, "Theorie der einfachen Ungleichungen", 1902); else an atom goes where
/// they show that the assumptions and the atoms that are still kept imply it, the last one first. What the search does is taken off the
/// effort; where that does not suffice, or the search finds nothing, atoms stay. Its only error is want of memory.
pub fn kept(
    alloc: Global,
    assumed: &[AtomRows],
    atoms: &[AtomRows],
    effort: &mut u64,
) -> Result<Pruned, AllocError>
    ensures kept { IfOk result (λ k. (c : Theory) (ks us : List Meant) → AreRows c ks assumed.now → AreRows c us atoms.now → IsKept c ks us k) }
    ensures effort { effort.new ≤ effort.old }
{
    if assumed.len() + atoms.len() < 2 || *effort == 0 {
        return all(alloc, atoms);
    }
    let question = Question::new(alloc, asked(assumed, atoms))?;
    let marks = question.marks()?;
    let mut outlook = Outlook::of(alloc, assumed, atoms)?;
    without_implied(&question, &mut outlook, atoms, marks, effort)
}

/// What is kept of the atoms as `kept` tells it, where the first ones, so many, are held to be needed: each of the others goes at once where
/// those that are kept before it imply it. So few rows stand in each question where few atoms are kept. What the search does is taken off
/// the effort; where that does not suffice, atoms stay. Its only error is want of memory.
pub fn kept_in_turn(
    alloc: Global,
    assumed: &[AtomRows],
    atoms: &[AtomRows],
    first: usize,
    effort: &mut u64,
) -> Result<Pruned, AllocError>
    ensures kept { IfOk result (λ k. (c : Theory) (ks us : List Meant) → AreRows c ks assumed.now → AreRows c us atoms.now → IsKept c ks us k) }
    ensures effort { effort.new ≤ effort.old }
{
    if assumed.len() + atoms.len() < 2 || *effort == 0 {
        return all(alloc, atoms);
    }
    let question = Question::new(alloc, asked(assumed, atoms))?;
    let marks = question.first_marks(first)?;
    let mut outlook = Outlook::of_marked(alloc, assumed, atoms, &marks)?;
    let marks = taken(&question, &mut outlook, atoms, first, marks, effort)?;
    without_implied(&question, &mut outlook, atoms, marks, effort)
}

// A mark for each atom.
fn all(alloc: Global, atoms: &[AtomRows]) -> Result<Pruned, AllocError>
    ensures { IfOk result (λ k. (c : Theory) (ks us : List Meant) → AreRows c us atoms.now → IsKept c ks us k) }
{
    Ok(Pruned::Marked(vec![in alloc; true; atoms.len()]?))
}

// The rows of a question whether atoms are needed.
fn asked<'a>(assumed: &'a [AtomRows], atoms: &'a [AtomRows]) -> RowList<'a>
    ensures { asked_of result ≡ needed assumed.now atoms.now }
{
    RowList {
        given: atoms,
        assumed,
        negated: atoms,
    }
}

// The marks, with one for each atom from a place on that those that are marked before it do not imply.
fn taken(
    question: &Question<'_>,
    outlook: &mut Outlook,
    atoms: &[AtomRows],
    first: usize,
    mut marks: Vec<bool>,
    effort: &mut u64,
) -> Result<Vec<bool>, AllocError>
    requires asked { IsNeeded (asked_of question.now.rows) atoms.now }
    requires marks { AreMarks (asked_of question.now.rows) marks.items }
    requires marked { (k : ℕ) → k < first → k < length atoms.now → slice_index_or marks.items k false ≡ true }
    ensures marks { IfOk result (λ v. AreMarks (asked_of question.now.rows) v.items) }
    ensures enough { IfOk result (λ v. KeepEnough (asked_of question.now.rows).assumed atoms.now v.items) }
    ensures effort { effort.new ≤ effort.old }
{
    for place in first.min(atoms.len())..atoms.len() {
        let rows = &atoms[place];
        let implied = outlook.may_be_implied(place, rows)
            && question.implies(place, &mut marks, effort)?;
        if !implied {
            marks[place] = true;
            outlook.take(place, rows);
        }
    }
    Ok(marks)
}

// What is kept of the marked atoms, which imply the others.
fn without_implied(
    question: &Question<'_>,
    outlook: &mut Outlook,
    atoms: &[AtomRows],
    mut marks: Vec<bool>,
    effort: &mut u64,
) -> Result<Pruned, AllocError>
    requires asked { IsNeeded (asked_of question.now.rows) atoms.now }
    requires marks { AreMarks (asked_of question.now.rows) marks.items }
    requires enough { KeepEnough (asked_of question.now.rows).assumed atoms.now marks.items }
    ensures kept { IfOk result (λ k. (c : Theory) (ks us : List Meant) → AreRows c ks (asked_of question.now.rows).assumed → AreRows c us atoms.now → IsKept c ks us k) }
    ensures effort { effort.new ≤ effort.old }
{
    if outlook.may_contradict() && question.surveys(&marks, outlook.needed()?, effort)? {
        return Ok(Pruned::Impossible);
    }
    for place in (0..atoms.len()).rev() {
        if marks[place] && outlook.may_be_implied(place, &atoms[place]) {
            marks[place] = false;
            let implied = question.implies(place, &mut marks, effort)?;
            marks[place] = !implied;
            outlook.settle(place, implied);
        }
    }
    marks.truncate(atoms.len());
    Ok(Pruned::Marked(marks))
}

/// Whether Farkas multipliers show that no point of the theory meets all of the atoms that have these rows, under the assumptions that have
/// those; not where the effort does not suffice. What the search does is taken off it. Its only error is want of memory.
pub fn are_impossible(
    alloc: Global,
    assumed: &[AtomRows],
    atoms: &[AtomRows],
    effort: &mut u64,
) -> Result<bool, AllocError>
    ensures impossible { IfOk result (λ b. IsTrue b → (c : Theory) (ks us : List Meant) → AreRows c ks assumed.now → AreRows c us atoms.now → AreImpossible c ks us) }
    ensures effort { effort.new ≤ effort.old }
{
    if *effort == 0 || !Outlook::of(alloc, assumed, atoms)?.may_contradict() {
        return Ok(false);
    }
    let question = Question::new(alloc, asked(assumed, atoms))?;
    let marks = question.marks()?;
    let refuted = question.refutes(&marks, effort)?;
    Ok(refuted)
}
