//! One name less in a block, and one more, as far as it goes.

ghost use Rattle.std.specs.Prelude.{◌≡◌, IfOk, MatchOption, map};
ghost use Rattle.std.specs.List.{AllByRecursion};
ghost use Rattle.logic_meaning.specs.Some.{EachOf};
ghost use Rattle.logic_meaning.specs.NormalForm.{IsNormal};
ghost use Rattle.normal_atoms.specs.Atoms.{context_of, atom_of, IsWellFormed};
ghost use Rattle.shadow_theory.specs.Shadows.{IsShadowOf};
ghost use Rattle.atom_pruning.specs.Rows.{AreRows};
ghost use Rattle.atom_pruning.specs.Kept.{marked as marked_of};
ghost use Rattle.narrowed_blocks.specs.Narrowing.{IsNever};
ghost use Rattle.narrowed_blocks.specs.Settings.{IsSetting, IsSound, IsStep, Becomes, assumed_in, AreNeeded};

use crate::conjunction::others_of;
use crate::growth::by_growth;
use crate::open_block::OpenBlock;
use atom_pruning::{AtomRows, Pruned, kept_in_turn};
use field_shadows::field_shadow;
use integer_shadows::integer_shadow;
use logic_meaning::VarId;
use normal_atoms::{Atom, Context};
use shadow_theory::Shadow;
use std::alloc::{AllocError, Global};

/// With how many pairs of bounds a name goes at most where so many names are left then; the last number is that of more names. Pairs are
/// multiplied by those of the names to come.
const MOST_PAIRS: [usize; 5] = [1_500, 500, 160, 48, 16];

/// The theory of the numbers, and the assumptions with their rows.
#[derive(Drop)]
pub(crate) struct Setting<'a> {
    alloc: Global,
    context: Context,
    assumed: &'a [Atom],
    rows: Vec<AtomRows>,
}

/// What becomes of a block where a name is to go: it is true nowhere where the assumptions are, or has the name no more, or stays.
#[derive(Drop)]
pub(crate) enum Step {
    Never,
    Narrower(OpenBlock),
    Stays,
}

impl<'a> Setting<'a> {
    /// The theory with these assumptions. Its only error is want of memory.
    pub(crate) fn of(
        alloc: Global,
        context: Context,
        assumed: &'a [Atom],
    ) -> Result<Setting<'a>, AllocError>
        requires { AllByRecursion IsWellFormed assumed.now }
        ensures setting { IfOk result IsSetting }
        ensures context { IfOk result (λ s. s.context ≡ context) }
        ensures assumed { IfOk result (λ s. s.assumed.now ≡ assumed.now) }
    {
        let rows = rows_of(alloc, context, assumed)?;
        Ok(Setting {
            alloc,
            context,
            assumed,
            rows,
        })
    }

    /// The block without names that can go, as long as there are some; none where it is true nowhere where the assumptions are. Where names
    /// stay though others went, it is the last one with no more atoms than there were. The only error is want of memory.
    pub(crate) fn narrowed(
        &self,
        block: OpenBlock,
        effort: &mut u64,
    ) -> Result<Option<OpenBlock>, AllocError>
        requires setting { IsSetting self.now }
        requires sound { IsSound self.now block }
        ensures { IfOk result (λ o. MatchOption o (IsNever (context_of self.now.context) (assumed_in self.now) block) (Becomes self.now block)) }
    {
        let most = block.atoms.len();
        let count = block.movable.len();
        let mut least = block.copy(self.alloc)?;
        let mut current = block;
        for _ in 0..count {
            match self.step(&current, effort)? {
                Step::Never => return Ok(None),
                Step::Stays => break,
                Step::Narrower(next) => current = next,
            }
            if current.atoms.len() <= most {
                least = current.copy(self.alloc)?;
            }
        }
        if current.names.is_empty() {
            Ok(Some(current))
        } else {
            Ok(Some(least))
        }
    }

    // The block without one name that can go.
    fn step(&self, block: &OpenBlock, effort: &mut u64) -> Result<Step, AllocError>
        requires setting { IsSetting self.now }
        requires sound { IsSound self.now block.now }
        ensures { IfOk result (IsStep self.now block.now) }
    {
        let places = by_growth(self.alloc, &block.atoms, &block.movable)?;
        for place in places {
            match self.without(block, place, effort)? {
                Step::Stays => {}
                Step::Never => return Ok(Step::Never),
                Step::Narrower(next) => return Ok(Step::Narrower(next)),
            }
        }
        Ok(Step::Stays)
    }

    // The block without the name at a place of those that may go, if it can go.
    fn without(&self, block: &OpenBlock, place: usize, effort: &mut u64) -> Result<Step, AllocError>
        requires setting { IsSetting self.now }
        requires sound { IsSound self.now block.now }
        ensures { IfOk result (IsStep self.now block.now) }
    {
        let Some(name) = block.movable.get(place).copied() else {
            return Ok(Step::Stays);
        };
        let most = most_pairs(block.movable.len());
        match self.shadow(&block.atoms, name, most, effort)? {
            Shadow::Never => Ok(Step::Never),
            Shadow::Unknown => Ok(Step::Stays),
            Shadow::Atoms(atoms) => {
                let before = block.atoms.len();
                let first = without_name(&block.atoms, name);
                let Some(atoms) = self.needed(atoms, before, first, effort)? else {
                    return Ok(Step::Never);
                };
                let stayed = stayed(&block.atoms, &atoms);
                let names = others_of(self.alloc, &block.names, name)?;
                let movable = others_of(self.alloc, &block.movable, name)?;
                let narrower = OpenBlock {
                    atoms,
                    names,
                    movable,
                };
                Ok(Step::Narrower(narrower.turned(stayed)))
            }
        }
    }

    // What the atoms say of the other names.
    fn shadow(
        &self,
        atoms: &[Atom],
        name: VarId,
        most: usize,
        effort: &mut u64,
    ) -> Result<Shadow, AllocError>
        requires setting { IsSetting self.now }
        requires well_formed { AllByRecursion IsWellFormed atoms.now }
        requires normal { EachOf (IsNormal (context_of self.now.context)) (map atom_of atoms.now) }
        ensures { IfOk result (IsShadowOf (context_of self.now.context) (assumed_in self.now) name.number (map atom_of atoms.now)) }
    {
        match self.context {
            Context::Fields => field_shadow(self.alloc, atoms, name, most),
            Context::Integers => {
                integer_shadow(self.alloc, self.assumed, atoms, name, most, effort)
            }
        }
    }

    // The atoms without those that the assumptions and the others imply, of which the first ones, so many, were needed before; none where
    // no point meets them all.
    fn needed(
        &self,
        atoms: Vec<Atom>,
        before: usize,
        first: usize,
        effort: &mut u64,
    ) -> Result<Option<Vec<Atom>>, AllocError>
        requires setting { IsSetting self.now }
        requires well_formed { AllByRecursion IsWellFormed atoms.items }
        ensures { IfOk result (AreNeeded self.now atoms.items) }
    {
        if atoms.len() < before {
            return Ok(Some(atoms));
        }
        let rows = rows_of(self.alloc, self.context, &atoms)?;
        match kept_in_turn(self.alloc, &self.rows, &rows, first, effort)? {
            Pruned::Impossible => Ok(None),
            Pruned::Marked(marks) => {
                let kept = marked(self.alloc, atoms, &marks)?;
                Ok(Some(kept))
            }
        }
    }
}

// With how many pairs of bounds one of so many names goes at most.
fn most_pairs(names: usize) -> usize {
    let left = names.saturating_sub(1).min(MOST_PAIRS.len() - 1);
    MOST_PAIRS[left]
}

// How many of the atoms stood there before: these come first, in the same order.
fn stayed(before: &[Atom], atoms: &[Atom]) -> usize {
    let mut stayed: usize = 0;
    for atom in before {
        if atoms.get(stayed) == Some(atom) {
            stayed = stayed.saturating_add(1);
        }
    }
    stayed
}

// How many of the atoms lack the name.
fn without_name(atoms: &[Atom], name: VarId) -> usize {
    atoms.iter().filter(|atom| !has_name(atom, name)).count()
}

// Whether the name stands in the atom.
fn has_name(atom: &Atom, name: VarId) -> bool {
    match atom {
        Atom::Compare(_, form) | Atom::Congruent { form, .. } => form.coefficient(name) != 0,
    }
}

// The rows of the atoms.
fn rows_of(alloc: Global, context: Context, atoms: &[Atom]) -> Result<Vec<AtomRows>, AllocError>
    requires { AllByRecursion IsWellFormed atoms.now }
    ensures { IfOk result (λ v. AreRows (context_of context) (map atom_of atoms.now) v.items) }
{
    let mut rows = Vec::new(alloc);
    for atom in atoms {
        let each = AtomRows::of(alloc, context, atom)?;
        rows.push(each)?;
    }
    Ok(rows)
}

// The atoms that are marked, in their order.
fn marked(alloc: Global, atoms: Vec<Atom>, marks: &[bool]) -> Result<Vec<Atom>, AllocError>
    ensures { IfOk result (λ v. v.items ≡ marked_of marks.now atoms.items) }
{
    let mut kept = Vec::new(alloc);
    let mut marks = marks.iter();
    for atom in atoms {
        if let Some(true) = marks.next() {
            kept.push(atom)?;
        }
    }
    Ok(kept)
}
