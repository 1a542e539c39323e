//! What a search for multipliers may find, by the signs of rows alone.

use crate::rows::AtomRows;
use crate::signs::{Part, Signs};
use normal_atoms::{Atom, Context};
use std::alloc::{AllocError, Global};

// A row, if there is one; whether it is left, and the signs of the rows before it that are.
#[derive(Clone, Copy)]
struct Entry {
    part: Option<Part>,
    left: bool,
    before: Signs,
}

// The signs of the rows that are left, and whether some others went.
#[derive(Clone, Copy)]
struct Left {
    signs: Signs,
    smaller: bool,
}

/// What a search for multipliers may find of rows of atoms and of assumptions, by their signs, and what one has found: it spares searches,
/// and no clause says anything of it. Rows in which a name stands that no other row can cancel have no part in a contradiction, so they
/// go in turn; and where no constant is positive, none that is negative is of use.
#[derive(Drop)]
pub(crate) struct Outlook {
    entries: Vec<Entry>,
    /// The signs of all rows, and those that two of them have.
    once: Signs,
    twice: Signs,
    /// Whether no row has a positive constant.
    none_positive: bool,
    /// Which atoms the others are known not to imply.
    needed: Vec<bool>,
}

impl Outlook {
    /// That of the atoms and the assumptions with these rows. Its only error is want of memory.
    pub(crate) fn of(
        alloc: Global,
        assumed: &[AtomRows],
        atoms: &[AtomRows],
    ) -> Result<Outlook, AllocError> {
        let mut outlook = Outlook::with_room(alloc, assumed.len() + atoms.len())?;
        for rows in atoms.iter().chain(assumed) {
            outlook.add(Part::of_atom_row(rows))?;
        }
        Ok(outlook)
    }

    /// The same of those that are marked: the atoms stand first, then the assumptions. Its only error is want of memory.
    pub(crate) fn of_marked(
        alloc: Global,
        assumed: &[AtomRows],
        atoms: &[AtomRows],
        marks: &[bool],
    ) -> Result<Outlook, AllocError> {
        let mut outlook = Outlook::with_room(alloc, assumed.len() + atoms.len())?;
        for (rows, mark) in atoms.iter().chain(assumed).zip(marks) {
            outlook.add(if *mark { Part::of_atom_row(rows) } else { None })?;
        }
        Ok(outlook)
    }

    // The same for atoms in place of their rows.
    fn of_atoms(
        alloc: Global,
        context: Context,
        assumed: &[AtomRows],
        atoms: &[&Atom],
    ) -> Result<Outlook, AllocError> {
        let mut outlook = Outlook::with_room(alloc, assumed.len() + atoms.len())?;
        for atom in atoms {
            outlook.add(Part::of_atom(context, atom))?;
        }
        for rows in assumed {
            outlook.add(Part::of_atom_row(rows))?;
        }
        Ok(outlook)
    }

    // That of no rows, with room for so many.
    fn with_room(alloc: Global, count: usize) -> Result<Outlook, AllocError> {
        Ok(Outlook {
            entries: Vec::with_capacity(alloc, count)?,
            once: Signs::NONE,
            twice: Signs::NONE,
            none_positive: true,
            needed: Vec::new(alloc),
        })
    }

    // Adds a row, if there is one.
    fn add(&mut self, part: Option<Part>) -> Result<(), AllocError> {
        self.count(part);
        self.entries.push(Entry {
            part,
            left: false,
            before: Signs::NONE,
        })?;
        Ok(())
    }

    // Counts a row, if there is one, among all.
    fn count(&mut self, part: Option<Part>) {
        if let Some(part) = part {
            self.twice = self.twice.and(self.once.common(part.signs));
            self.once = self.once.and(part.signs);
            self.none_positive = self.none_positive && part.constant <= 0;
        }
    }

    /// Takes in the row of the atom at a place, which was not marked.
    pub(crate) fn take(&mut self, place: usize, rows: &AtomRows) {
        let part = Part::of_atom_row(rows);
        self.count(part);
        if let Some(entry) = self.entries.get_mut(place) {
            entry.part = part;
        }
    }

    /// A mark for each place, true where the others are known not to imply the atom. Its only error is want of memory.
    pub(crate) fn needed(&mut self) -> Result<&mut [bool], AllocError> {
        self.needed.resize(self.entries.len(), false)?;
        Ok(&mut self.needed)
    }

    /// Whether the rows may be a contradiction.
    pub(crate) fn may_contradict(&mut self) -> bool {
        self.begin(None, 0);
        self.leave_out_in_turn(None);
        self.entries.iter().any(|entry| entry.left)
    }

    /// Whether the rows, which are no contradiction, may imply the atom whose rows stand at a place, without these: its negation has a row,
    /// which can have a part in a contradiction.
    pub(crate) fn may_be_implied(&mut self, place: usize, rows: &AtomRows) -> bool {
        if self.needed.get(place).copied().unwrap_or(false) {
            return false;
        }
        match Part::of_negated_row(rows) {
            Some(negation) => self.may_refute(place, negation),
            None => false,
        }
    }

    /// Leaves out the row at a place, if its atom is implied.
    pub(crate) fn settle(&mut self, place: usize, implied: bool) {
        if implied && let Some(entry) = self.entries.get_mut(place) {
            entry.part = None;
        }
    }

    // Whether the rows but for that at a place, which are no contradiction, may be one with this.
    fn may_refute(&mut self, without: usize, asked: Part) -> bool {
        if !asked.is_cancelled_by(self.signs_without(without)) {
            return false;
        }
        let leaves_negative = self.begin(Some(without), asked.constant);
        if leaves_negative && asked.constant < 0 {
            return false;
        }
        self.leave_out_in_turn(Some(asked))
    }

    // The signs of all rows but for that at a place.
    fn signs_without(&self, without: usize) -> Signs {
        match self.part(without) {
            Some(own) => self.twice.and(self.once.without(own.signs)),
            None => self.once,
        }
    }

    // The row at a place.
    fn part(&self, place: usize) -> Option<Part> {
        self.entries.get(place)?.part
    }

    // Begins with all rows but for that at a place. Where neither a row has a positive constant nor this is positive, leaves out the rows
    // with a negative one, and says so.
    fn begin(&mut self, without: Option<usize>, constant: i128) -> bool {
        let none = constant <= 0 && self.none_positive;
        for (place, entry) in self.entries.iter_mut().enumerate() {
            entry.left = match &entry.part {
                Some(part) => without != Some(place) && (!none || part.constant == 0),
                None => false,
            };
        }
        none
    }

    // Leaves out, in turn, the rows in which a name stands that no other of those that are left can cancel, nor the asked one; whether
    // the asked one has none such.
    fn leave_out_in_turn(&mut self, asked: Option<Part>) -> bool {
        for _ in 0..self.entries.len() {
            let left = self.leave_out_uncancelled(asked);
            if let Some(asked) = asked
                && !asked.is_cancelled_by(left.signs)
            {
                return false;
            }
            if !left.smaller {
                break;
            }
        }
        true
    }

    // Leaves out such rows, the last one first.
    fn leave_out_uncancelled(&mut self, asked: Option<Part>) -> Left {
        self.note_signs_before(asked);
        let mut left = Left {
            signs: Signs::NONE,
            smaller: false,
        };
        for entry in self.entries.iter_mut().rev() {
            if entry.left
                && let Some(part) = &entry.part
            {
                if part.is_cancelled_by(entry.before.and(left.signs)) {
                    left.signs = left.signs.and(part.signs);
                } else {
                    entry.left = false;
                    left.smaller = true;
                }
            }
        }
        left
    }

    // Writes down the signs of the rows before each of those that are left, and of the asked one.
    fn note_signs_before(&mut self, asked: Option<Part>) {
        let mut signs = match asked {
            Some(asked) => asked.signs,
            None => Signs::NONE,
        };
        for entry in self.entries.iter_mut() {
            if entry.left
                && let Some(part) = &entry.part
            {
                entry.before = signs;
                signs = signs.and(part.signs);
            }
        }
    }
}

/// Whether a search for multipliers may find something of a conjunction of the atoms under the assumptions that have these rows: that no
/// point meets it, or that an atom goes. It looks at signs and forms no number; no clause says what it answers. Its only error is want
/// of memory.
pub fn may_be_pruned(
    alloc: Global,
    context: Context,
    assumed: &[AtomRows],
    atoms: &[&Atom],
) -> Result<bool, AllocError> {
    let mut outlook = Outlook::of_atoms(alloc, context, assumed, atoms)?;
    if outlook.may_contradict() {
        return Ok(true);
    }
    for (place, atom) in atoms.iter().enumerate() {
        if let Some(negation) = Part::of_negation(context, atom)
            && outlook.may_refute(place, negation)
        {
            return Ok(true);
        }
    }
    Ok(false)
}
