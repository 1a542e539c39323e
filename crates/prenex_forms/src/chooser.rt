//! Names that are chosen for quantifiers.

ghost use Rattle.std.specs.Prelude.{◌≡◌, vec_len};

use logic_meaning::VarId;
use std::alloc::AllocError;

/// Which names are taken, how many new ones were made, and what each name has become.
#[derive(Drop)]
pub(crate) struct Chooser {
    pub(crate) count: usize,
    pub(crate) made: usize,
    pub(crate) taken: Vec<bool>,
    pub(crate) now: Vec<usize>,
    ghost taken_each: { vec_len taken ≡ count },
    ghost now_each: { vec_len now ≡ count },
}

impl Chooser {
    ghost use Rattle.std.specs.Prelude.{◌<◌, slice_set, IfOk, OnOk};
    ghost use Rattle.logic_meaning.specs.Renaming.{chosen_name, chosen};
    ghost use Rattle.prenex_forms.specs.Chosen.{chosen_of};

    /// The name that a quantifier gets: its own, or the next new one where that is taken. It is taken from then on.
    pub(crate) fn choose(&mut self, name: VarId) -> Result<usize, AllocError>
        requires { name.number < self.old.count }
        ensures name { IfOk result (λ y. y ≡ chosen_name self.old.count name.number (chosen_of self.old)) }
        ensures chosen { OnOk result (chosen_of self.new ≡ chosen self.old.count name.number (chosen_of self.old)) }
        ensures now { self.new.now.items ≡ self.old.now.items }
        ensures count { self.new.count ≡ self.old.count }
    {
        if !self.taken[name.number] {
            self.taken[name.number] = true;
            return Ok(name.number);
        }
        let number = self.count.checked_add(self.made).ok_or(AllocError)?;
        self.made = self.made.checked_add(1).ok_or(AllocError)?;
        Ok(number)
    }

    /// Says what a name has become.
    pub(crate) fn rename(&mut self, name: VarId, number: usize)
        requires { name.number < self.old.count }
        ensures now { self.new.now.items ≡ slice_set self.old.now.items name.number number }
        ensures chosen { chosen_of self.new ≡ chosen_of self.old }
        ensures count { self.new.count ≡ self.old.count }
    {
        self.now[name.number] = number;
    }
}
