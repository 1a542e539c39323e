//! The atoms that are known at a place of a formula.

ghost use Rattle.std.specs.Prelude.{◌≡◌, ◌++◌, ◌∷◌, [], IfOk, IfSome, IfNone, IsTrue, OnOk};
ghost use Rattle.normal_atoms.specs.Atoms.{context_of, atom_of, IsWellFormed};
ghost use Rattle.normal_atoms.specs.Computed.{IsNormalWithin};
ghost use Rattle.shape_theory.specs.AtomKit.{atom_kit};
ghost use Rattle.shape_theory.specs.Pass.{decided};
ghost use Rattle.theory_simplifier.specs.VariableParts.{part_number};
ghost use Rattle.theory_simplifier.specs.Known.{inside, known_atoms, AreNormalFrames};

use crate::free::has_name;
use crate::joined::Joined;
use logic_meaning::VarId;
use normal_atoms::{Atom, Context};
use std::alloc::{AllocError, Global};
use std::marker::Model;

/// What encloses a place: a list, whose atoms are known beside them, or a quantifier, under which what is known of its name is not.
#[derive(Drop)]
pub(crate) enum Frame {
    Beside(Joined),
    Under(VarId),
}

impl Frame {
    // Whether it has no atoms. It takes no memory.
    fn is_silent(&self) -> bool
        ensures { IsTrue result → inside self.now [] ≡ [] }
    {
        match self {
            Frame::Beside(list) => list.is_empty(),
            Frame::Under(_) => true,
        }
    }
}

/// What encloses a place of a formula, the outermost first.
#[derive(Drop)]
pub(crate) struct Known {
    frames: Vec<Frame>,
}

impl Model for Known {
    ghost use Rattle.std.specs.Prelude.{List};
    ghost use Rattle.theory_simplifier.specs.declared.known.Frame.{Frame as Enclosing};

    ghost Value = { List Enclosing };

    ghost view = { λ k. k.frames.items };
}

impl Known {
    /// Nothing encloses the place.
    pub(crate) fn new(alloc: Global) -> Known
        ensures { result ≡ [] }
    {
        Known {
            frames: Vec::new(alloc),
        }
    }

    /// Goes inside.
    pub(crate) fn enter(&mut self, frame: Frame) -> Result<(), AllocError>
        ensures { OnOk result (self.new ≡ self.old ++ frame ∷ []) }
    {
        self.frames.push(frame)?;
        Ok(())
    }

    /// Goes outside again, and gives what encloses the place. It takes no memory.
    pub(crate) fn leave(&mut self) -> Option<Frame>
        ensures left { IfSome result (λ frame. self.old ≡ self.new ++ frame ∷ []) }
        ensures none { IfNone result (self.old ≡ []) }
    {
        self.frames.pop()
    }

    /// Whether it is seen at once that no atom is known: no list around the place has one. It takes no memory.
    pub(crate) fn is_empty(&self) -> bool
        ensures { IsTrue result → known_atoms self.now ≡ [] }
    {
        for frame in &self.frames {
            if !frame.is_silent() {
                return false;
            }
        }
        true
    }

    /// The truth of the atom by the known ones: that of the first that decides it. An atom that has a name is decided by atoms
    /// that have it alone, so what is outside of a quantifier of a name of the atom is not looked at. It takes no memory.
    pub(crate) fn decided(&self, context: Context, atom: &Atom, part: u64) -> Option<bool>
        requires well_formed { IsWellFormed atom.now }
        requires part { part ≡ part_number (atom_of atom.now) }
        requires normal { IsNormalWithin (context_of context) (atom_of atom.now) }
        requires known { AreNormalFrames (context_of context) self.now }
        ensures { result ≡ decided (atom_kit (context_of context)) (known_atoms self.now) (atom_of atom.now) }
    {
        for place in (0..self.frames.len()).rev() {
            match &self.frames[place] {
                Frame::Beside(list) => {
                    let truth = list.decided(context, atom, part);
                    if truth.is_some() {
                        return truth;
                    }
                }
                Frame::Under(x) => {
                    if has_name(atom, *x) {
                        return None;
                    }
                }
            }
        }
        None
    }
}
