//! Symbols that are bound inside one another.

ghost use Rattle.std.specs.Prelude.{◌≡◌, ◌++◌, ◌∷◌, ℕ, List, [], Some, OnOk, option_copied, if◌then◌else◌};
ghost use Rattle.language_meaning.specs.Value.{same_name};
ghost use Rattle.logic_meaning.specs.Bindings.{bound_to};
ghost use Rattle.smt_resolver.specs.Frames.{looked_up};

use indexmap::IndexMap;
use logic_meaning::Name;
use std::alloc::{AllocError, Global};
use std::marker::Model;

/// The symbols that are bound at one place, each with what it stands for.
#[derive(Drop)]
pub struct Frame<V> {
    symbols: IndexMap<Name, V>,
}

impl<V> Model for Frame<V> {
    ghost use Rattle.std.specs.Prelude.{List, ℕ};

    ghost Value = { List (List ℕ × V) };

    ghost view = { λ f. f.symbols.entries };
}

impl<V: Drop> Frame<V> {
    /// No symbols.
    pub fn new(alloc: Global) -> Frame<V>
        ensures { result ≡ [] }
    {
        Frame {
            symbols: IndexMap::new(alloc),
        }
    }

    /// Binds a symbol, in place of what it stood for here. An `Err` is want of memory.
    pub fn put(&mut self, name: &Name, value: V) -> Result<(), AllocError>
        ensures { OnOk result ((x : List ℕ) → bound_to self.new x ≡ (if same_name name.now x then Some value else bound_to self.old x)) }
    {
        match self.symbols.insert(*name, value) {
            Ok(_) => Ok(()),
            Err(_) => Err(AllocError),
        }
    }

    // What the symbol stands for here.
    fn get(&self, name: &Name) -> Option<&V>
        ensures { option_copied result ≡ bound_to self.now name.now }
    {
        self.symbols.get(name)
    }
}

/// The places that are around one, the innermost last.
#[derive(Drop)]
pub struct Frames<V> {
    frames: Vec<Frame<V>>,
}

impl<V> Model for Frames<V> {
    ghost use Rattle.std.specs.Prelude.{List, ℕ};

    ghost Value = { List (List (List ℕ × V)) };

    ghost view = { λ f. f.frames.items };
}

impl<V: Drop> Frames<V> {
    /// No places.
    pub fn new(alloc: Global) -> Frames<V>
        ensures { result ≡ [] }
    {
        Frames {
            frames: Vec::new(alloc),
        }
    }

    /// One place more, inside the others. An `Err` is want of memory.
    pub fn enter(&mut self, frame: Frame<V>) -> Result<(), AllocError>
        ensures { OnOk result (self.new ≡ self.old ++ frame ∷ []) }
    {
        self.frames.push(frame)?;
        Ok(())
    }

    /// The places without the innermost one.
    pub fn leave(&mut self)
        ensures { (frames : List (List (List ℕ × V))) (frame : List (List ℕ × V)) → self.old ≡ frames ++ frame ∷ [] → self.new ≡ frames }
    {
        let _innermost = self.frames.pop();
    }

    /// What the symbol stands for at the innermost place that binds it.
    pub fn get(&self, name: &Name) -> Option<&V>
        ensures { option_copied result ≡ looked_up self.now name.now }
    {
        let mut place = self.frames.len();
        'outwards: while place > 0 {
            place -= 1;
            if let Some(value) = self.frames[place].get(name) {
                return Some(value);
            }
        }
        None
    }
}
