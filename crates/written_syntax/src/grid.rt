ghost use Rattle.std.specs.Prelude.{◌≡◌};
ghost use Rattle.language_meaning.specs.declared.grid.GridAxis.{GridAxis};

use language_meaning::{GridAxis, Literal};
use logic_meaning::Name;
use std::marker::Model;

/// The axes of a grid, as they are written.
#[derive(Drop)]
pub struct GridAxes {
    list: Vec<GridAxis>,
}

impl Model for GridAxes {
    ghost use Rattle.std.specs.Prelude.{List};
    ghost use Rattle.language_meaning.specs.declared.grid.GridAxis.{GridAxis};

    ghost Value = { List GridAxis };

    ghost view = { λ a. a.list.items };
}

impl GridAxes {
    /// These axes. It takes no memory.
    pub fn of(list: Vec<GridAxis>) -> GridAxes
        ensures { result ≡ list.items }
    {
        GridAxes { list }
    }

    /// The axes, in their order. It takes no memory.
    pub fn items(&self) -> &[GridAxis]
        ensures { result.now ≡ self.now }
    {
        &self.list
    }
}
