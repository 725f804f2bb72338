// The grid panel.
ghost use Rattle.std.specs.Prelude.{◌≡◌, length, slice_set};

use crate::panel::MAX_COLUMNS;
use crate::ruled::Ruled;
use crate::store::{Column, Store};
use cells::cell::Cell;
use std::fmt;

// A cell for every column that a panel can have. `Grid` says that they are all there, since no element can be lent yet from
// a struct with a fact of its own.
#[derive(Debug, Drop)]
pub(crate) struct Table {
    pub(crate) cells: [Cell; MAX_COLUMNS],
}

impl Table {
    // One cell is lent and changed, and the others stay.
    fn put(&mut self, column: Column, cell: Cell)
        ensures { self.new.cells ≡ slice_set self.old.cells column.index cell }
    {
        let slot = &mut self.cells[column.index];
        *slot = cell;
    }
}

// What keeps the cells of a grid panel.
#[derive(Debug, Drop)]
pub struct Grid {
    pub(crate) table: Table,
    ghost full: { length table.cells ≡ 80 },
}

// A panel that keeps a table of cells.
pub type GridPanel = Ruled<Grid>;

// By the panel's own name. A derived one would tell of `Ruled` and `Grid`.
impl fmt::Debug for GridPanel {
    fn fmt<W: fmt::Write>(&self, f: &mut fmt::Formatter<W>) -> fmt::Result {
        f.debug_struct("GridPanel")
            .field("table", &self.store.table)
            .field("ruler", &self.ruler)
            .finish()
    }
}

impl Store for Grid {
    ghost use Rattle.panels.specs.Grids.{grid_held};
    ghost use Rattle.panels.specs.Laws.{grid_cells_lawful};

    ghost held_at = { grid_held };

    ghost each_lawful = { grid_cells_lawful };

    fn blank() -> Grid {
        Grid {
            table: Table {
                cells: [Cell::blank(); MAX_COLUMNS],
            },
        }
    }

    fn cell(&self, column: Column) -> Cell {
        self.table.cells[column.index]
    }

    fn put(&mut self, column: Column, cell: Cell) {
        self.table.put(column, cell);
    }
}
