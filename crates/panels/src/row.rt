// The row panel.
ghost use Rattle.std.specs.Prelude.{◌≡◌, ℕ, length};
ghost use Rattle.panels.specs.Stacks.{Proper, stack_in};

use crate::panel::MAX_COLUMNS;
use crate::ruled::Ruled;
use crate::stack::Stack;
use crate::store::{Column, Store};
use cells::cell::Cell;
use std::fmt;

// A code for every column that a panel can have, at each of the four display levels; 00 marks an empty row. What lies in one
// column is always a cell's codes, each in the row of its level.
// There are four arrays, since a device has four rows, one for each display level.
#[derive(Debug, Drop)]
pub struct Rows {
    pub(crate) top: [u8; MAX_COLUMNS],
    pub(crate) above: [u8; MAX_COLUMNS],
    pub(crate) base: [u8; MAX_COLUMNS],
    pub(crate) below: [u8; MAX_COLUMNS],
    ghost long: { (length top ≡ 80) × (length above ≡ 80) × (length base ≡ 80) × (length below ≡ 80) },
    ghost proper: { (j : ℕ) → Proper (stack_in top above base below j) },
}

// A panel that keeps four rows of codes.
pub type RowPanel = Ruled<Rows>;

// By the panel's own name, as a grid panel's.
impl fmt::Debug for RowPanel {
    fn fmt<W: fmt::Write>(&self, f: &mut fmt::Formatter<W>) -> fmt::Result {
        f.debug_struct("RowPanel")
            .field("rows", &self.store)
            .field("ruler", &self.ruler)
            .finish()
    }
}

impl Rows {
    ghost use Rattle.panels.specs.Rows.{stack_at};

    // What the rows have in a column.
    fn stack(&self, column: Column) -> Stack
        ensures { result ≡ stack_at self.now column.index }
    {
        let j = column.index;
        Stack {
            top: self.top[j],
            above: self.above[j],
            base: self.base[j],
            below: self.below[j],
        }
    }
}

impl Store for Rows {
    ghost use Rattle.panels.specs.Rows.{rows_held};
    ghost use Rattle.panels.specs.Laws.{rows_cells_lawful};

    ghost held_at = { rows_held };

    ghost each_lawful = { rows_cells_lawful };

    fn blank() -> Rows {
        Rows {
            top: [0; MAX_COLUMNS],
            above: [0; MAX_COLUMNS],
            base: [0; MAX_COLUMNS],
            below: [0; MAX_COLUMNS],
        }
    }

    fn cell(&self, column: Column) -> Cell {
        // What lies in a column is always a cell's codes.
        self.stack(column).cell().unwrap()
    }

    // Each of the cell's codes goes into the row of its level.
    fn put(&mut self, column: Column, cell: Cell) {
        let Stack {
            top,
            above,
            base,
            below,
        } = Stack::of(&cell);
        let j = column.index;
        self.top[j] = top;
        self.above[j] = above;
        self.base[j] = base;
        self.below[j] = below;
    }
}

impl RowPanel {
    ghost use Rattle.std.specs.Option.{option_map};
    ghost use Rattle.panels.specs.Rows.{row_screen};
    ghost use Rattle.panels.specs.Screens.{column};
    ghost use Rattle.panels.specs.Stacks.{stack_of};

    // What the four rows have in column `j`: the codes of its cell, each in the row of its display level. None past the
    // last column.
    pub fn stack(&self, j: usize) -> Option<Stack>
        ensures { result ≡ option_map stack_of (column (row_screen self.now) j) }
    {
        let column = self.ruler.column(j)?;
        Some(self.store.stack(column))
    }
}
