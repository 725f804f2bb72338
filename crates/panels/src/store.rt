// What keeps the cells of a panel.
ghost use Rattle.std.specs.Prelude.{◌≡◌, ℕ, ◌<◌, [], List, true, ◌≢◌};
ghost use Rattle.cells.specs.Contents.{held};
ghost use Rattle.cells.specs.Values.{lawful};

use cells::cell::Cell;

// One of the columns that a panel can have.
#[derive(Clone, Copy, Debug)]
pub struct Column {
    pub(crate) index: usize,
    ghost within: { index < 80 },
}

// A cell for every column that a panel can have.
pub trait Store {
    // The codes of the cell in each column, and none for a blank.
    ghost held_at: { Self → ℕ → List ℕ };

    fn blank() -> Self
        ensures { (j : ℕ) → held_at result j ≡ [] };

    fn cell(&self, column: Column) -> Cell
        ensures { held result ≡ held_at self.now column.index };

    // Puts a cell into a column, and the other columns stay.
    fn put(&mut self, column: Column, cell: Cell)
        ensures here { held_at self.new column.index ≡ held cell }
        ensures there { (j : ℕ) → (j ≢ column.index) → held_at self.new j ≡ held_at self.old j };

    ghost each_lawful: { (s : Self) (j : ℕ) → lawful (held_at s j) ≡ true };
}
