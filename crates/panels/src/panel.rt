// What a panel is.
ghost use Rattle.std.specs.Prelude.{◌≡◌, nat_le, nat_lt};
ghost use Rattle.std.specs.Option.{option_map};
ghost use Rattle.cells.specs.Contents.{held};
ghost use Rattle.panels.specs.Screens.{Lawful, Screen, column, placed, shown};

use cells::cell::Cell;

// No panel has more.
pub const MAX_COLUMNS: usize = 80;

// A panel means a number of columns that never changes, a cell in each, and a cursor; and nothing else is known of one.
// It is asked to be neither copied nor let go.
pub trait Panel {
    // What the panel shows.
    ghost screen: { Self → Screen };

    // How many columns it has.
    fn columns(&self) -> usize
        ensures { result ≡ (screen self.now).columns };

    // The column before which the cursor stands, or the number of columns behind the last.
    fn cursor(&self) -> usize
        ensures { result ≡ (screen self.now).cursor };

    // The cell in column `j`; none past the last column.
    fn read(&self, j: usize) -> Option<Cell>
        ensures { option_map held result ≡ column (screen self.now) j };

    // Puts a cell into column `j`, and says whether there is such a column.
    fn show(&mut self, j: usize, cell: Cell) -> bool
        ensures answer { result ≡ nat_lt j (screen self.old).columns }
        ensures panel { screen self.new ≡ shown (screen self.old) j (held cell) };

    // Puts the cursor at `place`, and says whether it can stand there.
    fn place_cursor(&mut self, place: usize) -> bool
        ensures answer { result ≡ nat_le place (screen self.old).columns }
        ensures panel { screen self.new ≡ placed (screen self.old) place };

    ghost lawful: { (p : Self) → Lawful (screen p) };
}
