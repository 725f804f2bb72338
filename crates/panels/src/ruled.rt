// A panel that keeps its cells in a store.
ghost use Rattle.std.specs.Prelude.{◌≡◌};
ghost use Rattle.panels.specs.Laws.{ruled_lawful};
ghost use Rattle.panels.specs.Ruled.{ruled_screen};
ghost use Rattle.panels.specs.Screens.{blank_of, nearest};

use crate::panel::Panel;
use crate::ruler::Ruler;
use crate::store::Store;
use cells::cell::Cell;

// The store has a cell for every column that a panel can have; only those up to the panel's last are seen.
#[derive(Drop)]
pub struct Ruled<S> {
    pub(crate) store: S,
    pub(crate) ruler: Ruler,
}

impl<S: Store> Ruled<S> {
    // A blank panel of as many columns as are asked for, or the nearest number from 1 to 80.
    pub fn new(columns: usize) -> Ruled<S>
        ensures { ruled_screen S.held_at result ≡ blank_of (nearest columns) }
    {
        Ruled {
            store: S::blank(),
            ruler: Ruler::new(columns),
        }
    }
}

impl<S: Store> Panel for Ruled<S> {
    ghost screen = { ruled_screen S.held_at };

    ghost lawful = { ruled_lawful S.held_at S.each_lawful };

    fn columns(&self) -> usize {
        self.ruler.columns
    }

    fn cursor(&self) -> usize {
        self.ruler.cursor
    }

    fn read(&self, j: usize) -> Option<Cell> {
        let column = self.ruler.column(j)?;
        Some(self.store.cell(column))
    }

    fn show(&mut self, j: usize, cell: Cell) -> bool {
        let Some(column) = self.ruler.column(j) else {
            return false;
        };
        self.store.put(column, cell);
        true
    }

    fn place_cursor(&mut self, place: usize) -> bool {
        self.ruler.place_cursor(place)
    }
}
