// How many columns a panel has, and where its cursor stands.
ghost use Rattle.std.specs.Prelude.{◌≡◌, ◌≤◌, if◌then◌else◌, ◌<◌, nat_le, MatchOption};
ghost use Rattle.panels.specs.Screens.{nearest};

use crate::panel::MAX_COLUMNS;
use crate::store::Column;

#[derive(Debug, Drop)]
pub(crate) struct Ruler {
    pub(crate) columns: usize,
    pub(crate) cursor: usize,
    ghost few: { (1 ≤ columns) × (columns ≤ 80) },
    ghost within: { cursor ≤ columns },
}

impl Ruler {
    // As many columns as were asked for, or the nearest number from 1 to 80.
    pub(crate) fn new(columns: usize) -> Ruler
        ensures columns { result.columns ≡ nearest columns }
        ensures cursor { result.cursor ≡ 0 }
    {
        Ruler {
            columns: columns.clamp(1, MAX_COLUMNS),
            cursor: 0,
        }
    }

    // Column `j`, if there is one.
    pub(crate) fn column(&self, j: usize) -> Option<Column>
        ensures { MatchOption result (self.now.columns ≤ j) (λ column. (column.index ≡ j) × (j < self.now.columns)) }
    {
        if j < self.columns {
            Some(Column { index: j })
        } else {
            None
        }
    }

    pub(crate) fn place_cursor(&mut self, place: usize) -> bool
        ensures answer { result ≡ nat_le place self.old.columns }
        ensures columns { self.new.columns ≡ self.old.columns }
        ensures cursor { self.new.cursor ≡ (if result then place else self.old.cursor) }
    {
        if self.columns < place {
            return false;
        }
        self.cursor = place;
        true
    }
}
