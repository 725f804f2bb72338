// The codes of one cell by display level.
ghost use Rattle.std.specs.Prelude.{Decides, ◌≡◌, ℕ, if◌then◌else◌, Some, None, MatchOption, ◌≢◌};
ghost use Rattle.std.specs.Option.{option_map};
ghost use Rattle.codes.specs.Classes.{class_of};
ghost use Rattle.codes.specs.Levels.{level_of};
ghost use Rattle.cells.specs.declared.cell.Cell.{Cell};
ghost use Rattle.cells.specs.Contents.{Member, held};
ghost use Rattle.cells.specs.Values.{lawful};
ghost use Rattle.panels.specs.Stacks.{gathered, in_row, on_level, stack_of};

use arrayvec::ArrayVec;
use cells::cell::Cell;
use codes::classes::class_of;
use codes::levels::{DisplayLevel, level_of};

// What each of the four rows has in one column; 00 marks an empty row.
#[derive(Clone, Copy, Debug, PartialEq, Eq)]
pub struct Stack {
    pub top: u8,
    pub above: u8,
    pub base: u8,
    pub below: u8,
}

// The first of the codes that is shown at a level, or 00.
fn on_level(level: DisplayLevel, codes: &[u8]) -> u8
    ensures { result ≡ on_level level codes.now }
{
    codes
        .iter()
        .find(|code| level_of(class_of(**code)) == level)
        .copied()
        .unwrap_or(0)
}

impl Stack {
    // A cell's codes, each in the row of its display level. No other cell has the same rows. `of` and `cell` are no `From`
    // and `TryFrom`, whose one relation would hide these clauses.
    pub fn of(cell: &Cell) -> Stack
        ensures value { result ≡ stack_of (held cell.now) }
        ensures each { (code : ℕ) → Member code (held cell.now) → in_row result (level_of (class_of code)) ≡ code }
        ensures again { gathered result ≡ held cell.now }
        ensures only { (other : Cell) → stack_of (held other) ≡ result → other ≡ cell.now }
    {
        let codes = cell.codes();
        Stack {
            top: on_level(DisplayLevel::Top, codes),
            above: on_level(DisplayLevel::Above, codes),
            base: on_level(DisplayLevel::Base, codes),
            below: on_level(DisplayLevel::Below, codes),
        }
    }

    // The cell that has these rows, or none where no cell has.
    pub fn cell(&self) -> Option<Cell>
        ensures { MatchOption result ((x : Cell) → stack_of (held x) ≢ self.now) (λ x. stack_of (held x) ≡ self.now) }
    {
        self.gather().filter(|cell| self.is_of(cell))
    }

    // Whether these are the rows of a cell.
    fn is_of(&self, cell: &Cell) -> bool
        ensures { Decides result (stack_of (held cell.now) ≡ self.now) }
    {
        Stack::of(cell) == *self
    }

    // The cell of the codes in the rows, from the base outward; none where no cell may hold them.
    fn gather(&self) -> Option<Cell>
        ensures { option_map held result ≡ (if lawful (gathered self.now) then Some (gathered self.now) else None) }
    {
        // A panel has no allocator, so the codes stay in fixed memory.
        let mut codes = ArrayVec::from([self.base, self.below, self.above, self.top]);
        codes.retain(|code| *code != 0);
        Cell::new(&codes)
    }
}
