// The runs and the cells of a string. A code belongs to the run of the code before it exactly when their verdict is
// Compose; a run that begins with a control code has no cell, and every other run is one.
ghost use Rattle.std.specs.Prelude.{◌≡◌, ◌*◌, ◌≤◌, true, not, ◌&&◌, length};
ghost use Rattle.codes.specs.Classes.{class_of, is_control};
ghost use Rattle.cells.specs.Runs.{Spanned, cell_at, first_run, joins, runs, width_of};
ghost use Rattle.cells.specs.Cuttings.{AllShort, OneDivision};
ghost use Rattle.cells.specs.Values.{all_text};

use crate::runs::{Runs, is_cell};
use codes::classes::{Class, class_of};
use codes::verdicts::class_verdict;

// Where a cell lies in its string: from `start` on, `len` codes. A `Range` would not be `Copy`.
#[derive(Clone, Copy, Debug, PartialEq, Eq)]
pub struct Span {
    pub start: usize,
    pub len: usize,
}

// Whether a code of the second class belongs to the run of one of the first.
#[tactic(auto, unfolding(crate::specs::Runs::joins))]
fn joined(first: Class, second: Class) -> bool
    ensures { result ≡ joins first second }
{
    class_verdict(first, second).is_compose()
}

// Whether a cell begins with a code of a class that stands after one of the class before it.
fn begins_cell(before: Class, class: Class) -> bool
    ensures { result ≡ (not (joins before class) && not (is_control class)) }
{
    !joined(before, class) && !class.is_control()
}

// How many codes the first run has; 0 if there is none. No run has more than three.
pub fn first_run_len(codes: &[u8]) -> usize
    ensures value { result ≡ length (first_run (runs class_of codes.now)) }
    ensures short { AllShort (runs class_of codes.now) }
{
    let [first, rest @ ..] = codes else {
        return 0;
    };
    let mut before = class_of(*first);
    for (i, code) in rest.iter().enumerate() {
        let class = class_of(*code);
        if !joined(before, class) {
            return i + 1;
        }
        before = class;
    }
    codes.len()
}

// How many cells the string has. It divides in one way only, and text has at most three codes for each cell.
pub fn width(codes: &[u8]) -> usize
    ensures value { result ≡ width_of class_of codes.now }
    ensures division { OneDivision codes.now }
    ensures text { all_text codes.now ≡ true → length codes.now ≤ 3 * result }
{
    // A count over `Runs` takes up to twice as long, where runs are short and differ.
    let mut cells = 0;
    let mut before = Class::Ctrl;
    for code in codes {
        let class = class_of(*code);
        if begins_cell(before, class) {
            cells += 1;
        }
        before = class;
    }
    cells
}

// Where cell number `j` lies, counted from 0; none past the last.
pub fn cell_at(codes: &[u8], j: usize) -> Option<Span>
    ensures value { result ≡ cell_at class_of codes.now j }
    ensures codes { Spanned class_of codes.now j result }
{
    // Counted by hand, since `filter` and `nth` would lose where the cell starts.
    let mut cells = 0;
    let mut start = 0;
    for run in Runs::of(codes) {
        let len = run.len();
        if is_cell(run) {
            if cells == j {
                return Some(Span { start, len });
            }
            cells += 1;
        }
        start += len;
    }
    None
}
