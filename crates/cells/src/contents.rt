// What a cell holds.
ghost use Rattle.std.specs.Prelude.{◌≡◌, true, [], length, if◌then◌else◌, Some, None, Decides, nat_eq};
ghost use Rattle.std.specs.Ordering.{on};
ghost use Rattle.std.specs.Cmp.Lexicographic.{pointwise};
ghost use Rattle.std.specs.Option.{option_map};
ghost use Rattle.cells.specs.declared.cell.Cell.{Cell};
ghost use Rattle.cells.specs.Contents.{Exactly, held};
ghost use Rattle.cells.specs.Values.{all_text, lawful};
ghost use Rattle.std.specs.Cmp.Rules.{comparing};
ghost use Rattle.std.proofs.Common.{rules};
ghost use Rattle.std.specs.Cmp as Keys;

use crate::cell::Cell;
use crate::division::first_run_len;
use codes::classes::is_text;

fn all_text(codes: &[u8]) -> bool
    ensures { result ≡ all_text codes.now }
{
    codes.iter().all(|code| is_text(*code))
}

// Whether a cell may hold these codes: they are text, and all in one run, which has at most three.
fn is_lawful(codes: &[u8]) -> bool
    ensures { result ≡ lawful codes.now }
{
    first_run_len(codes) == codes.len() && all_text(codes)
}

impl Cell {
    // The cell of these codes, or none where no cell may hold them. There are 2,419 cells. The error of a `TryFrom` would
    // say no more than the `None`.
    pub fn new(codes: &[u8]) -> Option<Cell>
        ensures value { option_map held result ≡ (if lawful codes.now then Some codes.now else None) }
        ensures count { Exactly 2419 (λ s. lawful s ≡ true) }
    {
        if !is_lawful(codes) {
            return None;
        }
        let places = match codes {
            [] => [0, 0, 0],
            [a] => [*a, 0, 0],
            [a, b] => [*a, *b, 0],
            [a, b, c] => [*a, *b, *c],
            _ => return None,
        };
        Some(Cell { places })
    }

    #[tactic(auto, unfolding(crate::specs::Contents::held))]
    pub fn blank() -> Cell
        ensures { held result ≡ [] }
    {
        Cell { places: [0, 0, 0] }
    }

    // How many codes the cell holds: none if it is blank.
    #[tactic(auto, using(crate::proofs::Same::held_count))]
    pub fn len(&self) -> usize
        ensures { result ≡ length (held self.now) }
    {
        match self.places {
            [0, ..] => 0,
            [_, 0, _] => 1,
            [_, _, 0] => 2,
            _ => 3,
        }
    }

    // The codes, in order. No other cell has the same.
    pub fn codes(&self) -> &[u8]
        ensures value { result.now ≡ held self.now }
        ensures only { (other : Cell) → held other ≡ held self.now → other ≡ self.now }
    {
        let len = self.len();
        &self.places[0..len]
    }
}

// Written out, so that a clause says that it decides which cells are the same. Of a derived one the check does not find that,
// since a cell has facts beside its places, and every caller would have to show it.
impl PartialEq for Cell {
    ghost eq = { on (λ x. x.places) (pointwise nat_eq) };

    ghost laws = { Keys.partial_equiv_from_equiv (Prim.search (comparing, rules)) };

    fn eq(&self, other: &Cell) -> bool
        ensures value { result ≡ pointwise nat_eq self.now.places other.now.places }
        ensures decides { Decides result (self.now ≡ other.now) }
    {
        self.places == other.places
    }
}

impl Eq for Cell {
    ghost laws = { Prim.search (comparing, rules) };
}
