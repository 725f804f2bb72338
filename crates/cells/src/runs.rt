// The runs of a string, one after the other.
ghost use Rattle.std.specs.Prelude.{◌≡◌};
ghost use Rattle.std.specs.Iterator.{YieldsFirstRef, item_count};
ghost use Rattle.codes.specs.Classes.{class_of};
ghost use Rattle.cells.specs.Runs.{is_cell, runs};

use crate::division::first_run_len;
use codes::classes::class_of;

// The runs that are left of a string. The library's `chunk_by` would give them too, but its type has a closure's in it, which
// no signature can name.
#[derive(Clone, Debug, Drop)]
pub struct Runs<'a> {
    rest: &'a [u8],
}

impl<'a> Runs<'a> {
    // All runs of a string.
    pub fn of(codes: &'a [u8]) -> Runs<'a>
        ensures { result.rest.now ≡ codes.now }
    {
        Runs { rest: codes }
    }
}

impl<'a> Iterator for Runs<'a> {
    type Item = &'a [u8];

    ghost next_gives = { YieldsFirstRef (λ s. runs class_of s.rest.now) };

    ghost remaining = { item_count (λ s. runs class_of s.rest.now) };

    fn next(&mut self) -> Option<&'a [u8]> {
        if self.rest.is_empty() {
            return None;
        }
        let (run, rest) = self.rest.split_at(first_run_len(self.rest));
        self.rest = rest;
        Some(run)
    }
}

// Whether a run is a cell: it does not begin with a control code.
pub fn is_cell(run: &[u8]) -> bool
    ensures { result ≡ is_cell class_of run.now }
{
    run.first()
        .is_some_and(|code| !class_of(*code).is_control())
}
