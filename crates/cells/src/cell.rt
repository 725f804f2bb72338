// The value of one cell. It stands alone here, since what its contracts cite names it.
ghost use Rattle.std.specs.Prelude.{◌≡◌, true};
ghost use Rattle.cells.specs.Values.{filled, lawful, padded};

// Blank, or one to three text codes in which each later code has verdict Compose after the one before it. The codes
// fill three places from the first on, and 00 marks a place that is empty. A panel keeps cells in fixed memory and copies
// them; an `ArrayVec` is not `Copy`.
#[derive(Clone, Copy, Debug)]
pub struct Cell {
    pub(crate) places: [u8; 3],
    ghost legal: { lawful (filled places) ≡ true },
    ghost packed: { places ≡ padded (filled places) },
}
