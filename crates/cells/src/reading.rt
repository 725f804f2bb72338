// Codes and cells as a person reads them.
ghost use Rattle.std.specs.Prelude.{Some};
ghost use Rattle.codes.specs.Hexes.{hexes};
ghost use Rattle.cells.specs.Contents.{held};
ghost use Rattle.cells.specs.Texts.{cell_text};

use crate::cell::Cell;
use codes::hex::Hex;
use std::fmt;
use std::fmt::Display;

// Codes that are shown in hexadecimal, one after the other.
#[derive(Clone, Copy, Debug)]
pub struct Codes<'a>(pub &'a [u8]);

impl fmt::Display for Codes<'_> {
    ghost output = { λ x. Some (hexes x.0.now) };

    fn fmt<W: fmt::Write>(&self, f: &mut fmt::Formatter<W>) -> fmt::Result {
        for code in self.0 {
            // A `write!` for each would take longer.
            Hex(*code).fmt(f)?;
        }
        Ok(())
    }
}

// A cell's codes in hexadecimal, and a dot for a blank.
impl fmt::Display for Cell {
    ghost output = { λ x. Some (cell_text (held x)) };

    fn fmt<W: fmt::Write>(&self, f: &mut fmt::Formatter<W>) -> fmt::Result {
        let codes = self.codes();
        if codes.is_empty() {
            return write!(f, ".");
        }
        let codes = Codes(codes);
        write!(f, "{codes}")
    }
}
