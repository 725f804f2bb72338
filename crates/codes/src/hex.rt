// A code as a person reads it.
ghost use Rattle.std.specs.Prelude.{◌≡◌, ◌<◌, Some, [], ◌∷◌};
ghost use Rattle.codes.specs.Hexes.{hex_digit, hex_of};

use std::fmt;

// A code that is shown as two upper-case hexadecimal digits.
#[derive(Clone, Copy, Debug, PartialEq, Eq)]
pub struct Hex(pub u8);

// A digit as the text that is written.
fn digit(value: u8) -> &'static str
    ensures { value < 16 → result.now ≡ hex_digit value ∷ [] }
{
    match value {
        0 => "0",
        1 => "1",
        2 => "2",
        3 => "3",
        4 => "4",
        5 => "5",
        6 => "6",
        7 => "7",
        8 => "8",
        9 => "9",
        10 => "A",
        11 => "B",
        12 => "C",
        13 => "D",
        14 => "E",
        _ => "F",
    }
}

impl fmt::Display for Hex {
    ghost output = { λ x. Some (hex_of x.0) };

    // Digit by digit, as a writer is to get them. The formatter's own, `{:02X}`, come in one piece, and take longer.
    fn fmt<W: fmt::Write>(&self, f: &mut fmt::Formatter<W>) -> fmt::Result {
        f.write_str(digit(self.0 / 16))?;
        f.write_str(digit(self.0 % 16))
    }
}
