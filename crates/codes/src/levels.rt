// Where in its cell a code is shown.
ghost use Rattle.std.specs.Prelude.{◌≡◌};
ghost use Rattle.codes.specs.Levels.{level_of};

use crate::classes::Class;
use DisplayLevel::{Above, Base, Below, Nowhere, Top};

// In the order of their numbers, 0 to 4. A control code is shown at no level.
#[derive(Clone, Copy, Debug, PartialEq, Eq)]
pub enum DisplayLevel {
    Nowhere,
    Top,
    Above,
    Base,
    Below,
}

// The level of each class, in the order of the classes. It is a table, as the standard has it beside that of the verdicts.
static LEVELS: [DisplayLevel; 17] = [
    // Ctrl
    Nowhere,
    // Non, Cons, Lv, Fv1, Fv2, Fv3
    Base, Base, Base, Base, Base, Base,
    // Bv1, Bv2, Bd
    Below, Below, Below,
    // Tone, Ad1, Ad2, Ad3
    Top, Top, Top, Top,
    // Av1, Av2, Av3
    Above, Above, Above,
];

// The level of a class's codes.
pub fn level_of(class: Class) -> DisplayLevel
    ensures { result ≡ level_of class }
{
    LEVELS[class.number() as usize]
}
