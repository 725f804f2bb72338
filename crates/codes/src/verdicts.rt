// The verdict on two codes that stand side by side (TIS 1566, figure 6).
ghost use Rattle.std.specs.Prelude.{◌≡◌};
ghost use Rattle.codes.specs.Verdicts.{Counted, class_verdict, is_compose, letter_of, verdict_of};

use crate::classes::{Class, class_of};
use Verdict::{Accept as A, Compose as C, NoDisplay as X, Reject as R, StrictReject as S};

#[derive(Clone, Copy, Debug, PartialEq, Eq)]
pub enum Verdict {
    // A: accepted, and begins a cell of its own.
    Accept,
    // C: accepted, and composes with the cell of the code before it.
    Compose,
    // S: refused by strict checking.
    StrictReject,
    // R: refused by basic checking.
    Reject,
    // X: accepted, and not displayed.
    NoDisplay,
}

// A row is the class of the first code, and its letters stand for the class of the second. The array is flat, as this
// product keeps the standard's figure: 289 letters, 17 to a row.
static TABLE: [Verdict; 289] = [
    // Ctrl
    X, A, A, A, A, A, A, R, R, R, R, R, R, R, R, R, R,
    // Non
    X, A, A, A, S, S, A, R, R, R, R, R, R, R, R, R, R,
    // Cons
    X, A, A, A, A, S, A, C, C, C, C, C, C, C, C, C, C,
    // Lv
    X, S, A, S, S, S, S, R, R, R, R, R, R, R, R, R, R,
    // Fv1
    X, S, A, A, S, S, A, R, R, R, R, R, R, R, R, R, R,
    // Fv2
    X, A, A, A, A, S, A, R, R, R, R, R, R, R, R, R, R,
    // Fv3
    X, A, A, A, S, A, S, R, R, R, R, R, R, R, R, R, R,
    // Bv1
    X, A, A, A, S, S, A, R, R, R, C, C, R, R, R, R, R,
    // Bv2
    X, A, A, A, S, S, A, R, R, R, C, R, R, R, R, R, R,
    // Bd
    X, A, A, A, S, S, A, R, R, R, R, R, R, R, R, R, R,
    // Tone
    X, A, A, A, A, A, A, R, R, R, R, R, R, R, R, R, R,
    // Ad1
    X, A, A, A, S, S, A, R, R, R, R, R, R, R, R, R, R,
    // Ad2
    X, A, A, A, S, S, A, R, R, R, R, R, R, R, R, R, R,
    // Ad3
    X, A, A, A, S, S, A, R, R, R, R, R, R, R, R, R, R,
    // Av1
    X, A, A, A, S, S, A, R, R, R, C, C, R, R, R, R, R,
    // Av2
    X, A, A, A, S, S, A, R, R, R, C, R, R, R, R, R, R,
    // Av3
    X, A, A, A, S, S, A, R, R, R, C, R, C, R, R, R, R,
];

impl Verdict {
    // The letter of the standard's figure; a `From<Verdict> for char` would say it twice.
    pub fn letter(self) -> char
        ensures { result ≡ letter_of self }
    {
        match self {
            Verdict::Accept => 'A',
            Verdict::Compose => 'C',
            Verdict::StrictReject => 'S',
            Verdict::Reject => 'R',
            Verdict::NoDisplay => 'X',
        }
    }

    pub fn is_compose(self) -> bool
        ensures { result ≡ is_compose self }
    {
        matches!(self, Verdict::Compose)
    }
}

// The verdict on two codes by their classes.
pub fn class_verdict(first: Class, second: Class) -> Verdict
    ensures { result ≡ class_verdict first second }
{
    TABLE[first.number() as usize * 17 + second.number() as usize]
}

// The verdict on two codes. The table has 70 A, 18 C, 32 S, 152 R and 17 X.
#[tactic(auto, using(crate::proofs::Tables::counted), unfolding(crate::specs::Verdicts::verdict_of))]
pub fn verdict_of(first: u8, second: u8) -> Verdict
    ensures value { result ≡ verdict_of first second }
    ensures counts { Counted }
{
    class_verdict(class_of(first), class_of(second))
}
