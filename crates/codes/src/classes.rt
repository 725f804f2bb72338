// The class of a code (TIS 1566, clause 4.2), and which codes are text and which are marks.
ghost use Rattle.std.specs.Prelude.{◌≡◌};
ghost use Rattle.codes.specs.Classes.{class_number, class_of, how_many, is_control, is_mark, is_text, is_unused, lists_with};

use Class::{Ad1, Ad2, Ad3, Av1, Av2, Av3, Bd, Bv1, Bv2, Cons, Ctrl, Fv1, Fv2, Fv3, Lv, Non, Tone};

// In the standard's order, which gives each class its number, 0 to 16.
#[derive(Clone, Copy, Debug, PartialEq, Eq, PartialOrd, Ord)]
pub enum Class {
    Ctrl,
    Non,
    Cons,
    Lv,
    Fv1,
    Fv2,
    Fv3,
    Bv1,
    Bv2,
    Bd,
    Tone,
    Ad1,
    Ad2,
    Ad3,
    Av1,
    Av2,
    Av3,
}

// The class of each code.
static CLASSES: [Class; 256] = [
    // 00 to 0F
    Ctrl, Ctrl, Ctrl, Ctrl, Ctrl, Ctrl, Ctrl, Ctrl, Ctrl, Ctrl, Ctrl, Ctrl, Ctrl, Ctrl, Ctrl, Ctrl,
    // 10 to 1F
    Ctrl, Ctrl, Ctrl, Ctrl, Ctrl, Ctrl, Ctrl, Ctrl, Ctrl, Ctrl, Ctrl, Ctrl, Ctrl, Ctrl, Ctrl, Ctrl,
    // 20 to 2F
    Non, Non, Non, Non, Non, Non, Non, Non, Non, Non, Non, Non, Non, Non, Non, Non,
    // 30 to 3F
    Non, Non, Non, Non, Non, Non, Non, Non, Non, Non, Non, Non, Non, Non, Non, Non,
    // 40 to 4F
    Non, Non, Non, Non, Non, Non, Non, Non, Non, Non, Non, Non, Non, Non, Non, Non,
    // 50 to 5F
    Non, Non, Non, Non, Non, Non, Non, Non, Non, Non, Non, Non, Non, Non, Non, Non,
    // 60 to 6F
    Non, Non, Non, Non, Non, Non, Non, Non, Non, Non, Non, Non, Non, Non, Non, Non,
    // 70 to 7F
    Non, Non, Non, Non, Non, Non, Non, Non, Non, Non, Non, Non, Non, Non, Non, Ctrl,
    // 80 to 8F
    Ctrl, Ctrl, Ctrl, Ctrl, Ctrl, Ctrl, Ctrl, Ctrl, Ctrl, Ctrl, Ctrl, Ctrl, Ctrl, Ctrl, Ctrl, Ctrl,
    // 90 to 9F
    Ctrl, Ctrl, Ctrl, Ctrl, Ctrl, Ctrl, Ctrl, Ctrl, Ctrl, Ctrl, Ctrl, Ctrl, Ctrl, Ctrl, Ctrl, Ctrl,
    // A0 to AF
    Non, Cons, Cons, Cons, Cons, Cons, Cons, Cons, Cons, Cons, Cons, Cons, Cons, Cons, Cons, Cons,
    // B0 to BF
    Cons, Cons, Cons, Cons, Cons, Cons, Cons, Cons, Cons, Cons, Cons, Cons, Cons, Cons, Cons, Cons,
    // C0 to CF
    Cons, Cons, Cons, Cons, Fv3, Cons, Fv3, Cons, Cons, Cons, Cons, Cons, Cons, Cons, Cons, Non,
    // D0 to DF
    Fv1, Av2, Fv1, Fv1, Av1, Av3, Av2, Av3, Bv1, Bv2, Bd, Non, Non, Non, Non, Non,
    // E0 to EF
    Lv, Lv, Lv, Lv, Lv, Fv2, Non, Ad2, Tone, Tone, Tone, Tone, Ad1, Ad1, Ad3, Non,
    // F0 to FF
    Non, Non, Non, Non, Non, Non, Non, Non, Non, Non, Non, Non, Non, Non, Non, Ctrl,
];

impl Class {
    // The standard's number, so it goes by that name; a `From<Class> for u8` would say it twice.
    pub fn number(self) -> u8
        ensures { result ≡ class_number self }
    {
        self as u8
    }

    pub fn is_control(self) -> bool
        ensures { result ≡ is_control self }
    {
        self == Ctrl
    }
}

// The class of a code. Each code stands in the list of one class, and of no other.
pub fn class_of(code: u8) -> Class
    ensures value { result ≡ class_of code }
    ensures single { lists_with code ≡ 1 }
{
    CLASSES[code as usize]
}

// The codes that the standard leaves unused.
fn is_unused(code: u8) -> bool
    ensures { result ≡ is_unused code }
{
    matches!(code, 0xDB | 0xDD | 0xDE | 0xFC..=0xFE)
}

// Whether a line may hold the code: it is neither a control code nor unused. There are 184 of these.
#[tactic(auto, using(crate::proofs::Tables::text_codes), unfolding(crate::specs::Classes::is_text))]
pub fn is_text(code: u8) -> bool
    ensures value { result ≡ is_text code }
    ensures count { how_many is_text ≡ 184 }
{
    !class_of(code).is_control() && !is_unused(code)
}

// Whether the code is a vowel, tone or sign that stands above or below another. There are 16 of these.
#[tactic(auto, using(crate::proofs::Tables::mark_codes), unfolding(crate::specs::Classes::is_mark))]
pub fn is_mark(code: u8) -> bool
    ensures value { result ≡ is_mark code }
    ensures count { how_many is_mark ≡ 16 }
{
    class_of(code) >= Bv1
}
