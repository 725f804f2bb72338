// The editor's refusals.
ghost use Rattle.lines.specs.Refusals.{refusal_told};

use faults::fault::Fault;
use faults::layer::Layer;
use std::error::Error;
use std::fmt;

// Each with its place in the line.
#[derive(Clone, Copy, Debug, PartialEq, Eq)]
pub enum Refusal {
    // 6: a keyed or loaded code is no text code.
    NotText(usize),
    // 7: the policy does not admit a keyed, loaded or standing code after the one before it.
    NotAdmitted(usize),
    // 8: the policy does not admit the code after the cursor behind the key.
    NextNotAdmitted(usize),
    // 9: the cells would outnumber the columns.
    TooWide(usize),
    // 10: there is nothing on that side for a step, a backspace or a delete.
    NothingThere(usize),
    // 11: a deletion would bring together a pair that the policy does not admit.
    WouldMeet(usize),
}

impl Fault for Refusal {
    ghost told = { refusal_told };

    fn number(&self) -> u8 {
        match self {
            Refusal::NotText(_) => 6,
            Refusal::NotAdmitted(_) => 7,
            Refusal::NextNotAdmitted(_) => 8,
            Refusal::TooWide(_) => 9,
            Refusal::NothingThere(_) => 10,
            Refusal::WouldMeet(_) => 11,
        }
    }

    fn place(&self) -> usize {
        match self {
            Refusal::NotText(place)
            | Refusal::NotAdmitted(place)
            | Refusal::NextNotAdmitted(place)
            | Refusal::TooWide(place)
            | Refusal::NothingThere(place)
            | Refusal::WouldMeet(place) => *place,
        }
    }

    fn layer(&self) -> Layer {
        Layer::Editor
    }
}

impl fmt::Display for Refusal {
    fn fmt<W: fmt::Write>(&self, f: &mut fmt::Formatter<W>) -> fmt::Result {
        match self {
            Refusal::NotText(place) => write!(f, "the code at place {place} is no text code"),
            Refusal::NotAdmitted(place) => write!(
                f,
                "the policy does not admit the code at place {place} after the one before it"
            ),
            Refusal::NextNotAdmitted(place) => write!(
                f,
                "the policy does not admit the code after the cursor behind a key at place {place}"
            ),
            Refusal::TooWide(place) => write!(
                f,
                "the cells outnumber the columns from place {place} on"
            ),
            Refusal::NothingThere(place) => write!(
                f,
                "there is nothing on that side of place {place}"
            ),
            Refusal::WouldMeet(place) => write!(
                f,
                "the policy does not admit the two codes that would meet at place {place}"
            ),
        }
    }
}

impl Error for Refusal {}
