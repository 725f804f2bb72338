// The policy of the tags that name equipment.
ghost use Rattle.std.specs.Prelude.{◌≡◌};
ghost use Rattle.policies.specs.Tags.{is_sign, tag_pairs};

use crate::policy::Policy;

// Digits and capital letters stand after every code, and a hyphen only after one of these.
#[derive(Clone, Copy, Debug, PartialEq, Eq)]
pub struct TagPolicy;

// Whether the code is a digit or a capital letter.
fn is_sign(code: u8) -> bool
    ensures { result ≡ is_sign code }
{
    matches!(code, b'0'..=b'9' | b'A'..=b'Z')
}

impl Policy for TagPolicy {
    ghost admitted = { λ _. tag_pairs };

    #[tactic(auto, unfolding(crate::specs::Tags::tag_pairs))]
    fn admits(&self, first: u8, second: u8) -> bool {
        is_sign(second) || (second == b'-' && is_sign(first))
    }
}
