// Whether a policy and a panel take a string, and if not, why and where.
ghost use Rattle.std.specs.Prelude.{◌≡◌};
ghost use Rattle.lines.specs.Checks.{Checked, checked, walked};

use crate::refusal::Refusal;
use cells::division::{cell_at, width};
use codes::classes::is_text;
use policies::policy::Policy;

// The first code that is no text, or that the policy does not admit after the one before it.
fn walk<P: Policy>(policy: &P, codes: &[u8]) -> Result<(), Refusal>
    ensures { result ≡ walked (P.admitted policy.now) 0 0 codes.now }
{
    let mut before = 0;
    for (place, code) in codes.iter().enumerate() {
        if !is_text(*code) {
            return Err(Refusal::NotText(place));
        }
        if !policy.admits(before, *code) {
            return Err(Refusal::NotAdmitted(place));
        }
        before = *code;
    }
    Ok(())
}

// The width of a string that the policy admits and a panel of so many columns shows, or else what is wrong with it: at
// the lowest place first, and of the width only where nothing else is.
pub fn check_line<P: Policy>(policy: &P, columns: usize, codes: &[u8]) -> Result<usize, Refusal>
    ensures value { result ≡ checked (P.admitted policy.now) columns codes.now }
    ensures told { Checked (P.admitted policy.now) columns codes.now result }
{
    walk(policy, codes)?;
    match cell_at(codes, columns) {
        Some(cell) => Err(Refusal::TooWide(cell.start)),
        None => Ok(width(codes)),
    }
}
