// The report on a list of names.
ghost use Rattle.std.specs.Prelude.{◌≡◌, IfOk, string_bytes};
ghost use Rattle.names.specs.Lists.{names};
ghost use Rattle.names.specs.Texts.{report_text};

use crate::entry::Entry;
use crate::list::Names;
use crate::settings::Settings;
use std::alloc::Global;
use std::fmt;
use std::fmt::Write;

// A line for each name of the list, and a last line that counts them.
#[tactic(auto, using(crate::proofs::Lines::few_names))]
pub fn report(heap: Global, settings: Settings, list: &[u8]) -> Result<String, fmt::Error>
    ensures { IfOk result (λ text. string_bytes text ≡ report_text settings 0 0 (names list.now)) }
{
    let mut text = String::new(heap);
    // Counted by hand, since the last line tells both numbers: an `enumerate` would be gone by then.
    let mut number = 0;
    let mut ok = 0;
    for name in Names::of(list) {
        number += 1;
        let entry = Entry::new(settings, number, name);
        write!(text, "{entry}")?;
        if entry.is_taken() {
            ok += 1;
        }
    }
    let refused = number - ok;
    writeln!(text, "{number} names, {ok} ok, {refused} refused")?;
    Ok(text)
}
