// A name of a list, as the report tells of it.
ghost use Rattle.std.specs.Prelude.{◌≡◌, Some, slice_index};
ghost use Rattle.lines.specs.Checks.{before};
ghost use Rattle.names.specs.Texts.{answer, cells_text, line_text, reason_text, taken};

use crate::settings::Settings;
use cells::division::width;
use cells::reading::Codes;
use cells::runs::{Runs, is_cell};
use codes::hex::Hex;
use faults::fault::Fault;
use lines::check::check_line;
use lines::refusal::Refusal;
use policies::level::LevelPolicy;
use std::fmt;

// The cells of a name, each in brackets.
#[derive(Clone, Copy)]
struct Cells<'a>(&'a [u8]);

impl fmt::Display for Cells<'_> {
    ghost output = { λ x. Some (cells_text x.0.now) };

    fn fmt<W: fmt::Write>(&self, f: &mut fmt::Formatter<W>) -> fmt::Result {
        // Tried with a `filter`: in a generic function the check cannot state what a `for` over one keeps.
        for run in Runs::of(self.0) {
            if !is_cell(run) {
                continue;
            }
            let codes = Codes(run);
            write!(f, " [{codes}]")?;
        }
        Ok(())
    }
}

fn code_at(name: &[u8], place: usize) -> Hex
    ensures { result.0 ≡ slice_index name.now place }
{
    Hex(name.get(place).copied().unwrap_or(0))
}

fn code_before(name: &[u8], place: usize) -> Hex
    ensures { result.0 ≡ before name.now place }
{
    match place.checked_sub(1) {
        Some(place) => code_at(name, place),
        None => Hex(0),
    }
}

// Why a name is refused.
#[derive(Clone, Copy)]
struct Reason<'a> {
    settings: Settings,
    name: &'a [u8],
    refusal: Refusal,
}

impl fmt::Display for Reason<'_> {
    ghost output = { λ x. Some (reason_text x.settings x.name.now x.refusal) };

    fn fmt<W: fmt::Write>(&self, f: &mut fmt::Formatter<W>) -> fmt::Result {
        let Settings { columns, level } = self.settings;
        match self.refusal {
            Refusal::NotText(place) => {
                let code = code_at(self.name, place);
                write!(f, "{code} is no text code")
            }
            Refusal::NotAdmitted(place) => {
                let first = code_before(self.name, place);
                let second = code_at(self.name, place);
                write!(f, "level {level} does not admit {second} after {first}")
            }
            Refusal::TooWide(_) => {
                let cells = width(self.name);
                write!(f, "{cells} cells, and the panel has {columns} columns")
            }
            // `check_line` gives none of these.
            Refusal::NextNotAdmitted(_) | Refusal::NothingThere(_) | Refusal::WouldMeet(_) => {
                Ok(())
            }
        }
    }
}

// A name with its number in the list, and what is told of it. It shows as its line of the report.
#[derive(Clone, Copy, Debug)]
pub(crate) struct Entry<'a> {
    settings: Settings,
    number: usize,
    name: &'a [u8],
    outcome: Result<usize, Refusal>,
    ghost checked: { outcome ≡ answer settings name.now },
}

impl<'a> Entry<'a> {
    pub(crate) fn new(settings: Settings, number: usize, name: &'a [u8]) -> Entry<'a>
        ensures settings { result.settings ≡ settings }
        ensures number { result.number ≡ number }
        ensures name { result.name.now ≡ name.now }
    {
        let policy = LevelPolicy::new(settings.level);
        let outcome = check_line(&policy, usize::from(settings.columns), name);
        Entry {
            settings,
            number,
            name,
            outcome,
        }
    }

    // Whether the panel takes the name.
    pub(crate) fn is_taken(&self) -> bool
        ensures { result ≡ taken self.now.settings self.now.name.now }
    {
        self.outcome.is_ok()
    }
}

impl fmt::Display for Entry<'_> {
    ghost output = { λ x. Some (line_text x.settings x.number x.name.now) };

    fn fmt<W: fmt::Write>(&self, f: &mut fmt::Formatter<W>) -> fmt::Result {
        let Entry {
            settings,
            number,
            name,
            outcome,
        } = *self;
        match outcome {
            Ok(width) => {
                let cells = Cells(name);
                writeln!(f, "{number} ok {width}{cells}")
            }
            Err(refusal) => {
                let kind = refusal.number();
                let place = refusal.place();
                let reason = Reason {
                    settings,
                    name,
                    refusal,
                };
                writeln!(f, "{number} refused {kind} at {place}: {reason}")
            }
        }
    }
}
