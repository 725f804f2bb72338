// What the program is asked for.
ghost use Rattle.std.specs.Prelude.{◌≡◌, Some, map, string_bytes};
ghost use Rattle.names.specs.Asked.{default_settings, misuse_text, number_of, setting_of, settings_of, with_digit};

use std::error::Error;
use std::fmt;

// The columns of the panel, 1 to 80, and the level of checking, 0 to 2.
// A narrower type for either would ask more of those who make the settings by hand.
#[derive(Clone, Copy, Debug, PartialEq, Eq)]
pub struct Settings {
    pub columns: u8,
    pub level: u8,
}

impl Default for Settings {
    ghost is_default = { λ s. s ≡ default_settings };

    fn default() -> Settings {
        Settings {
            columns: 40,
            level: 1,
        }
    }
}

// What is wrong with how the program was called.
#[derive(Clone, Copy, Debug, PartialEq, Eq)]
pub enum Misuse {
    Columns,
    Level,
    Words,
    Unreadable,
    Length,
}

impl fmt::Display for Misuse {
    ghost output = { λ x. Some (misuse_text x) };

    fn fmt<W: fmt::Write>(&self, f: &mut fmt::Formatter<W>) -> fmt::Result {
        f.write_str(match self {
            Misuse::Columns => "COLUMNS is a number from 1 to 80",
            Misuse::Level => "LEVEL is a number from 0 to 2",
            Misuse::Words => "at most two words are taken, COLUMNS and LEVEL",
            Misuse::Unreadable => "the words cannot be read as text",
            Misuse::Length => "the list has more than 1048576 bytes",
        })
    }
}

impl Error for Misuse {}

// A number with one digit more behind it, if that is a digit and the number stays below 256.
fn with_digit(number: u8, code: u8) -> Option<u8>
    ensures { result ≡ with_digit number code }
{
    if !code.is_ascii_digit() {
        return None;
    }
    // `checked_mul` and `checked_add` of `u8` would take longer.
    u8::try_from(u16::from(number) * 10 + u16::from(code - b'0')).ok()
}

// The number that a word writes with decimal digits, if it is below 256. `parse` would let a sign through.
fn number_of(word: &[u8]) -> Option<u8>
    ensures { result ≡ number_of word.now }
{
    if word.is_empty() {
        return None;
    }
    let mut number = 0;
    for code in word {
        number = with_digit(number, *code)?;
    }
    Some(number)
}

// The number that a word writes, if it is from `low` to `high`; else the word is misused.
fn setting_of(word: &str, low: u8, high: u8, misuse: Misuse) -> Result<u8, Misuse>
    ensures { result ≡ setting_of low high misuse word.now }
{
    number_of(word.as_bytes())
        .filter(|number| (low..=high).contains(number))
        .ok_or(misuse)
}

// The settings that the program's words ask for; 40 columns and level 1 where they say nothing.
pub fn settings_of(words: &[String]) -> Result<Settings, Misuse>
    ensures { result ≡ settings_of (map string_bytes words.now) }
{
    if words.len() > 2 {
        return Err(Misuse::Words);
    }
    let mut settings = Settings::default();
    if let Some(word) = words.first() {
        settings.columns = setting_of(word, 1, 80, Misuse::Columns)?;
    }
    if let Some(word) = words.get(1) {
        settings.level = setting_of(word, 0, 2, Misuse::Level)?;
    }
    Ok(settings)
}
