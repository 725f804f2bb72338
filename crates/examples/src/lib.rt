// Worked examples: a list that is shown to follow from the definitions, and tests that run the code.
#![tactic(auto)]

ghost use Rattle.std.specs.Prelude.{◌≡◌, false, length, Decides};
ghost use Rattle.std.specs.List.{AllByRecursion};
ghost use Rattle.examples.specs.Examples.{Holds, examples};

use codes::classes::Class;
use panels::stack::Stack;

#[cfg(test)]
mod on_panels;

// How many examples the list has. Each of them follows from the definitions.
pub fn worked_examples() -> usize
    ensures count { result ≡ length examples }
    ensures hold { AllByRecursion Holds examples }
{
    16
}

// Whether two classes are the same: the derived `==` decides it. There is such a function for each type, since `Eq` alone
// does not say what it decides.
pub fn same_class(first: Class, second: Class) -> bool
    ensures { Decides result (first ≡ second) }
{
    first == second
}

// Whether four rows have the same codes in two columns.
pub fn same_stack(left: Stack, right: Stack) -> bool
    ensures { Decides result (left ≡ right) }
{
    left == right
}

// The worked examples of docs/RULES.md that need neither panel nor editor, and cases at their edges.
#[cfg(test)]
mod tests {
    use cells::cell::Cell;
    use cells::division::{Span, cell_at, first_run_len, width};
    use cells::reading::Codes;
    use cells::runs::{Runs, is_cell};
    use codes::classes::{class_of, is_mark, is_text};
    use codes::levels::{DisplayLevel, level_of};
    use codes::verdicts::verdict_of;
    use faults::fault::Fault;
    use faults::layer::Layer;
    use lines::check::check_line;
    use lines::refusal::Refusal;
    use names::report::report;
    use names::settings::{Misuse, Settings, settings_of};
    use policies::level::LevelPolicy;
    use policies::policy::Policy;
    use policies::tag::TagPolicy;
    use std::fmt;
    use std::fmt::Write;
    use std::test::Fail;

    #[test]
    fn classes(rt: HostRuntime) {
        // Code, class and display level, at the codes that are easily put into a neighbouring class.
        let cases = [
            (0x00, 0, DisplayLevel::Nowhere),
            (0x1F, 0, DisplayLevel::Nowhere),
            (0x20, 1, DisplayLevel::Base),
            (0x7F, 0, DisplayLevel::Nowhere),
            (0xA0, 1, DisplayLevel::Base),
            (0xA1, 2, DisplayLevel::Base),
            (0xC4, 6, DisplayLevel::Base),
            (0xC6, 6, DisplayLevel::Base),
            (0xCF, 1, DisplayLevel::Base),
            (0xD0, 4, DisplayLevel::Base),
            (0xD8, 7, DisplayLevel::Below),
            (0xDA, 9, DisplayLevel::Below),
            (0xE5, 5, DisplayLevel::Base),
            (0xE7, 12, DisplayLevel::Top),
            (0xEC, 11, DisplayLevel::Top),
            (0xEE, 13, DisplayLevel::Top),
            (0xD1, 15, DisplayLevel::Above),
            (0xD4, 14, DisplayLevel::Above),
            (0xD5, 16, DisplayLevel::Above),
            (0xFF, 0, DisplayLevel::Nowhere),
        ];
        for (code, number, level) in cases {
            assert_eq!(rt; class_of(code).number(), number);
            assert_eq!(rt; level_of(class_of(code)), level);
        }
    }

    #[test]
    fn text_and_marks(rt: HostRuntime) {
        assert_eq!(rt; (0..=255u8).filter(|code| is_text(*code)).count(), 184);
        assert_eq!(rt; (0..=255u8).filter(|code| is_mark(*code)).count(), 16);
        assert!(rt; is_text(0xA0) && is_text(0xDC) && is_text(0xFB));
        assert!(rt; !is_text(0xDB) && !is_text(0xDD) && !is_text(0xFE) && !is_text(0xFF));
    }

    #[test]
    fn verdicts(rt: HostRuntime) {
        let cases = [
            (0xA1, 0xD4, 'C'),
            (0xD4, 0xE8, 'C'),
            (0xE8, 0xD4, 'R'),
            (0xE0, 0xD2, 'S'),
            (0xD2, 0xD0, 'S'),
            (0xA1, 0x0D, 'X'),
            (0x00, 0xA1, 'A'),
            (0x00, 0xE8, 'R'),
            (0xD5, 0xE7, 'C'),
            (0xD8, 0xEC, 'C'),
        ];
        for (first, second, letter) in cases {
            assert_eq!(rt; verdict_of(first, second).letter(), letter);
        }
    }

    #[test]
    fn widths(rt: HostRuntime) {
        assert_eq!(rt; width(&[]), 0);
        assert_eq!(rt; width(&[0xA1, 0xD9, 0xE8]), 1);
        assert_eq!(rt; width(&[0xA1, 0xE8, 0xD4]), 2);
        assert_eq!(rt; width(&[0xD4, 0xE8]), 1);
        assert_eq!(rt; width(&[0x41, 0x0A, 0xD4]), 2);
        // Two tone marks stand at one display level, and in two cells.
        assert_eq!(rt; width(&[0xA1, 0xE8, 0xE8]), 2);
        assert_eq!(rt; width(&[0x0A, 0x0D]), 0);
    }

    #[test]
    fn cells(rt: HostRuntime) {
        let string = [0x41, 0x0A, 0xA1, 0xD9, 0xE8, 0xD4];
        assert_eq!(rt; first_run_len(&string), 1);
        assert_eq!(rt; first_run_len(&[0xA1, 0xD9, 0xE8, 0xD4]), 3);
        assert_eq!(rt; first_run_len(&[]), 0);
        assert_eq!(rt; cell_at(&string, 0), Some(Span { start: 0, len: 1 }));
        assert_eq!(rt; cell_at(&string, 1), Some(Span { start: 2, len: 3 }));
        assert_eq!(rt; cell_at(&string, 2), Some(Span { start: 5, len: 1 }));
        assert_eq!(rt; cell_at(&string, 3), None);
    }

    #[test]
    fn runs(rt: HostRuntime) {
        let mut runs = Runs::of(&[0x41, 0x0A, 0xA1, 0xD9, 0xE8, 0xD4]);
        let expected: [(&[u8], bool); 4] = [
            (&[0x41], true),
            (&[0x0A], false),
            (&[0xA1, 0xD9, 0xE8], true),
            (&[0xD4], true),
        ];
        for (run, cell) in expected {
            assert_eq!(rt; runs.next(), Some(run));
            assert_eq!(rt; is_cell(run), cell);
        }
        assert!(rt; runs.next().is_none());
        assert!(rt; Runs::of(&[]).next().is_none());
        assert!(rt; !is_cell(&[]));
    }

    pub(crate) fn cell_of(codes: &[u8]) -> Result<Cell, Fail> {
        match Cell::new(codes) {
            Some(cell) => Ok(cell),
            None => Err(Fail::new("no cell has these codes")),
        }
    }

    #[test]
    fn cell_values(rt: HostRuntime) -> Result<(), Fail> {
        let three = cell_of(&[0xA1, 0xD9, 0xE8])?;
        let mark = cell_of(&[0xD4])?;
        let none = cell_of(&[])?;
        assert_eq!(rt; three.len(), 3);
        assert_eq!(rt; three.codes(), [0xA1, 0xD9, 0xE8].as_slice());
        assert_eq!(rt; mark.codes(), [0xD4].as_slice());
        assert!(rt; none == Cell::blank());
        assert!(rt; mark != three);
        assert!(rt; Cell::new(&[0xA1, 0xE8, 0xD4]).is_none());
        assert!(rt; Cell::new(&[0xA1, 0xA1]).is_none());
        assert!(rt; Cell::new(&[0x0A]).is_none());
        assert!(rt; Cell::new(&[0xDB]).is_none());
        assert!(rt; Cell::new(&[0xA1, 0xD9, 0xE8, 0xE8]).is_none());
        Ok(())
    }

    #[test]
    fn levels(rt: HostRuntime) {
        // A pair with verdict A, C, S, R and X, and which of the levels 0 to 2 admit it.
        let cases = [
            (0xA1, 0xA1, [true, true, true]),
            (0xA1, 0xD4, [true, true, true]),
            (0xE0, 0xD2, [true, true, false]),
            (0xE8, 0xD4, [true, false, false]),
            (0xA1, 0x0D, [true, true, true]),
        ];
        for (first, second, [passthrough, basic, strict]) in cases {
            assert_eq!(rt; LevelPolicy::new(0).admits(first, second), passthrough);
            assert_eq!(rt; LevelPolicy::new(1).admits(first, second), basic);
            assert_eq!(rt; LevelPolicy::new(2).admits(first, second), strict);
            assert_eq!(rt; LevelPolicy::new(3).admits(first, second), strict);
            assert_eq!(rt; LevelPolicy::new(255).admits(first, second), strict);
        }
        assert_eq!(rt; LevelPolicy::new(9).level().number(), 2);
    }

    #[test]
    fn tags(rt: HostRuntime) {
        assert!(rt;
            TagPolicy.admits(0x00, b'7')
                && TagPolicy.admits(b'-', b'A')
                && TagPolicy.admits(0xA1, b'Z')
        );
        assert!(rt; TagPolicy.admits(b'9', b'-') && TagPolicy.admits(b'A', b'-'));
        assert!(rt;
            !TagPolicy.admits(0x00, b'-')
                && !TagPolicy.admits(b'-', b'-')
                && !TagPolicy.admits(0xA1, b'-')
        );
        assert!(rt;
            !TagPolicy.admits(b'A', b'a')
                && !TagPolicy.admits(b'A', b'@')
                && !TagPolicy.admits(b'A', b'[')
        );
        assert!(rt;
            !TagPolicy.admits(b'A', b'/')
                && !TagPolicy.admits(b'A', b':')
                && !TagPolicy.admits(b'A', 0xA1)
        );
    }

    #[test]
    fn first_flaws(rt: HostRuntime) {
        let basic = LevelPolicy::new(1);
        let strict = LevelPolicy::new(2);
        assert_eq!(rt; check_line(&basic, 40, &[]), Ok(0));
        assert_eq!(rt;
            check_line(&basic, 40, &[0xA1, 0xD9, 0xE8, 0xA1, 0xD2]),
            Ok(3)
        );
        assert_eq!(rt;
            check_line(&basic, 40, &[0xA1, 0xE8, 0xD4]),
            Err(Refusal::NotAdmitted(2))
        );
        assert_eq!(rt;
            check_line(&basic, 40, &[0xE8]),
            Err(Refusal::NotAdmitted(0))
        );
        assert_eq!(rt;
            check_line(&basic, 40, &[0x41, 0x07]),
            Err(Refusal::NotText(1))
        );
        assert_eq!(rt; check_line(&basic, 40, &[0xE0, 0xD2]), Ok(2));
        assert_eq!(rt;
            check_line(&strict, 40, &[0xE0, 0xD2]),
            Err(Refusal::NotAdmitted(1))
        );
        // The lowest place is told first, and 6 before 7 at one place.
        assert_eq!(rt;
            check_line(&basic, 40, &[0xA1, 0xE8, 0xD4, 0x07]),
            Err(Refusal::NotAdmitted(2))
        );
        assert_eq!(rt;
            check_line(&basic, 40, &[0x07, 0xE8, 0xD4]),
            Err(Refusal::NotText(0))
        );
        assert_eq!(rt;
            check_line(&strict, 40, &[0xE0, 0xDB]),
            Err(Refusal::NotText(1))
        );
    }

    // Eighty cells of three codes, and one code more.
    fn full_line() -> [u8; 241] {
        let mut line = [0x41; 241];
        for cell in line[..240].chunks_exact_mut(3) {
            cell.copy_from_slice(&[0xA1, 0xD9, 0xE8]);
        }
        line
    }

    #[test]
    fn too_wide(rt: HostRuntime) {
        let basic = LevelPolicy::new(1);
        assert_eq!(rt; check_line(&basic, 1, &[0xA1, 0xE8]), Ok(1));
        assert_eq!(rt;
            check_line(&basic, 1, &[0xA1, 0xE8, 0xA2]),
            Err(Refusal::TooWide(2))
        );
        // The width is told only where nothing else is wrong.
        assert_eq!(rt;
            check_line(&basic, 1, &[0xA1, 0xA2, 0x07]),
            Err(Refusal::NotText(2))
        );
        let line = full_line();
        assert_eq!(rt; check_line(&basic, 80, &line[0..240]), Ok(80));
        assert_eq!(rt; check_line(&basic, 80, &line), Err(Refusal::TooWide(240)));
        assert_eq!(rt; check_line(&basic, 79, &line), Err(Refusal::TooWide(237)));
    }

    // A policy that admits nothing is lawful, and one that cannot be let go is too.
    struct Nothing;

    impl Policy for Nothing {
        ghost admitted = { λ _ _ _. false };

        fn admits(&self, _first: u8, _second: u8) -> bool {
            false
        }
    }

    #[test]
    fn other_policies(rt: HostRuntime) {
        let nothing = Nothing;
        let empty = check_line(&nothing, 1, &[]);
        let one = check_line(&nothing, 1, b"A");
        let Nothing = nothing;
        assert_eq!(rt; empty, Ok(0));
        assert_eq!(rt; one, Err(Refusal::NotAdmitted(0)));
        assert_eq!(rt; check_line(&TagPolicy, 8, b"CR-12"), Ok(5));
        assert_eq!(rt;
            check_line(&TagPolicy, 8, b"-CR"),
            Err(Refusal::NotAdmitted(0))
        );
        assert_eq!(rt;
            check_line(&TagPolicy, 8, b"CR--1"),
            Err(Refusal::NotAdmitted(3))
        );
    }

    #[test]
    fn refusals(rt: HostRuntime) {
        let cases = [
            (Refusal::NotText(3), 6),
            (Refusal::NotAdmitted(3), 7),
            (Refusal::NextNotAdmitted(3), 8),
            (Refusal::TooWide(3), 9),
            (Refusal::NothingThere(3), 10),
            (Refusal::WouldMeet(3), 11),
        ];
        for (refusal, number) in cases {
            assert_eq!(rt; refusal.number(), number);
            assert_eq!(rt; refusal.place(), 3);
            assert_eq!(rt; refusal.layer(), Layer::Editor);
        }
    }

    #[test]
    fn sentences(rt: HostRuntime) -> Result<(), Fail> {
        let cases = [
            (Refusal::NotText(3), "the code at place 3 is no text code"),
            (
                Refusal::NotAdmitted(3),
                "the policy does not admit the code at place 3 after the one before it",
            ),
            (
                Refusal::NextNotAdmitted(3),
                "the policy does not admit the code after the cursor behind a key at place 3",
            ),
            (
                Refusal::TooWide(3),
                "the cells outnumber the columns from place 3 on",
            ),
            (
                Refusal::NothingThere(3),
                "there is nothing on that side of place 3",
            ),
            (
                Refusal::WouldMeet(3),
                "the policy does not admit the two codes that would meet at place 3",
            ),
        ];
        for (refusal, expected) in cases {
            let sentence = format!(in rt.alloc(); "{refusal}")?;
            assert_eq!(rt; sentence.as_str(), expected);
        }
        let (hex, frame, editor) = (Layer::Hex, Layer::Frame, Layer::Editor);
        let layers = format!(in rt.alloc(); "{hex} {frame} {editor}")?;
        assert_eq!(rt; layers.as_str(), "hex frame editor");
        Ok(())
    }

    // It takes so many pieces of text, and no more.
    #[derive(Drop)]
    struct Takes {
        text: String,
        pieces: usize,
    }

    impl fmt::Write for Takes {
        fn write_str(&mut self, s: &str) -> fmt::Result {
            if self.pieces == 0 {
                return Err(fmt::Error);
            }
            self.pieces -= 1;
            self.text.push_str(s)?;
            Ok(())
        }
    }

    #[test]
    fn digit_by_digit(rt: HostRuntime) -> Result<(), Fail> {
        // How many pieces are taken, what is there then, and whether that is all.
        let cases = [
            (0, "", false),
            (1, "A", false),
            (2, "A1", false),
            (3, "A10", false),
            (4, "A107", true),
        ];
        for (pieces, expected, whole) in cases {
            let text = String::new(rt.alloc());
            let mut taker = Takes { text, pieces };
            let codes = Codes(&[0xA1, 0x07]);
            assert_eq!(rt; write!(taker, "{codes}").is_ok(), whole);
            assert_eq!(rt; taker.text.as_str(), expected);
        }
        Ok(())
    }

    #[test]
    fn misuses(rt: HostRuntime) -> Result<(), Fail> {
        let cases = [
            (Misuse::Columns, "COLUMNS is a number from 1 to 80"),
            (Misuse::Level, "LEVEL is a number from 0 to 2"),
            (
                Misuse::Words,
                "at most two words are taken, COLUMNS and LEVEL",
            ),
            (Misuse::Unreadable, "the words cannot be read as text"),
            (Misuse::Length, "the list has more than 1048576 bytes"),
        ];
        for (misuse, expected) in cases {
            let sentence = format!(in rt.alloc(); "{misuse}")?;
            assert_eq!(rt; sentence.as_str(), expected);
        }
        Ok(())
    }

    #[test]
    fn reports(rt: HostRuntime) -> Result<(), Fail> {
        let list = b"\xA1\xD9\xE8\xA1\xD2\r\n\xA1\xE8\xD4\n\x07\nABC\n\nCR\r";
        let settings = Settings {
            columns: 2,
            level: 1,
        };
        let text = report(rt.alloc(), settings, list)?;
        let expected = "1 refused 9 at 4: 3 cells, and the panel has 2 columns
2 refused 7 at 2: level 1 does not admit D4 after E8
3 refused 6 at 0: 07 is no text code
4 refused 9 at 2: 3 cells, and the panel has 2 columns
5 ok 0
6 refused 6 at 2: 0D is no text code
6 names, 1 ok, 5 refused
";
        assert_eq!(rt; text.as_str(), expected);
        Ok(())
    }

    #[test]
    fn words(rt: HostRuntime) -> Result<(), Fail> {
        let heap = rt.alloc();
        let mut words: Vec<String> = Vec::new(heap);
        assert_eq!(rt;
            settings_of(words.as_slice()),
            Ok(Settings {
                columns: 40,
                level: 1,
            })
        );
        words.push(String::from_str(heap, "80")?)?;
        assert_eq!(rt;
            settings_of(words.as_slice()),
            Ok(Settings {
                columns: 80,
                level: 1,
            })
        );
        words.push(String::from_str(heap, "0")?)?;
        assert_eq!(rt;
            settings_of(words.as_slice()),
            Ok(Settings {
                columns: 80,
                level: 0,
            })
        );
        words.push(String::new(heap))?;
        assert_eq!(rt; settings_of(words.as_slice()), Err(Misuse::Words));
        Ok(())
    }

    #[test]
    fn wrong_words(rt: HostRuntime) -> Result<(), Fail> {
        let heap = rt.alloc();
        for word in ["0", "81", "256", "296", "", "4o", "-1", "+40", " 40"] {
            let words = vec![in heap; String::from_str(heap, word)?]?;
            assert_eq!(rt; settings_of(words.as_slice()), Err(Misuse::Columns));
        }
        for word in ["3", "256", "x", ""] {
            let words = vec![in heap;
                String::from_str(heap, "40")?,
                String::from_str(heap, word)?,
            ]?;
            assert_eq!(rt; settings_of(words.as_slice()), Err(Misuse::Level));
        }
        Ok(())
    }
}
