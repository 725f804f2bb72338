// The policies that check by level (TIS 1566, clause 4.5.2).
ghost use Rattle.std.specs.Prelude.{◌≡◌};
ghost use Rattle.policies.specs.Levels.{level_number, level_numbered, level_pairs};

use crate::policy::Policy;
use codes::verdicts::{Verdict, verdict_of};

// How strictly two neighbours are checked, from 0 to 2.
#[derive(Clone, Copy, Debug, PartialEq, Eq, PartialOrd, Ord)]
pub enum Level {
    // 0: every pair is admitted.
    Passthrough,
    // 1: all but verdict R.
    Basic,
    // 2: all but verdicts R and S.
    Strict,
}

impl Level {
    // The standard's number, so it goes by that name; a `From<Level> for u8` would say it twice.
    pub fn number(self) -> u8
        ensures { result ≡ level_number self }
    {
        self as u8
    }
}

#[derive(Clone, Copy, Debug, PartialEq, Eq)]
pub struct LevelPolicy {
    level: Level,
}

impl LevelPolicy {
    // The policy of a level's number; one above 2 is taken as 2, so this is no `TryFrom`, which would have to refuse it.
    pub fn new(number: u8) -> LevelPolicy
        ensures { result.level ≡ level_numbered number }
    {
        let level = match number {
            0 => Level::Passthrough,
            1 => Level::Basic,
            _ => Level::Strict,
        };
        LevelPolicy { level }
    }

    pub fn level(&self) -> Level
        ensures { result ≡ self.now.level }
    {
        self.level
    }
}

impl Policy for LevelPolicy {
    ghost admitted = { λ p. level_pairs p.level };

    #[tactic(auto, unfolding(crate::specs::Levels::level_pairs))]
    fn admits(&self, first: u8, second: u8) -> bool {
        match verdict_of(first, second) {
            Verdict::StrictReject => self.level < Level::Strict,
            Verdict::Reject => self.level < Level::Basic,
            Verdict::Accept | Verdict::Compose | Verdict::NoDisplay => true,
        }
    }
}
