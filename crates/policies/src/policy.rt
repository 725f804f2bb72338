// What a policy is.
ghost use Rattle.std.specs.Prelude.{Bool, ◌≡◌, ℕ};

// A policy means a set of ordered pairs of codes, and nothing else is known of one. The start of a line counts as code 00.
pub trait Policy {
    // Whether a pair is in the set.
    ghost admitted: { Self → ℕ → ℕ → Bool };

    // Whether the second code may stand directly after the first.
    fn admits(&self, first: u8, second: u8) -> bool
        ensures { result ≡ admitted self.now first second };
}
