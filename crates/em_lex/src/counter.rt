ghost use Rattle.std.specs.Prelude.{◌≡◌, ◌+◌, ◌-◌, ◌^◌, min};

use std::marker::Model;

/// How many calls of `lex` there were, up to the greatest number that a `u64` holds.
#[derive(Debug, Drop)]
pub struct Lexings {
    count: u64,
}

impl Model for Lexings {
    ghost use Rattle.std.specs.Prelude.{ℕ, ◌<◌, ◌^◌};

    ghost Value = { ℕ };

    ghost view = { λ l. l.count };

    ghost invariant = { λ l. l.count < 2 ^ 64 };
}

impl Lexings {
    pub fn new() -> Lexings
        ensures { result ≡ 0 }
    {
        Lexings { count: 0 }
    }

    pub fn count(&self) -> u64
        ensures { result ≡ self.now }
    {
        self.count
    }

    /// One call more.
    pub(crate) fn raise(&mut self)
        ensures { self.new ≡ min (self.old + 1) (2 ^ 64 - 1) }
    {
        self.count = self.count.saturating_add(1);
    }
}
