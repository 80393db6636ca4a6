//! The draws of a seed.

ghost use Rattle.script_gen.specs.Generated.{next_draw};
ghost use Rattle.std.specs.Prelude.{◌≡◌};

use std::marker::Model;

/// A linear congruential generator modulo 2^64. The state is the last draw, or the seed.
#[derive(Debug, Drop)]
pub struct Draws {
    state: u64,
}

impl Model for Draws {
    ghost use Rattle.std.specs.Prelude.{ℕ};

    ghost Value = { ℕ };

    ghost view = { λ draws. draws.state };
}

impl Draws {
    pub fn new(seed: u64) -> Draws
        ensures { result ≡ seed }
    {
        Draws { state: seed }
    }

    /// A generator of the same draws.
    pub fn copy(&self) -> Draws
        ensures { result ≡ self.now }
    {
        Draws { state: self.state }
    }

    /// The next draw, with Knuth's multiplier and increment for MMIX.
    #[tactic(auto, unfolding(crate::specs::Generated::next_draw))]
    pub fn draw(&mut self) -> u64
        ensures value { result ≡ next_draw self.old }
        ensures state { self.new ≡ next_draw self.old }
    {
        self.state = self
            .state
            .wrapping_mul(6_364_136_223_846_793_005)
            .wrapping_add(1_442_695_040_888_963_407);
        self.state
    }
}
