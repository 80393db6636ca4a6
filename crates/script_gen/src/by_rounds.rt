//! The lines of the script of a seed, made round by round.

ghost use Rattle.script_gen.specs.Drawing.{IsNextRound};
ghost use Rattle.script_gen.specs.Generated.{generated_config, generated_lines};
ghost use Rattle.std.specs.Prelude.{◌≡◌, IfOk, OnErr, length};

use crate::draws::Draws;
use crate::rounds::{ROUNDS, append_round};
use crate::settings::config;
use dcd_base::NoMemory;
use region_config::Config;
use script_codec::Lines;
use std::alloc::Global;
use std::marker::Model;

/// How many lines a round has at most.
const LINES: usize = 149;

/// What is still to come of the script of a seed: a round is made when it is asked for.
///
/// Contracts see how many rounds are still to come, and their lines.
#[derive(Drop)]
pub struct Rounds {
    alloc: Global,
    draws: Draws,
    round: u16,
}

impl Model for Rounds {
    ghost use Rattle.script_gen.specs.Drawing.{Unmade, rounds_from};
    ghost use Rattle.std.specs.Prelude.{◌-◌, ◌≤◌};

    ghost Value = { Unmade };

    ghost view = { λ r. record { left = 256 - r.round; rest = rounds_from (256 - r.round) r.round r.draws } };

    ghost invariant = { λ r. r.round ≤ 256 };
}

impl Rounds {
    /// All rounds of the script: its 38,137 lines.
    #[tactic(auto, using(crate::proofs::RoundSteps::all_rounds, crate::proofs::Counting::length_is))]
    pub fn new(alloc: Global, seed: u64) -> Rounds
        ensures rest { result.rest ≡ generated_lines seed }
        ensures lines { length result.rest ≡ 38137 }
    {
        Rounds {
            alloc,
            draws: Draws::new(seed),
            round: 0,
        }
    }

    /// The device that the script is for.
    pub fn config(&self) -> Result<Config, NoMemory>
        ensures { IfOk result (λ config. config ≡ generated_config) }
    {
        config(self.alloc)
    }

    /// The lines of the next round, or none behind the last. Each is an act that its actor may do.
    #[tactic(auto, using(crate::proofs::RoundSteps::next_round, crate::proofs::RoundSteps::no_round))]
    pub fn next(&mut self) -> Result<Option<Lines>, NoMemory>
        ensures next { IfOk result (IsNextRound self.old self.new) }
        ensures kept { OnErr result (self.new ≡ self.old) }
    {
        if self.round == ROUNDS {
            return Ok(None);
        }
        let mut lines = Vec::with_capacity(self.alloc, LINES)?;
        let mut draws = self.draws.copy();
        append_round(self.round, &mut draws, &mut lines)?;
        self.draws = draws;
        self.round += 1;
        Ok(Some(Lines::from_vec(self.alloc, lines)))
    }
}
