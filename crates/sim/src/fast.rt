// The check of a fast run.
ghost use Rattle.std.specs.Prelude.{◌≡◌};
ghost use Rattle.sim.specs.Model.Engine.{conf};
ghost use Rattle.sim.specs.Model.Operations.{fast_check};

use super::Simulator;
use machine::Machine;
use outcome::Refusal;
use run_checks::inner::words;

impl Simulator {
    // The table check, then refusals 7, 11, 12 and 13.
    pub(crate) fn fast_check(
        self,
        m: Machine,
        table: &[u8],
        words: &[u64],
        c0: &[u8],
        c1: &[u8],
        c2: &[u8],
        fuel: u64,
    ) -> Result<(), Refusal>
        ensures { result ≡ fast_check m table.now words.now fuel (conf self c0.now c1.now c2.now) }
    {
        m.check(table)?;
        if !words::words_right(m, table, words) {
            return Err(Refusal::PackedWords);
        }
        self.fuel_check(m, c0, c1, c2, fuel)
    }
}
