// The checks of operations on an engine: the table check, then refusals 11, 12 and 13.
ghost use Rattle.std.specs.Prelude.{◌≡◌};
ghost use Rattle.sim.specs.Model.Engine.{conf};
ghost use Rattle.sim.specs.Model.Operations.{bare_sim, hand_back, sim_fits, value_check, engine_check, fuel_check, run_check};

use super::Simulator;
use machine::Machine;
use outcome::Refusal;
use run_checks::inner::sizes;
use tape::Tape;

impl Simulator {
    pub fn fits(self, m: Machine, c0: &[u8], c1: &[u8], c2: &[u8]) -> bool
        ensures { result ≡ sim_fits m self c0.now c1.now c2.now }
    {
        let t0 = self.t0;
        let t1 = self.t1;
        let t2 = self.t2;
        let q = self.state.0 as u64;
        let k = m.symbols;
        let t = m.tapes;
        if m.states <= q {
            return false;
        }
        if !sizes::steps_fit(self.steps) {
            return false;
        }
        if !t0.fits(k, c0) {
            return false;
        }
        if !sizes::tape_fits(1 < t, k, t1, c1) {
            return false;
        }
        sizes::tape_fits(2 < t, k, t2, c2)
    }

    // Refusals 11 and 12.
    fn value_check(self, m: Machine, c0: &[u8], c1: &[u8], c2: &[u8]) -> Result<(), Refusal>
        ensures { result ≡ value_check m (conf self c0.now c1.now c2.now) }
    {
        if !sizes::sizes_fit(m, c0.len(), c1.len(), c2.len()) {
            return Err(Refusal::BufferSize);
        }
        if !self.fits(m, c0, c1, c2) {
            return Err(Refusal::Misfit);
        }
        Ok(())
    }

    // The table check, then refusals 11 and 12.
    pub fn engine_check(
        self,
        m: Machine,
        table: &[u8],
        c0: &[u8],
        c1: &[u8],
        c2: &[u8],
    ) -> Result<(), Refusal>
        ensures { result ≡ engine_check m table.now (conf self c0.now c1.now c2.now) }
    {
        m.check(table)?;
        self.value_check(m, c0, c1, c2)
    }

    // Refusals 11, 12 and 13.
    pub(crate) fn fuel_check(
        self,
        m: Machine,
        c0: &[u8],
        c1: &[u8],
        c2: &[u8],
        fuel: u64,
    ) -> Result<(), Refusal>
        ensures { result ≡ fuel_check m fuel (conf self c0.now c1.now c2.now) }
    {
        self.value_check(m, c0, c1, c2)?;
        if !sizes::fuel_fits(self.steps, fuel) {
            return Err(Refusal::StepLimit);
        }
        Ok(())
    }

    // The table check, then refusals 11, 12 and 13.
    pub(crate) fn run_check(
        self,
        m: Machine,
        table: &[u8],
        c0: &[u8],
        c1: &[u8],
        c2: &[u8],
        fuel: u64,
    ) -> Result<(), Refusal>
        ensures { result ≡ run_check m table.now fuel (conf self c0.now c1.now c2.now) }
    {
        m.check(table)?;
        self.fuel_check(m, c0, c1, c2, fuel)
    }

    // The value with 0 in the fields of tapes that the machine lacks.
    pub(crate) fn bare(self, tapes: u64) -> Simulator
        ensures { result ≡ bare_sim tapes self }
    {
        let none = Tape {
            len: 0,
            origin: 0,
            head: 0,
            lowest: 0,
            highest: 0,
        };
        let lacking = Simulator {
            t1: none,
            t2: none,
            ..self
        };
        self.hand_back(tapes, lacking)
    }

    // The value with the fields of `before` for tapes that the machine lacks.
    pub(crate) fn hand_back(self, tapes: u64, before: Simulator) -> Simulator
        ensures { result ≡ hand_back tapes before self }
    {
        Simulator {
            t1: sizes::tape_or(1 < tapes, self.t1, before.t1),
            t2: sizes::tape_or(2 < tapes, self.t2, before.t2),
            ..self
        }
    }
}
