// The checks of an operation on an engine before it begins: the table check, refusals 8, 11 and 12, and 13 for a run.
ghost use Rattle.std.specs.Prelude.{◌≡◌};
ghost use Rattle.rle.specs.Model.Engine.{conf};
ghost use Rattle.rle.specs.Fits.{chain_fits, value_check, engine_check, run_check};

use super::ChainSim;
use super::inner::fits;
use machine::Machine;
use notation::limits;
use outcome::Refusal;
use rle_stack::inner as stack;
use run_checks::inner::sizes;

impl ChainSim {
    pub fn fits(self, m: Machine, ls: &[u8], ll: &[u64], rs: &[u8], rl: &[u64]) -> bool
        ensures { result ≡ chain_fits m (conf self ls.now ll.now rs.now rl.now) }
    {
        if !fits::counts_fit(self, m) {
            return false;
        }
        if !fits::head_fits(self) {
            return false;
        }
        let tape = self.tape;
        let most = self.steps + limits::SLACK;
        let lp = stack::places(ls, ll);
        let lefts = fits::measure(ls, ll, tape.left, lp, m.symbols, most);
        if most < lefts {
            return false;
        }
        let rp = stack::places(rs, rl);
        let rights = fits::measure(rs, rl, tape.right, rp, m.symbols, most);
        if most < rights {
            return false;
        }
        fits::reach_fits(self, lefts, rights)
    }

    fn value_check(
        self,
        m: Machine,
        ls: &[u8],
        ll: &[u64],
        rs: &[u8],
        rl: &[u64],
    ) -> Result<(), Refusal>
        ensures { result ≡ value_check m (conf self ls.now ll.now rs.now rl.now) }
    {
        if m.tapes != 1 {
            return Err(Refusal::SeveralTapes);
        }
        if limits::RUNS < stack::places(ls, ll) {
            return Err(Refusal::BufferSize);
        }
        if limits::RUNS < stack::places(rs, rl) {
            return Err(Refusal::BufferSize);
        }
        if !self.fits(m, ls, ll, rs, rl) {
            return Err(Refusal::Misfit);
        }
        Ok(())
    }

    // The table check, then refusals 8, 11 and 12.
    pub fn engine_check(
        self,
        m: Machine,
        table: &[u8],
        ls: &[u8],
        ll: &[u64],
        rs: &[u8],
        rl: &[u64],
    ) -> Result<(), Refusal>
        ensures { result ≡ engine_check m table.now (conf self ls.now ll.now rs.now rl.now) }
    {
        m.check(table)?;
        self.value_check(m, ls, ll, rs, rl)
    }

    // `engine_check`, then refusal 13.
    pub(crate) fn run_check(
        self,
        m: Machine,
        table: &[u8],
        ls: &[u8],
        ll: &[u64],
        rs: &[u8],
        rl: &[u64],
        fuel: u64,
    ) -> Result<(), Refusal>
        ensures { result ≡ run_check m table.now fuel (conf self ls.now ll.now rs.now rl.now) }
    {
        self.engine_check(m, table, ls, ll, rs, rl)?;
        if !sizes::fuel_fits(self.steps, fuel) {
            return Err(Refusal::StepLimit);
        }
        Ok(())
    }
}
