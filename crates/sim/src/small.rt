// The run over a small table. Where the fuel is large the table is packed first: a step over words takes less time than
// one over the table's bytes.
ghost use Rattle.std.specs.Prelude.{◌≡◌, ◌≤◌, IfSome, IsTrue, Ok};
ghost use Rattle.machine.specs.Model.Check.{table_check};
ghost use Rattle.sim_burst.specs.Model.Words.{WordsOk};
ghost use Rattle.sim.specs.Model.Engine.{task, conf, end, run_of};
ghost use Rattle.sim.specs.Model.Turns.{RunOk};
ghost use Rattle.sim.specs.Model.Bursts.{Small};

use super::Simulator;
use super::runs::{Job, Ran};

// Whether to pack the table first: not packed yet, one tape, at most 256 entries, and a fuel of at least 1,024.
fn worth_packing(job: Job, fuel: u64) -> bool
    requires { (job.m.states ≤ 65536) × (job.m.symbols ≤ 256) }
    ensures { IsTrue result → Small job.entry.m }
{
    let m = job.m;
    job.words.is_none() && m.tapes == 1 && 1024 <= fuel && m.states * m.symbols <= 256
}

impl Simulator {
    // Packs a small table and runs over its words.
    fn run_small(self, job: Job, c0: &mut [u8], c1: &mut [u8], c2: &mut [u8], fuel: u64) -> Ran
        requires run_ok { RunOk job.m job.stride self c0.old c1.old c2.old fuel }
        requires table_value { table_check job.m job.table.now ≡ Ok tt }
        requires small { Small job.m }
        ensures { end (conf result.sim c0.new c1.new c2.new) result.outcome ≡ run_of (task job.entry.m job.entry.table.now job.entry.proves job.entry.rule) fuel (conf self c0.old c1.old c2.old) }
    {
        let m = job.m;
        let count = m.states * m.symbols;
        let n = count as usize;
        let mut words: [u64; 256] = [3; 256];
        machine::inner::pack_entries(job.table, m.symbols, count, &mut words);
        let given = Some(&words[..n]);
        let packed = Job {
            words: given,
            ..job
        };
        self.run_bursts(packed, c0, c1, c2, fuel)
    }

    // The run, over words where they are given or where `worth_packing` is true.
    pub(crate) fn run_over(
        self,
        job: Job,
        c0: &mut [u8],
        c1: &mut [u8],
        c2: &mut [u8],
        fuel: u64,
    ) -> Ran
        requires run_ok { RunOk job.m job.stride self c0.old c1.old c2.old fuel }
        requires words_if { IfSome job.words (λ words. WordsOk job.m job.table.now words.now) }
        requires table_value { table_check job.m job.table.now ≡ Ok tt }
        ensures { end (conf result.sim c0.new c1.new c2.new) result.outcome ≡ run_of (task job.entry.m job.entry.table.now job.entry.proves job.entry.rule) fuel (conf self c0.old c1.old c2.old) }
    {
        if worth_packing(job, fuel) {
            return self.run_small(job, c0, c1, c2, fuel);
        }
        self.run_bursts(job, c0, c1, c2, fuel)
    }
}
