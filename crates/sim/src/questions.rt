// Questions on one tape of an engine. Each tests the table, the value and the tape's number first.
ghost use Rattle.std.specs.Prelude.{◌≡◌};
ghost use Rattle.sim.specs.Model.Engine.{conf};
ghost use Rattle.sim.specs.Model.Questions.{tape_at, cells_at, question_check, get_answer, extent_answer, count_answer, window_into, find_answer};

use super::Simulator;
use machine::Machine;
use outcome::Refusal;
use symbol::{Dir, Symbol};
use tape::inner::view::View;
use tape::{Span, Tape};

fn cells_at<'a>(i: u64, c0: &'a [u8], c1: &'a [u8], c2: &'a [u8]) -> &'a [u8]
    ensures { result.now ≡ cells_at i c0.now c1.now c2.now }
{
    if i == 0 {
        return c0;
    }
    if i == 1 {
        return c1;
    }
    c2
}

impl Simulator {
    fn tape_at(self, i: u64) -> Tape
        ensures { result ≡ tape_at i self }
    {
        if i == 0 {
            return self.t0;
        }
        if i == 1 {
            return self.t1;
        }
        self.t2
    }

    // The table check, then refusals 11 and 12. A tape that the machine lacks gets 12.
    fn question_check(
        self,
        m: Machine,
        table: &[u8],
        c0: &[u8],
        c1: &[u8],
        c2: &[u8],
        tape: u64,
    ) -> Result<(), Refusal>
        ensures { result ≡ question_check m table.now tape (conf self c0.now c1.now c2.now) }
    {
        self.engine_check(m, table, c0, c1, c2)?;
        if m.tapes <= tape {
            return Err(Refusal::Misfit);
        }
        Ok(())
    }

    // The symbol at a position; a cell outside the tape is blank.
    pub fn get<'a>(
        self,
        m: Machine,
        table: &[u8],
        c0: &'a [u8],
        c1: &'a [u8],
        c2: &'a [u8],
        tape: u64,
        at: i64,
    ) -> Result<Symbol, Refusal>
        ensures { result ≡ get_answer m table.now tape at (conf self c0.now c1.now c2.now) }
    {
        self.question_check(m, table, c0, c1, c2, tape)?;
        let t = self.tape_at(tape);
        let cells = cells_at(tape, c0, c1, c2);
        let view = View { tape: t, cells };
        Ok(Symbol(view.get(at)))
    }

    // The positions of the lowest and the highest non-blank cell.
    pub fn non_blank<'a>(
        self,
        m: Machine,
        table: &[u8],
        c0: &'a [u8],
        c1: &'a [u8],
        c2: &'a [u8],
        tape: u64,
    ) -> Result<Option<Span>, Refusal>
        ensures { result ≡ extent_answer m table.now tape (conf self c0.now c1.now c2.now) }
    {
        self.question_check(m, table, c0, c1, c2, tape)?;
        let t = self.tape_at(tape);
        let cells = cells_at(tape, c0, c1, c2);
        let view = View { tape: t, cells };
        Ok(view.non_blank())
    }

    // How many cells are not blank.
    pub fn count_non_blank<'a>(
        self,
        m: Machine,
        table: &[u8],
        c0: &'a [u8],
        c1: &'a [u8],
        c2: &'a [u8],
        tape: u64,
    ) -> Result<u64, Refusal>
        ensures { result ≡ count_answer m table.now tape (conf self c0.now c1.now c2.now) }
    {
        self.question_check(m, table, c0, c1, c2, tape)?;
        let t = self.tape_at(tape);
        let cells = cells_at(tape, c0, c1, c2);
        let view = View { tape: t, cells };
        Ok(view.count_non_blank())
    }

    // Fills `out` with the symbols from a position on; positions past i64 are blank.
    pub fn window<'a>(
        self,
        m: Machine,
        table: &[u8],
        c0: &'a [u8],
        c1: &'a [u8],
        c2: &'a [u8],
        tape: u64,
        from: i64,
        out: &mut [u8],
    ) -> Result<(), Refusal>
        ensures { (result ≡ question_check m table.now tape (conf self c0.now c1.now c2.now)) × (out.new ≡ window_into m table.now tape from (conf self c0.now c1.now c2.now) out.old) }
    {
        self.question_check(m, table, c0, c1, c2, tape)?;
        let t = self.tape_at(tape);
        let cells = cells_at(tape, c0, c1, c2);
        let view = View { tape: t, cells };
        view.window(from, out);
        Ok(())
    }

    // The nearest non-blank cell at a position or beyond it in direction `dir`; N tests the position alone.
    pub fn find_non_blank<'a>(
        self,
        m: Machine,
        table: &[u8],
        c0: &'a [u8],
        c1: &'a [u8],
        c2: &'a [u8],
        tape: u64,
        from: i64,
        dir: Dir,
    ) -> Result<Option<i64>, Refusal>
        ensures { result ≡ find_answer m table.now tape from dir (conf self c0.now c1.now c2.now) }
    {
        self.question_check(m, table, c0, c1, c2, tape)?;
        let t = self.tape_at(tape);
        let cells = cells_at(tape, c0, c1, c2);
        let view = View { tape: t, cells };
        Ok(view.find_non_blank(from, dir))
    }
}
