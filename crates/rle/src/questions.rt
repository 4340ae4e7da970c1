// Questions on an engine's tape. Each first makes the table check and tests refusals 8, 11 and 12.
ghost use Rattle.std.specs.Prelude.{◌≡◌, false, List, ℕ};
ghost use Rattle.rle.specs.Model.Engine.{conf};
ghost use Rattle.rle.specs.Invariants.{AskOk};
ghost use Rattle.rle.specs.Fits.{engine_check};
ghost use Rattle.rle.specs.Model.Questions.{read_of, lowest_of, highest_of, blank_tape, span_of, get_answer, extent_answer, count_answer, window_into};

use super::ChainSim;
use machine::Machine;
use notation::limits;
use outcome::Refusal;
use rle_macro::inner::questions;
use rle_macro::inner::questions::Tape;
use rle_stack::inner as stack;
use symbol::{Symbol, position};
use tape::Span;

impl ChainSim {
    // Whether every cell is blank.
    fn blank(self) -> bool
        ensures { (ls ll rs rl : List ℕ) → result ≡ blank_tape (conf self ls ll rs rl) }
    {
        let tape = self.tape;
        if tape.cur != 0 {
            return false;
        }
        if tape.left != 0 {
            return false;
        }
        tape.right == 0
    }

    // The tape of an engine that fits, to read.
    fn read<'a>(self, ls: &'a [u8], ll: &'a [u64], rs: &'a [u8], rl: &'a [u64]) -> Tape<'a>
        requires { AskOk (conf self ls.now ll.now rs.now rl.now) }
        ensures { result ≡ read_of (conf self ls.now ll.now rs.now rl.now) }
    {
        let tape = self.tape;
        Tape {
            head: tape.head,
            cur: tape.cur,
            left: stack::side_to_read(ls, ll, tape.left),
            right: stack::side_to_read(rs, rl, tape.right),
        }
    }

    // The raised position of the lowest cell that is not blank.
    fn lowest_cell(self, ls: &[u8], ll: &[u64], rs: &[u8], rl: &[u64]) -> u64
        requires { (AskOk (conf self ls.now ll.now rs.now rl.now)) × (blank_tape (conf self ls.now ll.now rs.now rl.now) ≡ false) }
        ensures { result ≡ lowest_of (conf self ls.now ll.now rs.now rl.now) }
    {
        let tape = self.tape;
        if tape.left != 0 {
            let lefts = stack::side_to_read(ls, ll, tape.left);
            return tape.head - stack::cells(&lefts, self.steps + limits::SLACK);
        }
        if tape.cur != 0 {
            return tape.head;
        }
        let rights = stack::side_to_read(rs, rl, tape.right);
        tape.head + stack::near(&rights)
    }

    // The raised position of the highest cell that is not blank. One function for this and `lowest_cell` would choose a
    // side and a sign in each line.
    fn highest_cell(self, ls: &[u8], ll: &[u64], rs: &[u8], rl: &[u64]) -> u64
        requires { (AskOk (conf self ls.now ll.now rs.now rl.now)) × (blank_tape (conf self ls.now ll.now rs.now rl.now) ≡ false) }
        ensures { result ≡ highest_of (conf self ls.now ll.now rs.now rl.now) }
    {
        let tape = self.tape;
        if tape.right != 0 {
            let rights = stack::side_to_read(rs, rl, tape.right);
            return tape.head + stack::cells(&rights, self.steps + limits::SLACK);
        }
        if tape.cur != 0 {
            return tape.head;
        }
        let lefts = stack::side_to_read(ls, ll, tape.left);
        tape.head - stack::near(&lefts)
    }

    fn span(self, ls: &[u8], ll: &[u64], rs: &[u8], rl: &[u64]) -> Option<Span>
        requires { AskOk (conf self ls.now ll.now rs.now rl.now) }
        ensures { result ≡ span_of (conf self ls.now ll.now rs.now rl.now) }
    {
        if self.blank() {
            return None;
        }
        let from = position::signed(self.lowest_cell(ls, ll, rs, rl));
        let to = position::signed(self.highest_cell(ls, ll, rs, rl));
        Some(Span { from, to })
    }

    // The symbol at a position; a cell past the stacks is blank.
    pub fn get(
        self,
        m: Machine,
        table: &[u8],
        ls: &[u8],
        ll: &[u64],
        rs: &[u8],
        rl: &[u64],
        at: i64,
    ) -> Result<Symbol, Refusal>
        ensures { result ≡ get_answer m table.now at (conf self ls.now ll.now rs.now rl.now) }
    {
        self.engine_check(m, table, ls, ll, rs, rl)?;
        let tape = self.read(ls, ll, rs, rl);
        Ok(Symbol(tape.cell(position::raised(at))))
    }

    // The positions of the lowest and the highest non-blank cell.
    pub fn non_blank(
        self,
        m: Machine,
        table: &[u8],
        ls: &[u8],
        ll: &[u64],
        rs: &[u8],
        rl: &[u64],
    ) -> Result<Option<Span>, Refusal>
        ensures { result ≡ extent_answer m table.now (conf self ls.now ll.now rs.now rl.now) }
    {
        self.engine_check(m, table, ls, ll, rs, rl)?;
        Ok(self.span(ls, ll, rs, rl))
    }

    // How many cells are not blank.
    pub fn count_non_blank(
        self,
        m: Machine,
        table: &[u8],
        ls: &[u8],
        ll: &[u64],
        rs: &[u8],
        rl: &[u64],
    ) -> Result<u64, Refusal>
        ensures { result ≡ count_answer m table.now (conf self ls.now ll.now rs.now rl.now) }
    {
        self.engine_check(m, table, ls, ll, rs, rl)?;
        let tape = self.read(ls, ll, rs, rl);
        Ok(questions::count(&tape))
    }

    // Writes the symbols from a position on into the whole of `out`; positions past i64 are blank.
    pub fn window(
        self,
        m: Machine,
        table: &[u8],
        ls: &[u8],
        ll: &[u64],
        rs: &[u8],
        rl: &[u64],
        from: i64,
        out: &mut [u8],
    ) -> Result<(), Refusal>
        ensures { (result ≡ engine_check m table.now (conf self ls.now ll.now rs.now rl.now)) × (out.new ≡ window_into m table.now from (conf self ls.now ll.now rs.now rl.now) out.old) }
    {
        self.engine_check(m, table, ls, ll, rs, rl)?;
        let tape = self.read(ls, ll, rs, rl);
        tape.fill_window(position::raised(from), out);
        Ok(())
    }
}
