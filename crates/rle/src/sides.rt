// The tape questions `left` and `right`, which write the runs of a side as records into a lent slice. These two take
// the slice; the check makes every decision.
ghost use Rattle.std.specs.Prelude.{◌≡◌, length};
ghost use Rattle.rle.specs.Model.Engine.{conf};
ghost use Rattle.rle.specs.Model.Records.{side_answer, left_answer, left_into, right_answer, right_into};

use super::ChainSim;
use machine::Machine;
use outcome::Refusal;
use rle_records::Run;
use rle_stack::inner as stack;

impl ChainSim {
    // The table check, refusals 8, 11 and 12, then 18 where `room` records are too few for `count` runs.
    fn list_check<'a>(
        self,
        m: Machine,
        table: &'a [u8],
        ls: &'a [u8],
        ll: &'a [u64],
        rs: &'a [u8],
        rl: &'a [u64],
        count: usize,
        room: usize,
    ) -> Result<u64, Refusal>
        ensures { result ≡ side_answer m table.now count room (conf self ls.now ll.now rs.now rl.now) }
    {
        self.engine_check(m, table, ls, ll, rs, rl)?;
        rle_records::inner::room_for(count, room)
    }

    // Writes the runs of the left side, the topmost last, into the first places of `out`; returns their number.
    pub fn left<'a, 'b>(
        self,
        m: Machine,
        table: &'a [u8],
        ls: &'a [u8],
        ll: &'a [u64],
        rs: &'a [u8],
        rl: &'a [u64],
        out: &'b mut [Run],
    ) -> Result<u64, Refusal>
        ensures { (result ≡ left_answer m table.now (length out.old) (conf self ls.now ll.now rs.now rl.now)) × (out.new ≡ left_into m table.now (conf self ls.now ll.now rs.now rl.now) out.old) }
    {
        let listed = self.list_check(m, table, ls, ll, rs, rl, self.tape.left, out.len());
        let count = rle_records::inner::written(listed);
        rle_records::inner::fill(&stack::side_to_read(ls, ll, count), out);
        listed
    }

    // The same for the right side.
    pub fn right<'a, 'b>(
        self,
        m: Machine,
        table: &'a [u8],
        ls: &'a [u8],
        ll: &'a [u64],
        rs: &'a [u8],
        rl: &'a [u64],
        out: &'b mut [Run],
    ) -> Result<u64, Refusal>
        ensures { (result ≡ right_answer m table.now (length out.old) (conf self ls.now ll.now rs.now rl.now)) × (out.new ≡ right_into m table.now (conf self ls.now ll.now rs.now rl.now) out.old) }
    {
        let listed = self.list_check(m, table, ls, ll, rs, rl, self.tape.right, out.len());
        let count = rle_records::inner::written(listed);
        rle_records::inner::fill(&stack::side_to_read(rs, rl, count), out);
        listed
    }
}
