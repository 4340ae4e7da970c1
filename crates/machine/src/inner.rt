// Functions on a table's entries, which other crates call too.
ghost use Rattle.std.specs.Prelude.{◌≡◌, ◌+◌, ◌*◌, ◌≤◌, length};
ghost use Rattle.notation.specs.Fill.{fill_from};
ghost use Rattle.symbol.specs.Kinds.{state_of};
ghost use Rattle.machine.specs.Layout.{dir_of, action_at, entry_at};
ghost use Rattle.machine.specs.Model.Packing.{word_at};

use super::Action;
use super::packed::Packed;
use symbol::{Dir, State, Symbol};
pub use table_bytes::inner::{entry_number, stride};

// The entry with number `i`; it is undefined past the table's end.
pub fn entry_at(table: &[u8], i: usize) -> Option<Action>
    ensures { result ≡ entry_at table.now i }
{
    if table.len() / 8 <= i {
        return None;
    }
    let at = 8 * i;
    if table[at] != 1 {
        return None;
    }
    Some(action_at(table, i))
}

#[tactic(auto, unfolding(crate::specs::Layout::action_at))]
pub fn action_at(table: &[u8], i: usize) -> Action
    requires { 8 * i + 8 ≤ length table.now }
    ensures { result ≡ action_at table.now i }
{
    let at = 8 * i;
    let next = state_of(table[at + 1], table[at + 2]);
    let moves = table[at + 6];
    let dir0 = dir_of(moves % 3);
    let dir1 = dir_of(moves / 3 % 3);
    let dir2 = dir_of(moves / 9 % 3);
    Action {
        next,
        write0: Symbol(table[at + 3]),
        write1: Symbol(table[at + 4]),
        write2: Symbol(table[at + 5]),
        dir0,
        dir1,
        dir2,
    }
}

fn state_of(low: u8, high: u8) -> State
    ensures { result ≡ state_of (low + 256 * high) }
{
    State(u16::from_le_bytes([low, high]))
}

// The move of a number: 0 is L, 1 is R, every other number is N.
pub fn dir_of(d: u8) -> Dir
    ensures { result ≡ dir_of d }
{
    match d {
        0 => Dir::L,
        1 => Dir::R,
        _ => Dir::N,
    }
}

// Writes the packed words of the table's first `count` entries into the first places of `out`.
#[tactic(auto, using(notation::proofs::Facts::Fill::fill_next), unfolding(crate::specs::Model::Packing::word_at))]
pub fn pack_entries(table: &[u8], stride: u64, count: u64, out: &mut [u64])
    requires { count ≤ length out.old }
    ensures { out.new ≡ fill_from (word_at table.now stride) count 0 out.old }
{
    for i in 0..count as usize {
        let word = Packed::new(entry_at(table, i), stride);
        out[i] = word.0;
    }
}
