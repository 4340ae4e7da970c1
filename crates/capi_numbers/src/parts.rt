// Actions and packed words as numbers across the C boundary.
ghost use Rattle.std.specs.Prelude.{◌≡◌, ◌≤◌, set};
ghost use Rattle.capi_numbers.specs.Model.Parts.{action_from, entry_of, parts_out};

use super::answers::put_value;
use machine::Action;
use machine::packed::Packed;
use symbol::{State, Symbol};

// The numbers of an action, from place i on.
pub(crate) fn put_action_at(xs: &mut [u64; 8], i: usize, a: Action)
    requires { i ≤ 1 }
    ensures { xs.new ≡ action_from i a xs.old }
{
    let d0 = a.dir0;
    let d1 = a.dir1;
    let d2 = a.dir2;
    xs[i] = a.next.0 as u64;
    xs[i + 1] = a.write0.0 as u64;
    xs[i + 2] = a.write1.0 as u64;
    xs[i + 3] = a.write2.0 as u64;
    xs[i + 4] = d0.number() as u64;
    xs[i + 5] = d1.number() as u64;
    xs[i + 6] = d2.number() as u64;
}

// Writes the numbers of an action; such a call refuses nothing.
pub fn put_action(xs: &mut [u64; 8], action: Action) -> u8
    ensures { (result ≡ 0) × (xs.new ≡ action_from 0 action xs.old) }
{
    put_value(xs, action)
}

// The entry of a one-tape table: undefined where `defined` is 0.
pub fn entry_of(defined: u8, write: u8, dir: u8, next: u16) -> Option<Action>
    ensures { result ≡ entry_of defined write dir next }
{
    if defined == 0 {
        return None;
    }
    let way = machine::inner::dir_of(dir);
    Some(Action::single(Symbol(write), way, State(next)))
}

// The parts of a packed word.
pub fn put_parts(xs: &mut [u64; 8], word: Packed) -> u8
    ensures { (result ≡ 0) × (xs.new ≡ parts_out word.0 xs.old) }
{
    let dir = word.dir();
    let write = word.write();
    let next = word.next();
    xs[0] = u64::from(word.is_defined());
    xs[1] = dir.number() as u64;
    xs[2] = write.0 as u64;
    xs[3] = next.0 as u64;
    xs[4] = word.row() as u64;
    0
}

pub fn put_word(xs: &mut [u64; 8], word: Packed) -> u8
    ensures { (result ≡ 0) × (xs.new ≡ set xs.old 0 word.0) }
{
    xs[0] = word.0;
    0
}
