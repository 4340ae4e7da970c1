// A macro step: whether its entry is a proved loop, whether its push has a place, how many steps it covers, and the
// step itself. `make` matches the direction once and returns plain numbers: this makes the loop of a run fast.
ghost use Rattle.std.specs.Prelude.{◌≡◌, false, ◌+◌, ◌≤◌, ◌<◌};
ghost use Rattle.notation.specs.Limits.{raised_zero};
ghost use Rattle.rle_stack.specs.Model.{lacks, cells_of};
ghost use Rattle.rle_stack.specs.Written.{held, SameSlices};
ghost use Rattle.rle_macro.specs.Model.MacroStep.{walks_on, loops_for, proof_of, reach_of, carried, carry_of, gone, go_of, moved, make_of, head_for, MakeOk};

use outcome::NonHaltProof;
use rle_stack::inner as stack;
use rle_stack::inner::Stack;
use symbol::{Dir, State};

// The entry that a macro step makes, whether it keeps the state, and whether it is a proved loop.
#[derive(Clone, Copy)]
pub struct Step {
    pub write: u8,
    pub dir: Dir,
    pub next: State,
    pub keeps: bool,
    pub loops: bool,
}

// After a macro step: the symbol under the head, and the number of steps, 0 where the push had no place.
#[derive(Clone, Copy)]
pub struct Moved {
    pub cur: u8,
    pub repeats: u64,
}

// Whether the head moves from a blank into a side without runs.
fn walks(cur: u8, runs: usize) -> bool
    ensures { result ≡ walks_on cur runs }
{
    cur == 0 && runs == 0
}

// Whether an entry that keeps the state is a proved loop.
pub fn loops(dir: Dir, write: u8, cur: u8, left: usize, right: usize) -> bool
    ensures { result ≡ loops_for dir write cur left right }
{
    match dir {
        Dir::L => walks(cur, left),
        Dir::R => walks(cur, right),
        Dir::N => write == cur,
    }
}

// The proof that a proved loop never halts.
pub fn proof_of(q: State, dir: Dir) -> NonHaltProof
    ensures { result ≡ proof_of q dir }
{
    match dir {
        Dir::L => NonHaltProof::ChainToInfinity {
            state: q,
            dir: Dir::L,
        },
        Dir::R => NonHaltProof::ChainToInfinity {
            state: q,
            dir: Dir::R,
        },
        Dir::N => NonHaltProof::StayLoop { state: q },
    }
}

// How many steps a macro step to one side covers: all the fuel for a proved loop; the run ahead plus one, or the fuel
// if less, for an entry that keeps the state; else one.
fn reach(loops: bool, keeps: bool, side: &Stack, cur: u8, fuel: u64) -> u64
    requires { cells_of (held side.now) < raised_zero }
    ensures { result ≡ reach_of loops keeps cur fuel (held side.now) }
{
    if loops {
        return fuel;
    }
    if !keeps {
        return 1;
    }
    let run = side.ahead(cur);
    (run + 1).min(fuel)
}

// Writes n cells behind the head and takes n off the side ahead; the last of these is then under the head.
fn carry(behind: &mut Stack, ahead: &mut Stack, write: u8, n: u64) -> u8
    requires place { lacks behind.old.places write (held behind.old) ≡ false }
    requires n_bound { (cells_of (held behind.old) + n < 18446744073709551616) × (1 ≤ n) }
    ensures behind_same { SameSlices behind.old behind.new }
    ensures ahead_same { SameSlices ahead.old ahead.new }
    ensures carried { carried (held behind.new) result (held ahead.new) ≡ carry_of write n (held behind.old) (held ahead.old) }
{
    stack::push(behind, write, n);
    ahead.take(n - 1);
    let cur = ahead.top();
    ahead.take(1);
    cur
}

// Makes a macro step to one side, where its push has a place.
fn go(behind: &mut Stack, ahead: &mut Stack, cur: u8, s: Step, fuel: u64) -> Moved
    requires { (cells_of (held behind.old) + fuel < raised_zero) × (cells_of (held ahead.old) < raised_zero) × (1 ≤ fuel) }
    ensures behind_same { SameSlices behind.old behind.new }
    ensures ahead_same { SameSlices ahead.old ahead.new }
    ensures gone { gone (held behind.new) result.cur (held ahead.new) result.repeats ≡ go_of behind.old.places s cur fuel (held behind.old) (held ahead.old) }
{
    // Lent as `&mut`: of a slice that is lent from `behind` as shared, the check keeps the length alone.
    let symbols = &mut *behind.symbols;
    if stack::lacks(symbols, behind.count, behind.places, s.write) {
        return Moved { cur, repeats: 0 };
    }
    let repeats = reach(s.loops, s.keeps, ahead, cur, fuel);
    let cur = carry(behind, ahead, s.write, repeats);
    Moved { cur, repeats }
}

// Makes a macro step, where its push has a place.
pub fn make(s: Step, left: &mut Stack, cur: u8, right: &mut Stack, fuel: u64) -> Moved
    requires { MakeOk left.old.places right.old.places fuel (held left.old) (held right.old) }
    ensures left_same { SameSlices left.old left.new }
    ensures right_same { SameSlices right.old right.new }
    ensures made { moved (held left.new) result.cur (held right.new) result.repeats ≡ make_of s cur left.old.places right.old.places fuel (held left.old) (held right.old) }
{
    match s.dir {
        Dir::L => go(right, left, cur, s, fuel),
        Dir::R => go(left, right, cur, s, fuel),
        Dir::N => Moved {
            cur: s.write,
            repeats: if s.loops { fuel } else { 1 },
        },
    }
}

// The head's position after n steps.
pub fn head_for(dir: Dir, head: u64, n: u64) -> u64
    requires { (n ≤ head) × (head + n < 18446744073709551616) }
    ensures { result ≡ head_for dir head n }
{
    match dir {
        Dir::L => head - n,
        Dir::R => head + n,
        Dir::N => head,
    }
}
