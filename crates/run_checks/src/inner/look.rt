// The decision before a step of a run: no entry, a proved loop, no fuel, no space, or the entry to follow.
ghost use Rattle.std.specs.Prelude.{◌≡◌, ◌≤◌, length};
ghost use Rattle.machine.specs.Layout.{stride_of};
ghost use Rattle.tape.specs.Model.Moves.{held, room_for};
ghost use Rattle.run_checks.specs.Model.Look.{stays, rewrites, stays_all, loop_of, judge_of, entry_of, look_at, rooms_of, go_of, choice_at, AtOk};

use machine::{Action, Machine};
use outcome::{NonHaltProof, Outcome};
use std::ops::ControlFlow;
use symbol::{Dir, State};
use tape::Tape;
use tape::inner::view::View;

// The result of the lookup and the never test before a step: no entry, a proved loop, or the entry to follow.
#[derive(Clone, Copy)]
pub enum Look {
    Halt,
    Never(NonHaltProof),
    Go(Action),
}

fn stays(d: Dir) -> bool
    ensures { result ≡ stays d }
{
    match d {
        Dir::L => false,
        Dir::R => false,
        Dir::N => true,
    }
}

// Whether every tape stays and rewrites what it read.
fn stays_all(a: Action, r0: u8, r1: u8, r2: u8) -> bool
    ensures { result ≡ stays_all a r0 r1 r2 }
{
    let d0 = a.dir0;
    let d1 = a.dir1;
    let d2 = a.dir2;
    if !stays(d0) {
        return false;
    }
    if !stays(d1) {
        return false;
    }
    if !stays(d2) {
        return false;
    }
    rewrites(a.write0.0, a.write1.0, a.write2.0, r0, r1, r2)
}

fn rewrites(w0: u8, w1: u8, w2: u8, r0: u8, r1: u8, r2: u8) -> bool
    ensures { result ≡ rewrites w0 w1 w2 r0 r1 r2 }
{
    if w0 != r0 {
        return false;
    }
    if w1 != r1 {
        return false;
    }
    w2 == r2
}

// Whether an entry that keeps the state is a proved loop.
fn loop_of(tapes: u64, q: State, a: Action, r0: u8, r1: u8, r2: u8, v0: &View) -> Look
    ensures { result ≡ loop_of tapes q a r0 r1 r2 v0.now }
{
    if stays_all(a, r0, r1, r2) {
        return Look::Never(NonHaltProof::StayLoop { state: q });
    }
    if tapes != 1 {
        return Look::Go(a);
    }
    if r0 != 0 {
        return Look::Go(a);
    }
    let dir = a.dir0;
    if v0.only_blanks_beyond(dir) {
        return Look::Never(NonHaltProof::ChainToInfinity { state: q, dir });
    }
    Look::Go(a)
}

fn judge(proves: bool, tapes: u64, q: State, a: Action, r0: u8, r1: u8, r2: u8, v0: &View) -> Look
    ensures { result ≡ judge_of proves tapes q a r0 r1 r2 v0.now }
{
    if !proves {
        return Look::Go(a);
    }
    if a.next != q {
        return Look::Go(a);
    }
    loop_of(tapes, q, a, r0, r1, r2, v0)
}

fn entry_of(
    m: Machine,
    stride: u64,
    table: &[u8],
    q: State,
    r0: u8,
    r1: u8,
    r2: u8,
) -> Option<Action>
    requires { (m.symbols ≤ 256) × (stride ≡ stride_of m) × (stride ≤ 16777216) }
    ensures { result ≡ entry_of m table.now q r0 r1 r2 }
{
    let number = machine::inner::entry_number(m.symbols, stride, q.0, r0, r1, r2);
    machine::inner::entry_at(table, number as usize)
}

// Looks up the entry before a step; where `proves` is true, tests whether it is a proved loop.
fn see(
    m: Machine,
    stride: u64,
    proves: bool,
    table: &[u8],
    q: State,
    v0: &View,
    v1: &View,
    v2: &View,
) -> Look
    requires { (m.symbols ≤ 256) × (stride ≡ stride_of m) × (stride ≤ 16777216) }
    ensures { result ≡ look_at m table.now proves q v0.now v1.now v2.now }
{
    let r0 = v0.read();
    let r1 = v1.read();
    let r2 = v2.read();
    let found = entry_of(m, stride, table, q, r0, r1, r2);
    match found {
        None => Look::Halt,
        Some(a) => judge(proves, m.tapes, q, a, r0, r1, r2, v0),
    }
}

// Whether every tape has room for the step.
fn rooms(v0: &View, v1: &View, v2: &View, a: Action) -> bool
    ensures { result ≡ rooms_of v0.now.tape v1.now.tape v2.now.tape (length v0.now.cells) (length v1.now.cells) (length v2.now.cells) a }
{
    room(v0, a.dir0) && room(v1, a.dir1) && room(v2, a.dir2)
}

fn room(v: &View, d: Dir) -> bool
    ensures { result ≡ room_for v.now.tape (length v.now.cells) d }
{
    tape::inner::room(v.tape, v.cells.len(), d)
}

// Tests fuel, then space.
fn go(a: Action, left: u64, steps: u64, roomy: bool) -> ControlFlow<Outcome, Action>
    ensures { result ≡ go_of a left steps roomy }
{
    if left == 0 {
        return ControlFlow::Break(Outcome::OutOfFuel { steps });
    }
    if roomy {
        return ControlFlow::Continue(a);
    }
    ControlFlow::Break(Outcome::Full { steps })
}

// Tests halted, never, fuel and space, in that order, before each step of a run. The tapes and their cells are apart and
// by name, as `Simulator` has them and as its `run`, which may not change, is lent them.
pub fn decide(
    m: Machine,
    stride: u64,
    proves: bool,
    table: &[u8],
    q: State,
    steps: u64,
    t0: Tape,
    t1: Tape,
    t2: Tape,
    c0: &[u8],
    c1: &[u8],
    c2: &[u8],
    left: u64,
) -> ControlFlow<Outcome, Action>
    requires { AtOk m stride t0 t1 t2 c0.now c1.now c2.now }
    ensures { result ≡ choice_at m table.now proves left steps q (held t0 c0.now) (held t1 c1.now) (held t2 c2.now) }
{
    let v0 = View {
        tape: t0,
        cells: c0,
    };
    let v1 = View {
        tape: t1,
        cells: c1,
    };
    let v2 = View {
        tape: t2,
        cells: c2,
    };
    let seen = see(m, stride, proves, table, q, &v0, &v1, &v2);
    match seen {
        Look::Halt => ControlFlow::Break(Outcome::Halted { steps, state: q }),
        Look::Never(proof) => ControlFlow::Break(Outcome::NeverHalts { steps, proof }),
        Look::Go(a) => go(a, left, steps, rooms(&v0, &v1, &v2, a)),
    }
}
