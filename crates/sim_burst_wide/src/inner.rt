// The burst on several tapes and its parts. They require that numbers lie inside their bounds.
ghost use Rattle.std.specs.Prelude.{◌≡◌, ◌+◌, ◌*◌, ◌≤◌, IfSome};
ghost use Rattle.notation.specs.Limits.{cells_most};
ghost use Rattle.machine.specs.Layout.{entry_number, entry_at};
ghost use Rattle.tape.specs.Fits.{TapeOk};
ghost use Rattle.tape.specs.Model.Moves.{held, read_of};
ghost use Rattle.sim_burst_wide.specs.Model.{wrote, FreeIf, DecodedOf, TapeMoves, Steps, HeadsIn, SafeAll, Carried};

use machine::inner;
use tape::Tape;
use tape::inner::view::View;

// What a burst goes by: its table, the state of the stop rule, the number of symbols, and a row's length.
#[derive(Clone, Copy)]
pub struct Rules<'a> {
    pub table: &'a [u8],
    pub stop: usize,
    pub k: u64,
    pub stride: u64,
}

// The numbers of a burst: its tapes, the state, and the fuel left. Three tapes have names here and below, since the
// fields of `sim::Simulator`, which may not change, do.
#[derive(Clone, Copy)]
pub struct WideBurstState {
    pub t0: Tape,
    pub t1: Tape,
    pub t2: Tape,
    pub state: u16,
    pub left: u64,
}

// A decoded entry, which is no proved loop. The moves are given by their numbers.
#[derive(Clone, Copy)]
pub struct Decoded {
    pub next: u16,
    pub write0: u8,
    pub write1: u8,
    pub write2: u8,
    pub dir0: u8,
    pub dir1: u8,
    pub dir2: u8,
}

fn pair(low: u8, high: u8) -> u16
    ensures { result ≡ low + 256 * high }
{
    low as u16 + 256 * (high as u16)
}

// Decodes the entry with number `i` for a machine in state `q`. It is None where the entry is past the table, undefined,
// out of range, or stays on every tape and in the state.
fn entry(table: &[u8], i: usize, q: u16) -> Option<Decoded>
    ensures { IfSome result (DecodedOf (entry_at table.now i) q) }
{
    if table.len() / 8 <= i {
        return None;
    }
    let at = 8 * i;
    if table[at] != 1 {
        return None;
    }
    let next = pair(table[at + 1], table[at + 2]);
    let moves = table[at + 6];
    if may_loop(moves, next, q) {
        return None;
    }
    Some(Decoded {
        next,
        write0: table[at + 3],
        write1: table[at + 4],
        write2: table[at + 5],
        dir0: moves % 3,
        dir1: moves / 3 % 3,
        dir2: moves / 9 % 3,
    })
}

// Whether the moves are out of range, or every tape stays and the state stays.
fn may_loop(moves: u8, next: u16, q: u16) -> bool
    ensures { FreeIf result moves next q }
{
    if 26 < moves {
        return true;
    }
    if moves != 26 {
        return false;
    }
    next == q
}

// Decodes the entry that the machine reads.
fn read(by: Rules, at: WideBurstState, c0: &[u8], c1: &[u8], c2: &[u8]) -> Option<Decoded>
    requires k_bound { (by.k ≤ 256) × (by.stride ≤ 16777216) }
    requires safe_all { SafeAll at c0.now c1.now c2.now }
    ensures { IfSome result (DecodedOf (entry_at by.entry.table.now (entry_number by.entry.k by.entry.stride at.state (read_of (held at.t0 c0.now)) (read_of (held at.t1 c1.now)) (read_of (held at.t2 c2.now)))) at.state) }
{
    let number = inner::entry_number(
        by.k,
        by.stride,
        at.state,
        View {
            tape: at.t0,
            cells: c0,
        }
        .read(),
        View {
            tape: at.t1,
            cells: c1,
        }
        .read(),
        View {
            tape: at.t2,
            cells: c2,
        }
        .read(),
    );
    entry(by.table, number as usize, at.state)
}

// The tape after the move with number `d`, if the move stays inside the cells.
fn move_tape(t: Tape, d: u8) -> Option<Tape>
    requires { (t.head ≤ t.len) × (t.len ≤ cells_most) }
    ensures { IfSome result (TapeMoves t d) }
{
    if d == 0 {
        return left(t);
    }
    if d == 1 {
        return right(t);
    }
    Some(t)
}

// The two sides stay two functions: they differ in the number, the bound and the test that they use, so that one function
// of the side would have a branch in each of its lines.
fn left(t: Tape) -> Option<Tape>
    ensures { IfSome result (TapeMoves t 0) }
{
    if t.head == 0 || t.len <= t.head {
        return None;
    }
    let head = t.head - 1;
    Some(Tape {
        head,
        lowest: t.lowest.min(head),
        ..t
    })
}

fn right(t: Tape) -> Option<Tape>
    requires { (t.head ≤ t.len) × (t.len ≤ cells_most) }
    ensures { IfSome result (TapeMoves t 1) }
{
    let head = t.head + 1;
    if t.len <= head {
        return None;
    }
    Some(Tape {
        head,
        highest: t.highest.max(head),
        ..t
    })
}

// The burst after the step's moves, if all of them stay inside the cells. With `?` in place of `let .. else`, steps on
// three tapes took about a third longer (timed on a busy machine).
fn moved(at: WideBurstState, decoded: Decoded) -> Option<WideBurstState>
    requires heads_in { HeadsIn at }
    requires le_left { 1 ≤ at.left }
    ensures { IfSome result (Steps at decoded) }
{
    let Some(t0) = move_tape(at.t0, decoded.dir0) else {
        return None;
    };
    let Some(t1) = move_tape(at.t1, decoded.dir1) else {
        return None;
    };
    let Some(t2) = move_tape(at.t2, decoded.dir2) else {
        return None;
    };
    Some(WideBurstState {
        t0,
        t1,
        t2,
        state: decoded.next,
        left: at.left - 1,
    })
}

// Writes the step's symbol. A tape that the machine lacks has no cell under the head.
fn put(cells: &mut [u8], t: Tape, w: u8)
    requires { TapeOk t cells.old }
    ensures { cells.new ≡ wrote t cells.old w }
{
    let head = t.head;
    if head < t.len {
        cells[head] = w;
    }
}

// Makes the ordinary steps over a table. It stops before a step that has no fuel, begins in the stop rule's state, has
// no known entry, may be a proved loop, or leaves the cells of a tape.
pub fn burst_several(
    by: Rules,
    c0: &mut [u8],
    c1: &mut [u8],
    c2: &mut [u8],
    start: WideBurstState,
) -> WideBurstState
    requires k_bound { (by.k ≤ 256) × (by.stride ≤ 16777216) }
    requires safe_all { SafeAll start c0.old c1.old c2.old }
    ensures { Carried by.entry.table.now by.entry.stop by.entry.k by.entry.stride start c0.old c1.old c2.old result c0.new c1.new c2.new }
{
    let mut at = start;
    loop {
        if at.left == 0 {
            return at;
        }
        if at.state as usize == by.stop {
            return at;
        }
        let Some(decoded) = read(by, at, c0, c1, c2) else {
            return at;
        };
        let Some(next) = moved(at, decoded) else {
            return at;
        };
        put(c0, at.t0, decoded.write0);
        put(c1, at.t1, decoded.write1);
        put(c2, at.t2, decoded.write2);
        at = next;
    }
}
