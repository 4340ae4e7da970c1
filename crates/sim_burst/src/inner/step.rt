// The tests of a burst on one tape before each step: whether the step may be a proved loop, and where it moves the
// head.
ghost use Rattle.std.specs.Prelude.{◌≡◌, ◌*◌, ◌≤◌, ◌<◌, length, IfSome};
ghost use Rattle.notation.specs.Limits.{cells_most};
ghost use Rattle.sim_burst.specs.Model.Burst.{LeftSeen, RightSeen, Ordinary, OrdinaryByEntry, Went};

// The numbers of a burst: the head, the lowest and the highest head so far, the state, and the fuel left.
#[derive(Clone, Copy)]
pub struct BurstState {
    pub head: usize,
    pub low: usize,
    pub high: usize,
    pub state: usize,
    pub left: u64,
}

// A decoded entry, which moves no other tape. `dir` is the number of the move, and `row` the number of the next state's
// first entry. They are plain numbers, since docs/DECISIONS.md 5.1 keeps the hot loops to these.
#[derive(Clone, Copy)]
pub struct Decoded {
    pub write: u8,
    pub dir: u8,
    pub next: usize,
    pub row: usize,
}

// A cell on each side of the head that was not blank when it was found.
#[derive(Clone, Copy)]
pub(crate) struct Hints {
    pub left: usize,
    pub right: usize,
}

pub(crate) fn wide(x: u8) -> usize
    ensures { (result ≡ x) × (result < 256) }
{
    x as usize
}

// The number of a state's first entry in a table of one tape.
pub(crate) fn row(state: usize, k: usize) -> usize
    requires { (state < 65536) × (k ≤ 256) }
    ensures { (result ≡ state * k) × (result ≤ 16776960) }
{
    state * k
}

// The nearest cell below `head` that is not blank, or `head` where there is none.
fn scan_left(cells: &[u8], head: usize) -> usize
    requires { head ≤ length cells.now }
    ensures { LeftSeen cells.now head result }
{
    cells[..head]
        .iter()
        .rposition(|&cell| cell != 0)
        .unwrap_or(head)
}

// The nearest cell above `head` that is not blank, or `len` where there is none.
fn scan_right(cells: &[u8], head: usize, len: usize) -> usize
    requires { (head < len) × (len ≤ length cells.now) }
    ensures { RightSeen cells.now head len result }
{
    cells[head + 1..len]
        .iter()
        .position(|&cell| cell != 0)
        .map_or(len, |i| head + 1 + i)
}

// A cell below `head` that is not blank: the hint, where its cell still is not blank, else the result of a scan.
fn left_of(cells: &[u8], head: usize, hint: usize) -> usize
    requires { head ≤ length cells.now }
    ensures { LeftSeen cells.now head result }
{
    if hint < head && cells[hint] != 0 {
        return hint;
    }
    scan_left(cells, head)
}

// A cell above `head` that is not blank, likewise.
fn right_of(cells: &[u8], head: usize, len: usize, hint: usize) -> usize
    requires { (head < len) × (len ≤ length cells.now) }
    ensures { RightSeen cells.now head len result }
{
    if head < hint && hint < len && cells[hint] != 0 {
        return hint;
    }
    scan_right(cells, head, len)
}

// The hints before anything is found.
pub(crate) fn unseen(len: usize) -> Hints {
    Hints {
        left: len,
        right: 0,
    }
}

// The hints, with what was found on the way, if the step is surely no proved loop.
pub(crate) fn ordinary(
    cells: &[u8],
    len: usize,
    proves: bool,
    at: BurstState,
    read: u8,
    entry: Decoded,
    hints: Hints,
) -> Option<Hints>
    requires { (at.head < len) × (len ≤ length cells.now) }
    ensures { IfSome result (λ _. Ordinary proves cells.now len at.head read entry.write entry.dir entry.next at.state) }
{
    if entry.next != at.state {
        return Some(hints);
    }
    if !proves {
        return Some(hints);
    }
    if entry.dir == 2 {
        if entry.write == read {
            return None;
        }
        return Some(hints);
    }
    if read != 0 {
        return Some(hints);
    }
    if entry.dir == 0 {
        let left = left_of(cells, at.head, hints.left);
        if at.head <= left {
            return None;
        }
        return Some(Hints { left, ..hints });
    }
    let right = right_of(cells, at.head, len, hints.right);
    if len <= right {
        return None;
    }
    Some(Hints { right, ..hints })
}

// Whether the step is surely no proved loop, whatever the cells hold. It tests the symbol read before it compares the
// states: the symbol is available sooner, and so a wrongly predicted branch is found sooner.
pub(crate) fn ordinary_by_entry(proves: bool, state: usize, read: u8, entry: Decoded) -> bool
    ensures { OrdinaryByEntry result proves read entry.write entry.dir entry.next state }
{
    if !proves {
        return true;
    }
    if entry.dir == 2 {
        return entry.next != state;
    }
    if read != 0 {
        return true;
    }
    entry.next != state
}

// The burst after the step, if the step stays on the cells. A move changes only the bound on its side.
pub(crate) fn went(at: BurstState, len: usize, entry: Decoded) -> Option<BurstState>
    requires { (at.head < len) × (len ≤ cells_most) × (at.low ≤ at.head) × (at.head ≤ at.high) × (1 ≤ at.left) }
    ensures { IfSome result (Went entry.dir len at entry.next) }
{
    let mut to = BurstState {
        state: entry.next,
        left: at.left - 1,
        ..at
    };
    if entry.dir == 0 {
        if at.head == 0 {
            return None;
        }
        to.head = at.head - 1;
        to.low = at.low.min(to.head);
        return Some(to);
    }
    if entry.dir == 1 {
        if len <= at.head + 1 {
            return None;
        }
        to.head = at.head + 1;
        to.high = at.high.max(to.head);
    }
    Some(to)
}
