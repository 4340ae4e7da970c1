// The bytes of a table's entries, entry numbers and packed words. This module uses no type of a machine.
ghost use Rattle.std.specs.Prelude.{◌≡◌, ◌+◌, ◌*◌, ◌≤◌, ◌<◌, ◌^◌, length};
ghost use Rattle.std.proofs.Math.Seq.{paste};
ghost use Rattle.notation.specs.Scan.{all_in, first_fail};
ghost use Rattle.symbol.specs.Kinds.{symbol_in};
ghost use Rattle.table_bytes.specs.Model.Entries.{entry_number, defined_bytes, within, zero_at, head_ok, tape_ok, writes_ok, defined_for, entry_for};
ghost use Rattle.table_bytes.specs.Model.Words.{word_for};

// The stride k^t, the number of entries for each state.
pub fn stride(tapes: u64, symbols: u64) -> u64
    requires { (1 ≤ tapes) × (tapes ≤ 3) × (symbols ≤ 256) }
    ensures { (result ≡ symbols ^ tapes) × (result ≤ 16777216) }
{
    match tapes {
        1 => symbols,
        2 => symbols * symbols,
        _ => symbols * symbols * symbols,
    }
}

// The number of the entry for state `q` and the symbols read.
pub fn entry_number(k: u64, stride: u64, q: u16, a0: u8, a1: u8, a2: u8) -> u64
    requires { (k ≤ 256) × (stride ≤ 16777216) }
    ensures { (result ≡ entry_number k stride q a0 a1 a2) × (result < 1099528404992) }
{
    u64::from(q) * stride + u64::from(a0) + k * u64::from(a1) + k * k * u64::from(a2)
}

pub fn within(low: u64, high: u64, x: u64) -> bool
    ensures { result ≡ within low high x }
{
    (low..=high).contains(&x)
}

// Writes the eight bytes of a defined entry: its next state, the writes, and the moves of all tapes in one byte.
pub fn put_entry(table: &mut [u8], at: usize, next: u16, w0: u8, w1: u8, w2: u8, moves: u8)
    requires { at + 8 ≤ length table.old }
    ensures { table.new ≡ paste table.old at (defined_bytes next w0 w1 w2 moves) 8 }
{
    let [low, high] = next.to_le_bytes();
    table[at..at + 8].copy_from_slice(&[1, low, high, w0, w1, w2, moves, 0]);
}

// The number of the lowest bad entry among the first `count`, for n states, t tapes and k symbols.
pub fn first_bad(n: u64, t: u64, k: u64, table: &[u8], count: u64) -> Option<usize>
    requires { length table.now ≡ 8 * count }
    ensures { result ≡ first_fail (entry_for n t k table.now) count 0 }
{
    for i in 0..count as usize {
        if !entry_ok(n, t, k, table, i) {
            return Some(i);
        }
    }
    None
}

fn entry_ok(n: u64, t: u64, k: u64, table: &[u8], i: usize) -> bool
    requires { 8 * i + 8 ≤ length table.now }
    ensures { result ≡ entry_for n t k table.now i }
{
    if table[8 * i] == 0 {
        zeros(table, i)
    } else {
        defined_ok(n, t, k, table, i)
    }
}

// Whether the eight bytes of an entry are all zero.
fn zeros(table: &[u8], i: usize) -> bool
    requires { 8 * i + 8 ≤ length table.now }
    ensures { result ≡ all_in (zero_at table.now i) 8 0 }
{
    table[8 * i..8 * i + 8].iter().all(|&b| b == 0)
}

fn defined_ok(n: u64, t: u64, k: u64, table: &[u8], i: usize) -> bool
    requires { 8 * i + 8 ≤ length table.now }
    ensures { result ≡ defined_for n t k table.now i }
{
    let at = 8 * i;
    let moves = table[at + 6];
    head_ok(
        n,
        table[at],
        table[at + 1],
        table[at + 2],
        moves,
        table[at + 7],
    ) && writes_ok(t, k, table[at + 3], table[at + 4], table[at + 5], moves)
}

fn head_ok(n: u64, b0: u8, low: u8, high: u8, moves: u8, b7: u8) -> bool
    ensures { result ≡ head_ok n b0 (low + 256 * high) moves b7 }
{
    let next = u64::from(u16::from_le_bytes([low, high]));
    b0 == 1 && next < n && moves < 27 && b7 == 0
}

fn writes_ok(t: u64, k: u64, w0: u8, w1: u8, w2: u8, moves: u8) -> bool
    ensures { result ≡ writes_ok t k w0 w1 w2 moves }
{
    u64::from(w0) < k
        && tape_ok(1 < t, k, w1, moves / 3 % 3)
        && tape_ok(2 < t, k, w2, moves / 9 % 3)
}

// The move is a number here and in `word_of`: this module has no type of a machine.
fn tape_ok(has: bool, k: u64, write: u8, dir: u8) -> bool
    ensures { result ≡ tape_ok has k write dir }
{
    if has {
        u64::from(write) < k
    } else {
        write == 0 && dir == 2
    }
}

// The place of the first symbol of a word that is not below `k`.
pub fn first_over(k: u64, word: &[u8]) -> Option<usize>
    ensures { result ≡ first_fail (symbol_in k word.now) (length word.now) 0 }
{
    word.iter().position(|&x| k <= u64::from(x))
}

// The packed word of a move, a symbol written and a next state, or `undefined` where its row does not fit in 32 bits.
pub fn word_of(dir: u8, write: u8, next: u16, stride: u64, undefined: u64) -> u64
    requires { dir ≤ 2 }
    ensures { result ≡ word_for undefined dir write next stride }
{
    let next = u64::from(next);
    let low = u64::from(dir) + 256 * u64::from(write) + 65536 * next;
    // A stride past 2^32 gives a row that does not fit, as 2^32 does. `checked_mul` made the test of packed words a quarter
    // slower.
    let row = next * stride.min(4294967296);
    if 4294967296 <= row {
        return undefined;
    }
    low + 4294967296 * row
}
