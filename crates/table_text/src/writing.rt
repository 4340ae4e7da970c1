// The line of a table: whether it has one, and its bytes.
ghost use Rattle.std.specs.Prelude.{◌≡◌, ◌+◌, ◌*◌, ◌≤◌, ◌<◌, length};
ghost use Rattle.notation.specs.Fill.{fill_from};
ghost use Rattle.notation.specs.Scan.{all_in};
ghost use Rattle.table_text_rows.specs.Rows.{is_undefined, row_undefined, lettered_rows, is_moving, moves_or, moves_at, row_defined, has_line};
ghost use Rattle.table_text_writer.specs.Writing.{move_text, letter_text, action_text, entry_text, line_byte};
ghost use Rattle.table_text_writer.specs.Fits.{Printable, AllPrintable};

use machine::inner::entry_at;
use machine::{Action, Machine};
use symbol::Dir;

fn is_undefined(entry: Option<Action>) -> bool
    ensures { result ≡ is_undefined entry }
{
    match entry {
        None => true,
        Some(_) => false,
    }
}

// Whether row `q` is undefined throughout.
fn row_undefined(symbols: u64, table: &[u8], q: u64) -> bool
    requires { (symbols ≤ 256) × (q ≤ 65536) }
    ensures { result ≡ row_undefined symbols table.now q }
{
    let first = q * symbols;
    (first..first + symbols).all(|i| is_undefined(entry_at(table, i as usize)))
}

// The number of rows with a letter: all but a last row that is undefined throughout.
#[tactic(auto, unfolding(notation::specs::Choice::pick, table_text_rows::specs::Rows::lettered_rows))]
pub(crate) fn lettered_rows(m: Machine, table: &[u8]) -> u64
    requires { (m.symbols ≤ 256) × (1 ≤ m.states) × (m.states ≤ 65536) }
    ensures { result ≡ lettered_rows m table.now }
{
    if row_undefined(m.symbols, table, m.states - 1) {
        m.states - 1
    } else {
        m.states
    }
}

fn is_moving(dir: Dir) -> bool
    ensures { result ≡ is_moving dir }
{
    matches!(dir, Dir::L | Dir::R)
}

fn moves_or(entry: Option<Action>) -> bool
    ensures { result ≡ moves_or entry }
{
    match entry {
        None => true,
        Some(action) => is_moving(action.dir0),
    }
}

// Whether the head moves at each of the first `count` entries that is defined.
fn all_move(table: &[u8], count: u64) -> bool
    requires { count ≤ 16777216 }
    ensures { result ≡ all_in (moves_at table.now) count 0 }
{
    (0..count).all(|i| moves_or(entry_at(table, i as usize)))
}

// Whether each of the first `count` rows has an entry.
fn rows_defined(symbols: u64, table: &[u8], count: u64) -> bool
    requires { (symbols ≤ 256) × (count ≤ 65536) }
    ensures { result ≡ all_in (row_defined symbols table.now) count 0 }
{
    (0..count).all(|q| !row_undefined(symbols, table, q))
}

// Whether an accepted table has a line: the tests of refusal 21.
#[tactic(auto, unfolding(notation::specs::Choice::both, table_text_rows::specs::Rows::has_line))]
pub(crate) fn has_line(m: Machine, table: &[u8]) -> bool
    requires { (m.symbols ≤ 256) × (1 ≤ m.states) × (m.states ≤ 65536) }
    ensures { result ≡ has_line m table.now }
{
    m.tapes == 1
        && (2..=10).contains(&m.symbols)
        && (1..=25).contains(&lettered_rows(m, table))
        && m.start == 0
        && all_move(table, m.states * m.symbols)
        && rows_defined(m.symbols, table, m.states - 1)
}

fn move_text(dir: Dir) -> u8
    ensures { result ≡ move_text dir }
{
    match dir {
        Dir::L => b'L',
        Dir::R => b'R',
        Dir::N => b'N',
    }
}

fn letter_text(z: u64, q: u16) -> u8
    requires { q ≤ 25 }
    ensures { result ≡ letter_text z q }
{
    if u64::from(q) == z {
        b'Z'
    } else {
        b'A' + q as u8
    }
}

fn action_text(z: u64, a: Action, j: u64) -> u8
    requires { (a.write0.0 ≤ 9) × (a.next.0 ≤ 25) }
    ensures { result ≡ action_text z a j }
{
    match j {
        0 => b'0' + a.write0.0,
        1 => move_text(a.dir0),
        _ => letter_text(z, a.next.0),
    }
}

// Byte `j` of an entry's text, where Z's row has number `z`.
fn entry_text(z: u64, entry: Option<Action>, j: u64) -> u8
    requires { Printable entry }
    ensures { result ≡ entry_text z entry j }
{
    match entry {
        None => b'-',
        Some(action) => action_text(z, action, j),
    }
}

// Byte `p` of the line.
#[tactic(auto, unfolding(notation::specs::Choice::pick, table_text_writer::specs::Writing::line_byte))]
fn line_byte(table: &[u8], rows: u64, symbols: u64, p: u64) -> u8
    requires { AllPrintable table.now × (symbols ≤ 10) × (p ≤ 65536) }
    ensures { result ≡ line_byte rows symbols table.now p }
{
    let width = 3 * symbols + 1;
    let q = p / width;
    let c = p % width;
    if c == 3 * symbols {
        return b'_';
    }
    let entry = entry_at(table, (q * symbols + c / 3) as usize);
    entry_text(rows, entry, c % 3)
}

// Writes the first `size` bytes of the line into the first places of `line`.
#[tactic(auto, using(notation::proofs::Facts::Fill::fill_next))]
pub(crate) fn write_bytes(table: &[u8], rows: u64, symbols: u64, size: u64, line: &mut [u8])
    requires { AllPrintable table.now × (symbols ≤ 10) × (size ≤ 65536) × (size ≤ length line.old) }
    ensures { line.new ≡ fill_from (line_byte rows symbols table.now) size 0 line.old }
{
    for p in 0..size {
        line[p as usize] = line_byte(table, rows, symbols, p);
    }
}
