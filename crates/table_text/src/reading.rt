// The table of a line of the form.
ghost use Rattle.std.specs.Prelude.{◌≡◌, ◌+◌, ◌*◌, ◌≤◌, ◌<◌, length, get_or, Some};
ghost use Rattle.notation.specs.Fill.{fill_from};
ghost use Rattle.notation.specs.Scan.{first_fail};
ghost use Rattle.table_laws.specs.WellFormed.{entry_bytes};
ghost use Rattle.table_text_form.specs.Line.{EntryText, OfForm};
ghost use Rattle.table_text_reader.specs.Reading.{has_letter, has_digit, has_byte, state_in, move_of, entry_of, entry_in, moves_byte, table_byte, room_for, read_on};

use machine::{Action, Machine};
use outcome::Refusal;
use symbol::{Dir, State, Symbol};

fn has_letter(rows: u64, b: u8) -> bool
    requires { rows ≤ 25 }
    ensures { result ≡ has_letter rows b }
{
    b == b'Z' || u64::from(b) < u64::from(b'A') + rows
}

fn has_digit(symbols: u64, b: u8) -> bool
    requires { symbols ≤ 10 }
    ensures { result ≡ has_digit symbols b }
{
    b'9' < b || u64::from(b) < u64::from(b'0') + symbols
}

// Whether the line has the row of the letter, or the symbol of the digit, at place `i`.
#[tactic(auto, unfolding(notation::specs::Choice::pick, table_text_reader::specs::Reading::has_byte))]
fn has_byte(line: &[u8], rows: u64, symbols: u64, i: usize) -> bool
    requires { (rows ≤ 25) × (symbols ≤ 10) × (i < length line.now) }
    ensures { result ≡ has_byte rows symbols line.now i }
{
    let b = line[i];
    if i as u64 % (3 * symbols + 1) % 3 == 2 {
        has_letter(rows, b)
    } else {
        has_digit(symbols, b)
    }
}

// The first place whose letter or digit the line's rows lack.
pub(crate) fn first_lacking(line: &[u8], rows: u64, symbols: u64) -> Option<usize>
    requires { (rows ≤ 25) × (symbols ≤ 10) }
    ensures { result ≡ first_fail (has_byte rows symbols line.now) (length line.now) 0 }
{
    (0..line.len()).find(|&i| !has_byte(line, rows, symbols, i))
}

fn state_in(z: u64, c: u8) -> u16
    requires { (z ≤ 25) × (65 ≤ c) }
    ensures { result ≡ state_in z c }
{
    if c == b'Z' {
        z as u16
    } else {
        u16::from(c - b'A')
    }
}

fn move_of(y: u8) -> Dir
    ensures { result ≡ move_of y }
{
    if y == b'L' { Dir::L } else { Dir::R }
}

// The entry of three bytes, where Z's row has number `z`.
fn entry_of(z: u64, x: u8, y: u8, c: u8) -> Option<Action>
    requires { (z ≤ 25) × EntryText x y c }
    ensures { result ≡ entry_of z x y c }
{
    if x == b'-' {
        return None;
    }
    let next = State(state_in(z, c));
    Some(Action::single(Symbol(x - b'0'), move_of(y), next))
}

#[tactic(auto, unfolding(notation::specs::Choice::pick, table_text_reader::specs::Reading::entry_in))]
fn entry_in(line: &[u8], rows: u64, symbols: u64, i: u64) -> Option<Action>
    requires { OfForm rows symbols line.now }
    ensures { result ≡ entry_in rows symbols line.now i }
{
    if rows * symbols <= i {
        return None;
    }
    let at = (3 * i + i / symbols) as usize;
    entry_of(rows, line[at], line[at + 1], line[at + 2])
}

// The moves of all tapes in one byte.
fn moves_byte(a: Action) -> u8
    ensures { result ≡ moves_byte a }
{
    a.dir0.number() + 3 * a.dir1.number() + 9 * a.dir2.number()
}

// Byte `j` of the eight of a defined entry.
fn action_byte(a: Action, j: u64) -> u8
    requires { j < 8 }
    ensures { result ≡ get_or (entry_bytes (Some a)) j 0 }
{
    let [low, high] = a.next.0.to_le_bytes();
    let bytes = [
        1,
        low,
        high,
        a.write0.0,
        a.write1.0,
        a.write2.0,
        moves_byte(a),
        0,
    ];
    bytes[j as usize]
}

fn table_byte(line: &[u8], rows: u64, symbols: u64, j: u64) -> u8
    requires { OfForm rows symbols line.now }
    ensures { result ≡ table_byte rows symbols line.now j }
{
    let entry = entry_in(line, rows, symbols, j / 8);
    match entry {
        None => 0,
        Some(action) => action_byte(action, j % 8),
    }
}

// Writes the line's table into the first places of `table`: refusal 18 where it is too short.
pub(crate) fn read_formed(
    line: &[u8],
    rows: u64,
    symbols: u64,
    table: &mut [u8],
) -> Result<Machine, Refusal>
    requires { OfForm rows symbols line.now }
    ensures { (result ≡ room_for rows symbols (length table.old)) × (table.new ≡ read_on (room_for rows symbols (length table.old)) line.now table.old) }
{
    let size = 8 * ((rows + 1) * symbols);
    if (table.len() as u64) < size {
        return Err(Refusal::OutputSize);
    }
    fill_table(line, rows, symbols, size, table);
    Ok(Machine {
        tapes: 1,
        symbols,
        states: rows + 1,
        start: 0,
    })
}

#[tactic(auto, using(notation::proofs::Facts::Fill::fill_next))]
fn fill_table(line: &[u8], rows: u64, symbols: u64, size: u64, table: &mut [u8])
    requires { OfForm rows symbols line.now × (size ≤ length table.old) }
    ensures { table.new ≡ fill_from (table_byte rows symbols line.now) size 0 table.old }
{
    for j in 0..size {
        table[j as usize] = table_byte(line, rows, symbols, j);
    }
}
