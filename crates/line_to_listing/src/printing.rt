// The listing of a table, and the line of a refusal.
ghost use Rattle.std.specs.Prelude.{◌≡◌, [], ◌∷◌, ◌+◌, ◌*◌, ◌≤◌, ◌<◌, length};
ghost use Rattle.table_text_writer.specs.Writing.{move_text};
ghost use Rattle.listing_text.specs.Model.{Wrote};
ghost use Rattle.line_to_listing.specs.Output.{number_then, machine_line, entry_line, entry_text, entry_lines, listing_of, place_text, refused_text};

use listing_text::inner as writer;
use machine::inner::entry_at;
use machine::{Action, Machine};
use outcome::Refusal;
use symbol::Dir;

// Prints a number and a byte.
fn number(out: &mut [u8], at: usize, n: u64, after: u8) -> usize
    requires { at + 21 ≤ length out.old }
    ensures { Wrote out.old at (number_then n after) out.new result × (result ≤ at + 21) }
{
    let next = writer::print_u64(out, at, n);
    writer::put(out, next, &[after])
}

// Prints the machine's four numbers as a line.
fn machine_line(out: &mut [u8], at: usize, m: Machine) -> usize
    requires { at + 84 ≤ length out.old }
    ensures { Wrote out.old at (machine_line m) out.new result × (result ≤ at + 84) }
{
    let r1 = number(out, at, m.tapes, b' ');
    let r2 = number(out, r1, m.symbols, b' ');
    let r3 = number(out, r2, m.states, b' ');
    number(out, r3, m.start, b'\n')
}

// The letter of a move.
fn move_text(dir: Dir) -> u8
    ensures { result ≡ move_text dir }
{
    match dir {
        Dir::L => b'L',
        Dir::R => b'R',
        Dir::N => b'N',
    }
}

// Prints a move and a space.
fn print_move(out: &mut [u8], at: usize, dir: Dir) -> usize
    requires { at + 2 ≤ length out.old }
    ensures { Wrote out.old at (move_text dir ∷ 32 ∷ []) out.new result × (result ≤ at + 2) }
{
    writer::put(out, at, &[move_text(dir), b' '])
}

// Prints the line of a defined entry: state, symbol read, symbol written, move, next state.
fn entry_line(out: &mut [u8], at: usize, symbols: u64, i: u64, a: Action) -> usize
    requires { (at + 86 ≤ length out.old) × (0 < symbols) }
    ensures { Wrote out.old at (entry_line symbols i a) out.new result × (result ≤ at + 86) }
{
    let dir = a.dir0;
    let r1 = number(out, at, i / symbols, b' ');
    let r2 = number(out, r1, i % symbols, b' ');
    let r3 = number(out, r2, a.write0.0 as u64, b' ');
    let r4 = print_move(out, r3, dir);
    number(out, r4, a.next.0 as u64, b'\n')
}

// Prints the line of an entry; an undefined entry has none.
fn entry(out: &mut [u8], at: usize, symbols: u64, i: u64, e: Option<Action>) -> usize
    requires { (at + 86 ≤ length out.old) × (0 < symbols) }
    ensures { Wrote out.old at (entry_text symbols i e) out.new result × (result ≤ at + 86) }
{
    match e {
        None => at,
        Some(a) => entry_line(out, at, symbols, i, a),
    }
}

// Prints the lines of the table's first `count` entries.
fn entries(out: &mut [u8], at: usize, symbols: u64, table: &[u8], count: u64) -> usize
    requires { (at + 86 * count ≤ length out.old) × (0 < symbols) }
    ensures { Wrote out.old at (entry_lines symbols table.now count) out.new result × (result ≤ at + 86 * count) }
{
    let mut end = at;
    for i in 0..count {
        end = entry(out, end, symbols, i, entry_at(table, i as usize));
    }
    end
}

// Prints the listing of a table with at most 260 entries: the word is empty, and there are no calls.
pub(crate) fn listing(out: &mut [u8], m: Machine, table: &[u8]) -> usize
    requires { (65536 ≤ length out.old) × (m.states * m.symbols ≤ 260) × (0 < m.symbols) }
    ensures { Wrote out.old 0 (listing_of m table.now) out.new result }
{
    let r1 = writer::put(out, 0, b"tapes symbols states start\n");
    let r2 = machine_line(out, r1, m);
    let r3 = writer::put(out, r2, b"state read write move next\n");
    let r4 = entries(out, r3, m.symbols, table, m.states * m.symbols);
    writer::put(out, r4, b"word\n\ncall number\n")
}

// Prints a space and a place, where there is one.
fn place(out: &mut [u8], at: usize, p: Option<u64>) -> usize
    requires { at + 21 ≤ length out.old }
    ensures { Wrote out.old at (place_text p) out.new result × (result ≤ at + 21) }
{
    match p {
        None => at,
        Some(i) => {
            let next = writer::put(out, at, b" ");
            writer::print_u64(out, next, i)
        }
    }
}

// Prints `refused`, the refusal's number, and its place where it has one.
pub(crate) fn refused(out: &mut [u8], why: Refusal) -> usize
    requires { 50 ≤ length out.old }
    ensures { Wrote out.old 0 (refused_text why) out.new result }
{
    let r1 = writer::put(out, 0, b"refused ");
    let r2 = writer::print_u64(out, r1, why.number() as u64);
    let r3 = place(out, r2, why.place());
    writer::put(out, r3, b"\n")
}
