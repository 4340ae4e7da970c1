// Replays a fixed list of the Rust's answers: each file of the data holds the cases of one kind, a line for each.
// Prints for each kind how many cases there are, and for how many the port's answers differ.
#![tactic(auto)]

mod chain;
mod compare;
mod lent;
mod plain;
mod questions;
mod read;
mod rows;
mod tables;
mod timeline;

use machine::Machine;
use read::lines::Line;
use read::{lines, lists, table};
use rows::PLACES;
use std::rt::Files;
use std::{fs, io};

// The kind of the cases in a file.
#[derive(Clone, Copy)]
enum Kind {
    On(Engine),
    Pack,
    Encode,
}

// The engine, and what it does in a case.
#[derive(Clone, Copy)]
enum Engine {
    Plain(plain::Act),
    Chain(chain::Act),
}

// Where the next line begins, how many cases there were, and how many differ.
#[derive(Clone, Copy)]
struct Tally {
    at: usize,
    cases: u64,
    differ: u64,
}

impl Tally {
    const NONE: Tally = Tally {
        at: 0,
        cases: 0,
        differ: 0,
    };
}

// Replays a row. Returns the place past its last number where the port gives the row's answers.
fn replayed(kind: Kind, row: &[u64]) -> usize {
    match kind {
        Kind::On(engine) => on_engine(engine, row),
        Kind::Pack => tables::packing::replay(row),
        Kind::Encode => tables::encoder::replay(row),
    }
}

// Reads the machine and the word, and replays the case on the engine.
fn on_engine(engine: Engine, row: &[u64]) -> usize {
    let case = table::read(row);
    let word = lists::read(row, case.next);
    let table = case.table;
    let symbols = word.bytes;
    on_word(
        engine,
        row,
        word.next,
        case.machine,
        lists::head(&table, case.size),
        lists::head(&symbols, word.count),
    )
}

fn on_word(engine: Engine, row: &[u64], at: usize, m: Machine, table: &[u8], word: &[u8]) -> usize {
    match engine {
        Engine::Plain(act) => plain::replay(act, row, at, m, table, word),
        Engine::Chain(act) => chain::replay(act, row, at, m, table, word),
    }
}

// 1 where the port's answers differ from the line, else 0. A line without a count differs always.
fn differs(kind: Kind, row: &[u64; PLACES], line: Line) -> u64 {
    let Some(count) = line.count else {
        return 1;
    };
    let numbers = lists::head(row, count);
    if replayed(kind, numbers) == numbers.len() {
        0
    } else {
        1
    }
}

// Replays the line that begins where the tally says.
fn next_line(kind: Kind, text: &[u8], tally: Tally) -> Tally {
    let mut row: [u64; PLACES] = [0; PLACES];
    let line = lines::read_line(text, tally.at, &mut row);
    let differ = differs(kind, &row, line);
    Tally {
        at: line.next,
        cases: tally.cases.wrapping_add(1),
        differ: tally.differ.wrapping_add(differ),
    }
}

// Replays all lines of a text. A text has at most as many lines as bytes.
fn all_lines(kind: Kind, text: &[u8]) -> Tally {
    let mut tally = Tally::NONE;
    for _ in 0..text.len() {
        if text.len() <= tally.at {
            break;
        }
        tally = next_line(kind, text, tally);
    }
    tally
}

// Replays the cases of a file; none where it cannot be read.
fn of_file(rt: &impl Files, kind: Kind, name: &str) -> Tally {
    let mut text = [0u8; 65536];
    let Ok(mut file) = fs::open(rt, name) else {
        return Tally::NONE;
    };
    // Where a read fails, the bytes before it are replayed.
    let size = match program_input::read_input(&mut file, &mut text) {
        Ok(size) => size,
        Err(unread) => unread.size,
    };
    all_lines(kind, &text[..size])
}

fn report(rt: &impl Print, name: &str, tally: Tally) -> io::Result<()> {
    let cases = tally.cases;
    let differ = tally.differ;
    println!(rt; "{name} {cases} cases, {differ} differ")
}

// Replays a file and prints its result. Returns the sum of this file and those before.
fn replay(rt: &(impl Files + Print), kind: Kind, name: &str, sum: Tally) -> io::Result<Tally> {
    let tally = of_file(rt, kind, name);
    report(rt, name, tally)?;
    Ok(Tally {
        at: 0,
        cases: sum.cases.wrapping_add(tally.cases),
        differ: sum.differ.wrapping_add(tally.differ),
    })
}

fn replay_plain(
    rt: &(impl Files + Print),
    act: plain::Act,
    name: &str,
    sum: Tally,
) -> io::Result<Tally> {
    replay(rt, Kind::On(Engine::Plain(act)), name, sum)
}

fn replay_chain(
    rt: &(impl Files + Print),
    act: chain::Act,
    name: &str,
    sum: Tally,
) -> io::Result<Tally> {
    replay(rt, Kind::On(Engine::Chain(act)), name, sum)
}

fn plain_runs(rt: &(impl Files + Print), sum: Tally) -> io::Result<Tally> {
    let sum = replay_plain(rt, plain::Act::Run, "run", sum)?;
    let sum = replay_plain(rt, plain::Act::Run, "stop", sum)?;
    let sum = replay_plain(rt, plain::Act::Step, "step", sum)?;
    replay_plain(rt, plain::Act::Fast, "fast", sum)
}

fn plain_others(rt: &(impl Files + Print), sum: Tally) -> io::Result<Tally> {
    let sum = replay(rt, Kind::Pack, "pack", sum)?;
    let sum = replay_plain(rt, plain::Act::Ask, "ask", sum)?;
    replay_plain(rt, plain::Act::Seek, "timeline", sum)
}

fn chain_kinds(rt: &(impl Files + Print), sum: Tally) -> io::Result<Tally> {
    let sum = replay_chain(rt, chain::Act::Run, "chain", sum)?;
    let sum = replay_chain(rt, chain::Act::Run, "chain_stop", sum)?;
    let sum = replay_chain(rt, chain::Act::Ask, "chain_ask", sum)?;
    replay_chain(rt, chain::Act::Seek, "chain_timeline", sum)
}

fn main(rt: HostRuntime) -> io::Result<()> {
    let plain = plain_others(&rt, plain_runs(&rt, Tally::NONE)?)?;
    let chain = chain_kinds(&rt, plain)?;
    let all = replay(&rt, Kind::Encode, "encode", chain)?;
    report(&rt, "all", all)
}
