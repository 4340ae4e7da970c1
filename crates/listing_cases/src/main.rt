// Runs the listing on each pair of data/: NNN.in is an input, and NNN.out is the output that it must print. Writes a
// line for each pair that differs, and at the end the number of pairs and the number that differ. A file that cannot be
// read counts as one that differs. Where the last line cannot be written, it writes one line to standard error.
#![tactic(auto)]

ghost use Rattle.std.specs.Prelude.{◌<◌};
ghost use Rattle.program_input.specs.Counts.{IsPrefixLen};

use std::io::Read;
use std::rt::Files;
use std::{fs, io, str};

// The result for one number.
#[derive(Clone, Copy)]
enum Pair {
    Same,
    Differs,
    // There is no input of this number.
    Missing,
}

fn digit(n: usize) -> u8
    requires { n < 10 }
    ensures { result < 128 }
{
    b'0' + n as u8
}

fn open_input<R: Files>(rt: &R, i: usize) -> io::Result<R::File>
    requires { i < 1000 }
{
    let hundreds = digit(i / 100);
    let tens = digit(i / 10 % 10);
    let ones = digit(i % 10);
    let name = [hundreds, tens, ones, b'.', b'i', b'n'];
    fs::open(rt, str::from_utf8(&name).unwrap())
}

fn open_output<R: Files>(rt: &R, i: usize) -> io::Result<R::File>
    requires { i < 1000 }
{
    let hundreds = digit(i / 100);
    let tens = digit(i / 10 % 10);
    let ones = digit(i % 10);
    let name = [hundreds, tens, ones, b'.', b'o', b'u', b't'];
    fs::open(rt, str::from_utf8(&name).unwrap())
}

// Runs the listing. Returns how many bytes it wrote at the start of output, 0 where it refuses the output's size.
fn print(input: &[u8], output: &mut [u8]) -> usize
    ensures { IsPrefixLen result output.new }
{
    match listing::list(input, output) {
        Ok(n) => n,
        Err(_) => 0,
    }
}

// Whether both files can be read, and the listing prints for the first file what the second contains.
fn agrees<R: Read>(input: &mut R, expected: &mut R) -> bool {
    let mut given = [0u8; 65536];
    let Ok(n) = program_input::read_input(input, &mut given) else {
        return false;
    };
    let mut wanted = [0u8; 65536];
    let Ok(m) = program_input::read_input(expected, &mut wanted) else {
        return false;
    };
    let mut printed = [0u8; 65536];
    let k = print(&given[..n], &mut printed);
    listing_text::same(&printed[..k], &wanted[..m])
}

fn run(rt: &impl Files, i: usize) -> Pair
    requires { i < 1000 }
{
    let Ok(mut input) = open_input(rt, i) else {
        return Pair::Missing;
    };
    let Ok(mut expected) = open_output(rt, i) else {
        return Pair::Differs;
    };
    if agrees(&mut input, &mut expected) {
        return Pair::Same;
    }
    Pair::Differs
}

// Writes a number and a text.
fn say(rt: &impl Print, n: usize, what: &str) -> io::Result<()> {
    print!(rt; "{n}{what}")
}

// Writes the line of a pair that differs. Where this fails, nothing is said: the last line tells of a closed output.
fn report(rt: &impl Print, i: usize) {
    let _ = say(rt, i, " differs\n");
}

fn both(rt: &impl Print, pairs: usize, differ: usize) -> io::Result<()> {
    say(rt, pairs, " cases, ")?;
    say(rt, differ, " differ\n")
}

fn summary(rt: &(impl Print + Eprint), pairs: usize, differ: usize) {
    if both(rt, pairs, differ).is_err() {
        let _ = eprintln!(rt; "listing_cases: standard output cannot be written");
    }
}

fn main(rt: HostRuntime) {
    let mut pairs: usize = 0;
    let mut differ: usize = 0;
    for i in 0..1000 {
        match run(&rt, i) {
            Pair::Same => {}
            Pair::Differs => {
                report(&rt, i);
                differ += 1;
            }
            Pair::Missing => break,
        }
        pairs += 1;
    }
    summary(&rt, pairs, differ);
}
