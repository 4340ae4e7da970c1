// The reader of a listing: from bytes to a machine, its table, a word and calls, or to the first bad line.
#![tactic(auto)]

ghost use Rattle.std.specs.Prelude.{◌≡◌};
ghost use Rattle.listing_reader.specs.Contents.{contents_of};

use machine::Machine;
use timeline_rule::Call;

mod lines;
mod turns;

// The kind of line that is due.
#[derive(Clone, Copy)]
pub enum Due {
    Names,
    Numbers,
    Columns,
    Entries,
    Word,
    Heading,
    Calls,
}

// The content of the lines so far, beside the lent table, word and calls. There are `word` symbols and `calls` calls.
#[derive(Clone, Copy)]
pub struct Reader {
    pub due: Due,
    pub machine: Machine,
    pub word: usize,
    pub calls: usize,
}

// The content of a whole input: what it asks for, its table, and its word and its calls in the first places of their
// arrays. The other places hold 0, or a seek to step 0. After a bad line the arrays hold what was read before it, and a bad word line's
// symbols before the first bad one.
#[derive(Clone, Copy)]
pub struct Contents {
    pub parsed: Result<Reader, u64>,
    pub table: [u8; 4096],
    pub word: [u8; 81],
    pub calls: [Call; 64],
}

// Reads a whole listing. It returns the arrays by value, so the caller lends only the input.
pub fn read(input: &[u8]) -> Contents
    ensures { result ≡ contents_of input.now }
{
    let mut table: [u8; 4096] = [0; 4096];
    let mut word: [u8; 81] = [0; 81];
    let mut calls: [Call; 64] = [Call::Seek(0); 64];
    let parsed = lines::parse(input, &mut table, &mut word, &mut calls);
    Contents {
        parsed,
        table,
        word,
        calls,
    }
}
