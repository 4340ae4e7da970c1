// Input read whole and output written whole, for programs: a read that fails is no end of input.
#![tactic(auto)]

ghost use Rattle.std.specs.Prelude.{◌≡◌, length, take, OnOk, IfErr, IfSome};
ghost use Rattle.std.specs.Io.KnownBytes.{Appends, Consumes};
ghost use Rattle.program_input.specs.declared.Failed.TheVariants.{Reading};
ghost use Rattle.program_input.specs.Counts.{IsPrefixLen, size_of};

use std::fmt;
use std::io::{Read, Write};

// What a read that failed leaves: the number of bytes that were read before it.
#[derive(Clone, Copy, PartialEq, Eq)]
pub struct Unread {
    pub size: usize,
}

// What a program could not do.
#[derive(Clone, Copy, PartialEq, Eq)]
pub enum Failed {
    Reading,
    Writing,
}

impl fmt::Display for Failed {
    fn fmt<W: fmt::Write>(&self, f: &mut fmt::Formatter<W>) -> fmt::Result {
        match self {
            Failed::Reading => write!(f, "standard input cannot be read"),
            Failed::Writing => write!(f, "standard output cannot be written"),
        }
    }
}

impl From<Unread> for Failed {
    ghost from_gives = { λ _ why. why ≡ Reading };

    fn from(_unread: Unread) -> Failed {
        Failed::Reading
    }
}

// Reads until the input ends or buf is full. The first bytes of buf are the bytes read, also where a read failed. Where
// none failed, these are the input's first bytes: as many as buf holds, or all.
pub fn read_input<R: Read>(reader: &mut R, buf: &mut [u8]) -> Result<usize, Unread>
    ensures size { IsPrefixLen (size_of result) buf.new }
    ensures bytes { Consumes (R.remaining reader.old) (R.remaining reader.new) (take (size_of result) buf.new) }
    ensures whole { OnOk result (IfSome (R.remaining reader.old) (λ xs. take (size_of result) buf.new ≡ take (length buf.new) xs)) }
{
    let mut at: usize = 0;
    // No `for` serves: the reader chooses how many bytes a read gives, so the number of reads is not known.
    while at < buf.len() {
        let n = reader
            .read(&mut buf[at..])
            .map_err(|_| Unread { size: at })?;
        if n == 0 {
            return Ok(at);
        }
        at += n;
    }
    Ok(at)
}

// Writes the answer.
pub fn write_output<W: Write>(writer: &mut W, answer: &[u8]) -> Result<(), Failed>
    ensures written { OnOk result (Appends (W.contents writer.old) (W.contents writer.new) answer.now) }
    ensures failed { IfErr result (λ why. why ≡ Failed.Writing) }
{
    writer.write_all(answer).map_err(|_| Failed::Writing)
}
