// The listing: makes the calls of an input on the plain engine's timeline, and prints their rows.
#![tactic(auto)]

ghost use Rattle.std.specs.Prelude.{◌≡◌, length};
ghost use Rattle.listing.specs.Output.{list_of, PrintedIn};

use outcome::Refusal;

mod asked;
mod printed;

// The most bytes of an answer: a names line of 39 bytes, and 64 rows of 136.
const OUTPUT: usize = 8743;

// Prints the answer to the input's listing. The output must have space for the longest answer.
pub fn list(input: &[u8], output: &mut [u8]) -> Result<usize, Refusal>
    ensures { ((result, output.new) ≡ list_of input.now output.old) × PrintedIn result (length output.new) }
{
    if output.len() < OUTPUT {
        return Err(Refusal::OutputSize);
    }
    Ok(printed::print(input, output))
}
