// A side to write: how it is made, and a push. In a file of their own, since their clauses cite definitions that name `Stack`.
ghost use Rattle.std.specs.Prelude.{◌≡◌, false, ◌+◌, ◌≤◌, ◌<◌};
ghost use Rattle.rle_stack.specs.Model.{side, places_of, push_of, lacks, cells_of};
ghost use Rattle.rle_stack.specs.Written.{held, SameSlices};

use super::{Stack, places, top};

// A side to write in two lent slices.
pub fn side_to_write<'a>(symbols: &'a mut [u8], lengths: &'a mut [u64], count: usize) -> Stack<'a>
    requires { count ≤ places_of symbols.old lengths.old }
    ensures same { (result.symbols.ghost_name ≡ symbols.entry.ghost_name) × (result.lengths.ghost_name ≡ lengths.entry.ghost_name) }
    ensures made { (held result ≡ side symbols.old lengths.old count) × (result.places ≡ places_of symbols.old lengths.old) }
{
    let places = places(symbols, lengths);
    Stack {
        symbols,
        lengths,
        places,
        count,
    }
}

// Puts n cells of `s` next to the head.
pub fn push(side: &mut Stack, s: u8, n: u64)
    requires place { lacks side.old.places s (held side.old) ≡ false }
    requires n_bound { cells_of (held side.old) + n < 18446744073709551616 }
    ensures same { SameSlices side.old side.new }
    ensures pushed { held side.new ≡ push_of s n (held side.old) }
{
    let count = side.count;
    let symbols = &mut *side.symbols;
    if s == top(symbols, count) {
        if count == 0 {
            return;
        }
        side.lengths[count - 1] += n;
        return;
    }
    symbols[count] = s;
    side.lengths[count] = n;
    side.count = count + 1;
}
