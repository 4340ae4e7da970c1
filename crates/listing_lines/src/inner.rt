// Functions that write the content of a line into lent slices with space for it.
ghost use Rattle.std.specs.Prelude.{◌≡◌, ◌+◌, ◌*◌, ◌≤◌, ◌<◌, length, Some};
ghost use Rattle.std.proofs.Math.Seq.{paste};
ghost use Rattle.notation.specs.Choice.{pick};
ghost use Rattle.table_laws.specs.WellFormed.{entry_bytes};
ghost use Rattle.listing_lines.specs.Forms.{place, given, define, action_of};
ghost use Rattle.listing_lines.specs.Model.{read_word, CountOk, Small, RuleOk};

use super::Rule;
use listing_text::fields;
use machine::Machine;

// Defines an entry, unless it was given before. Returns whether it was given before.
pub fn give(m: Machine, e: Rule, table: &mut [u8]) -> bool
    requires { Small m × RuleOk m e × (length table.old ≡ 4096) }
    ensures { (result ≡ given m table.old e) × (table.new ≡ pick result table.old (define m table.old e)) }
{
    let at = place_of(m, e);
    if table[at] == 1 {
        return true;
    }
    store(table, at, e);
    false
}

// The index of the entry's first byte, in a table of 512 places of eight bytes.
fn place_of(m: Machine, e: Rule) -> usize
    requires { Small m × RuleOk m e }
    ensures { (result ≡ place m e) × (result + 8 ≤ 4096) }
{
    (8 * (e.state * m.symbols + e.read)) as usize
}

// Writes the eight bytes of an entry of one tape. The moves of the two tapes that it lacks are N: 3 × 2 + 9 × 2.
fn store(table: &mut [u8], at: usize, e: Rule)
    requires { (at + 8 ≤ length table.old) × (e.next < 65536) × (e.write < 256) }
    ensures { table.new ≡ paste table.old at (entry_bytes (Some (action_of e))) 8 }
{
    let moves = e.dir.number() + 24;
    table_bytes::inner::put_entry(table, at, e.next as u16, e.write as u8, 0, 0, moves);
}

// Reads the word line's symbols into the first places of `word`, up to the first bad one. The other places stay.
pub fn read_word(k: u64, l: &[u8], word: &mut [u8]) -> Option<usize>
    requires { (k ≤ 256) × (length l.now ≤ 80) × (81 ≤ length word.old) }
    ensures { ((result, word.new) ≡ read_word k l.now word.old) × CountOk result }
{
    if l.len() == 0 {
        return Some(0);
    }
    let n = fields::count_fields(l);
    for i in 0..n {
        let a = fields::below_at(l, i, k)?;
        word[i] = narrow(a);
    }
    Some(n)
}

fn narrow(a: u64) -> u8
    requires { a < 256 }
    ensures { result ≡ a }
{
    a as u8
}
