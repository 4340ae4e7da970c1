// The test that packed words are those of the table.
ghost use Rattle.std.specs.Prelude.{◌≡◌, ◌↔◌, ℕ, ◌≤◌, ◌<◌, IsTrue, length, slice_index};
ghost use Rattle.machine.specs.Layout.{entry_at};
ghost use Rattle.machine.specs.Model.Packing.{pack_word};
ghost use Rattle.run_checks.specs.Model.Sizes.{words_right};

use machine::Machine;
use machine::packed::Packed;

// Whether each word is that of its entry.
fn same_words(table: &[u8], stride: u64, words: &[u64]) -> bool
    ensures { IsTrue result ↔ ((i : ℕ) → i < length words.now → slice_index words.now i ≡ pack_word (entry_at table.now i) stride) }
{
    words.iter().enumerate().all(|(i, &word)| {
        let entry = machine::inner::entry_at(table, i);
        word == Packed::new(entry, stride).0
    })
}

// Whether the machine has one tape and the words are its packed table, no fewer and no more.
pub fn words_right(m: Machine, table: &[u8], words: &[u64]) -> bool
    requires { (m.symbols ≤ 256) × (m.states ≤ 65536) }
    ensures { result ≡ words_right m table.now words.now }
{
    if m.tapes != 1 {
        return false;
    }
    let count = m.states * m.symbols;
    if words.len() as u64 != count {
        return false;
    }
    same_words(table, m.symbols, words)
}
