// Packed words: the word of an entry, and the parts of any word. No call refuses.
ghost use Rattle.std.specs.Prelude.{◌≡◌, set};
ghost use Rattle.machine.specs.Model.Packing.{pack_word, word_action, word_entry};
ghost use Rattle.capi_numbers.specs.Model.Parts.{action_from, entry_out, entry_of, parts_out};

use capi_numbers::{answers, parts};
use machine::packed::Packed;

// The word of an entry, in out[0]: undefined where `defined` is 0, else with this write, move and next state.
#[unsafe(no_mangle)]
pub extern "C" fn tm_packed_new(
    defined: u8,
    write: u8,
    dir: u8,
    next: u16,
    stride: u64,
    out: &mut [u64; 8],
) -> u8
    ensures { (result ≡ 0) × (out.new ≡ set out.old 0 (pack_word (entry_of defined write dir next) stride)) }
{
    let entry = parts::entry_of(defined, write, dir, next);
    let word = Packed::new(entry, stride);
    parts::put_word(out, word)
}

// Whether a word is defined, its move, its write, its next state and its row, in out[0] to out[4].
#[unsafe(no_mangle)]
pub extern "C" fn tm_packed(word: u64, out: &mut [u64; 8]) -> u8
    ensures { (result ≡ 0) × (out.new ≡ parts_out word out.old) }
{
    parts::put_parts(out, Packed(word))
}

// The action of a word, defined or not: its next state, writes and moves, in out[0] to out[6].
#[unsafe(no_mangle)]
pub extern "C" fn tm_packed_action(word: u64, out: &mut [u64; 8]) -> u8
    ensures { (result ≡ 0) × (out.new ≡ action_from 0 (word_action word) out.old) }
{
    let packed = Packed(word);
    let action = packed.action();
    parts::put_action(out, action)
}

// The entry of a word, in the form of the lookup's.
#[unsafe(no_mangle)]
pub extern "C" fn tm_packed_entry(word: u64, out: &mut [u64; 8]) -> u8
    ensures { (result ≡ 0) × (out.new ≡ entry_out (word_entry word) out.old) }
{
    let packed = Packed(word);
    let entry = packed.entry();
    answers::put_value(out, entry)
}
