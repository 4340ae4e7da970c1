// The table check, the lookup of an entry, and packing.
ghost use Rattle.std.specs.Prelude.{◌≡◌, length};
ghost use Rattle.symbol.specs.Kinds.{symbol_of, state_of};
ghost use Rattle.machine.specs.Model.Check.{table_check, lookup_of};
ghost use Rattle.machine.specs.Model.Packing.{pack_check, pack_into};
ghost use Rattle.capi_engines.specs.Model.Engines.{machine_of};
ghost use Rattle.capi_numbers.specs.Model.Answers.{result_code, result_out, unit_out};
ghost use Rattle.capi_numbers.specs.Model.Parts.{entry_out};

use capi_numbers::answers;
use symbol::{State, Symbol};

#[unsafe(no_mangle)]
pub extern "C" fn tm_check(
    tapes: u64,
    symbols: u64,
    states: u64,
    start: u64,
    table: &[u8],
    out: &mut [u64; 8],
) -> u8
    ensures { (result ≡ result_code (table_check (machine_of tapes symbols states start) table.now)) × (out.new ≡ result_out unit_out (table_check (machine_of tapes symbols states start) table.now) out.old) }
{
    let m = capi_engines::machine_of(tapes, symbols, states, start);
    let checked = m.check(table);
    answers::put_result(out, checked)
}

#[unsafe(no_mangle)]
pub extern "C" fn tm_pack(
    tapes: u64,
    symbols: u64,
    states: u64,
    start: u64,
    table: &[u8],
    words: &mut [u64],
    out: &mut [u64; 8],
) -> u8
    ensures { (result ≡ result_code (pack_check (machine_of tapes symbols states start) table.now (length words.old))) × (out.new ≡ result_out unit_out (pack_check (machine_of tapes symbols states start) table.now (length words.old)) out.old) × (words.new ≡ pack_into (machine_of tapes symbols states start) table.now words.old) }
{
    let m = capi_engines::machine_of(tapes, symbols, states, start);
    let checked = m.pack(table, words);
    answers::put_result(out, checked)
}

// The entry for a state and the symbols read: 0 in out[0] where it is undefined, else 1, and then the next state, the
// writes and the moves.
#[unsafe(no_mangle)]
pub extern "C" fn tm_lookup(
    tapes: u64,
    symbols: u64,
    states: u64,
    start: u64,
    table: &[u8],
    state: u16,
    a0: u8,
    a1: u8,
    a2: u8,
    out: &mut [u64; 8],
) -> u8
    ensures { (result ≡ result_code (lookup_of (machine_of tapes symbols states start) table.now (state_of state) (symbol_of a0) (symbol_of a1) (symbol_of a2))) × (out.new ≡ result_out entry_out (lookup_of (machine_of tapes symbols states start) table.now (state_of state) (symbol_of a0) (symbol_of a1) (symbol_of a2)) out.old) }
{
    let m = capi_engines::machine_of(tapes, symbols, states, start);
    let looked = m.lookup(table, State(state), Symbol(a0), Symbol(a1), Symbol(a2));
    answers::put_result(out, looked)
}
