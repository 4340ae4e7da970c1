// The runs of a side of the run-length engine's tape, as records. These two functions take the slice of records; they
// make no decision.
ghost use Rattle.std.specs.Prelude.{◌≡◌, length};
ghost use Rattle.rle.specs.Model.Engine.{conf};
ghost use Rattle.rle.specs.Model.Records.{left_answer, left_into, right_answer, right_into};
ghost use Rattle.capi_engines.specs.Model.Engines.{machine_of, chain_of};
ghost use Rattle.capi_numbers.specs.Model.Answers.{result_code, result_out, number_out};

use capi_numbers::answers;
use rle_records::Run;

// The runs of the left side, the topmost last, into the first places of `runs`; how many they are, in out[0].
#[unsafe(no_mangle)]
pub extern "C" fn tm_chain_left<'a, 'b, 'c>(
    tapes: u64,
    symbols: u64,
    states: u64,
    start: u64,
    table: &'a [u8],
    ls: &'a [u8],
    ll: &'a [u64],
    rs: &'a [u8],
    rl: &'a [u64],
    state: u16,
    cur: u8,
    engine: &'a [u64; 7],
    runs: &'b mut [Run],
    out: &'c mut [u64; 8],
) -> u8
    ensures { (result ≡ result_code (left_answer (machine_of tapes symbols states start) table.now (length runs.old) (conf (chain_of state cur engine.now) ls.now ll.now rs.now rl.now))) × (out.new ≡ result_out number_out (left_answer (machine_of tapes symbols states start) table.now (length runs.old) (conf (chain_of state cur engine.now) ls.now ll.now rs.now rl.now)) out.old) × (runs.new ≡ left_into (machine_of tapes symbols states start) table.now (conf (chain_of state cur engine.now) ls.now ll.now rs.now rl.now) runs.old) }
{
    let m = capi_engines::machine_of(tapes, symbols, states, start);
    let sim = capi_engines::chain_of(state, cur, engine);
    let listed = sim.left(m, table, ls, ll, rs, rl, runs);
    answers::put_result(out, listed)
}

// The same for the right side.
#[unsafe(no_mangle)]
pub extern "C" fn tm_chain_right<'a, 'b, 'c>(
    tapes: u64,
    symbols: u64,
    states: u64,
    start: u64,
    table: &'a [u8],
    ls: &'a [u8],
    ll: &'a [u64],
    rs: &'a [u8],
    rl: &'a [u64],
    state: u16,
    cur: u8,
    engine: &'a [u64; 7],
    runs: &'b mut [Run],
    out: &'c mut [u64; 8],
) -> u8
    ensures { (result ≡ result_code (right_answer (machine_of tapes symbols states start) table.now (length runs.old) (conf (chain_of state cur engine.now) ls.now ll.now rs.now rl.now))) × (out.new ≡ result_out number_out (right_answer (machine_of tapes symbols states start) table.now (length runs.old) (conf (chain_of state cur engine.now) ls.now ll.now rs.now rl.now)) out.old) × (runs.new ≡ right_into (machine_of tapes symbols states start) table.now (conf (chain_of state cur engine.now) ls.now ll.now rs.now rl.now) runs.old) }
{
    let m = capi_engines::machine_of(tapes, symbols, states, start);
    let sim = capi_engines::chain_of(state, cur, engine);
    let listed = sim.right(m, table, ls, ll, rs, rl, runs);
    answers::put_result(out, listed)
}
