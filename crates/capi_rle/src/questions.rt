// Questions about the run-length engine's tape. The answers have the form of those about the plain engine's.
ghost use Rattle.std.specs.Prelude.{◌≡◌};
ghost use Rattle.rle.specs.Model.Engine.{conf};
ghost use Rattle.rle.specs.Fits.{engine_check};
ghost use Rattle.rle.specs.Model.Questions.{get_answer, extent_answer, count_answer, window_into};
ghost use Rattle.capi_engines.specs.Model.Engines.{chain_of};
ghost use Rattle.capi_numbers.specs.Model.Answers.{result_code, result_out, unit_out, symbol_out, number_out, span_out};

use capi_numbers::answers;
use machine::Machine;

// The symbol at a position, in out[0].
pub fn get<'a>(
    m: Machine,
    table: &[u8],
    ls: &'a [u8],
    ll: &'a [u64],
    rs: &'a [u8],
    rl: &'a [u64],
    state: u16,
    cur: u8,
    engine: &[u64; 7],
    at: i64,
    out: &mut [u64; 8],
) -> u8
    ensures { (result ≡ result_code (get_answer m table.now at (conf (chain_of state cur engine.now) ls.now ll.now rs.now rl.now))) × (out.new ≡ result_out symbol_out (get_answer m table.now at (conf (chain_of state cur engine.now) ls.now ll.now rs.now rl.now)) out.old) }
{
    let sim = capi_engines::chain_of(state, cur, engine);
    let answer = sim.get(m, table, ls, ll, rs, rl, at);
    answers::put_result(out, answer)
}

// Whether a cell is not blank, in out[0]; the lowest and highest such positions, raised by 2^63, in out[1] and out[2].
pub fn non_blank<'a>(
    m: Machine,
    table: &[u8],
    ls: &'a [u8],
    ll: &'a [u64],
    rs: &'a [u8],
    rl: &'a [u64],
    state: u16,
    cur: u8,
    engine: &[u64; 7],
    out: &mut [u64; 8],
) -> u8
    ensures { (result ≡ result_code (extent_answer m table.now (conf (chain_of state cur engine.now) ls.now ll.now rs.now rl.now))) × (out.new ≡ result_out span_out (extent_answer m table.now (conf (chain_of state cur engine.now) ls.now ll.now rs.now rl.now)) out.old) }
{
    let sim = capi_engines::chain_of(state, cur, engine);
    let answer = sim.non_blank(m, table, ls, ll, rs, rl);
    answers::put_result(out, answer)
}

// The number of cells that are not blank, in out[0].
pub fn count<'a>(
    m: Machine,
    table: &[u8],
    ls: &'a [u8],
    ll: &'a [u64],
    rs: &'a [u8],
    rl: &'a [u64],
    state: u16,
    cur: u8,
    engine: &[u64; 7],
    out: &mut [u64; 8],
) -> u8
    ensures { (result ≡ result_code (count_answer m table.now (conf (chain_of state cur engine.now) ls.now ll.now rs.now rl.now))) × (out.new ≡ result_out number_out (count_answer m table.now (conf (chain_of state cur engine.now) ls.now ll.now rs.now rl.now)) out.old) }
{
    let sim = capi_engines::chain_of(state, cur, engine);
    let answer = sim.count_non_blank(m, table, ls, ll, rs, rl);
    answers::put_result(out, answer)
}

// The symbols from a position on, into the whole of `cells`.
pub fn window<'a>(
    m: Machine,
    table: &[u8],
    ls: &'a [u8],
    ll: &'a [u64],
    rs: &'a [u8],
    rl: &'a [u64],
    state: u16,
    cur: u8,
    engine: &[u64; 7],
    from: i64,
    cells: &mut [u8],
    out: &mut [u64; 8],
) -> u8
    ensures { (result ≡ result_code (engine_check m table.now (conf (chain_of state cur engine.now) ls.now ll.now rs.now rl.now))) × (out.new ≡ result_out unit_out (engine_check m table.now (conf (chain_of state cur engine.now) ls.now ll.now rs.now rl.now)) out.old) × (cells.new ≡ window_into m table.now from (conf (chain_of state cur engine.now) ls.now ll.now rs.now rl.now) cells.old) }
{
    let sim = capi_engines::chain_of(state, cur, engine);
    let answer = sim.window(m, table, ls, ll, rs, rl, from, cells);
    answers::put_result(out, answer)
}
