// Questions about one tape of the plain engine.
ghost use Rattle.std.specs.Prelude.{◌≡◌};
ghost use Rattle.machine.specs.Layout.{dir_of};
ghost use Rattle.sim.specs.Model.Engine.{conf};
ghost use Rattle.sim.specs.Model.Questions.{question_check, get_answer, extent_answer, count_answer, window_into, find_answer};
ghost use Rattle.capi_engines.specs.Model.Engines.{engine_of};
ghost use Rattle.capi_numbers.specs.Model.Answers.{result_code, result_out, unit_out, symbol_out, number_out, span_out, spot_out};

use capi_numbers::answers;
use machine::Machine;

// The symbol at a position, in out[0].
pub fn get<'a>(
    m: Machine,
    table: &[u8],
    c0: &'a [u8],
    c1: &'a [u8],
    c2: &'a [u8],
    state: u16,
    engine: &[u64; 16],
    tape: u64,
    at: i64,
    out: &mut [u64; 8],
) -> u8
    ensures { (result ≡ result_code (get_answer m table.now tape at (conf (engine_of state engine.now) c0.now c1.now c2.now))) × (out.new ≡ result_out symbol_out (get_answer m table.now tape at (conf (engine_of state engine.now) c0.now c1.now c2.now)) out.old) }
{
    let sim = capi_engines::engine_of(state, engine);
    let answer = sim.get(m, table, c0, c1, c2, tape, at);
    answers::put_result(out, answer)
}

// Whether a cell is not blank, in out[0]; the lowest and highest such positions, raised by 2^63, in out[1] and out[2].
pub fn non_blank<'a>(
    m: Machine,
    table: &[u8],
    c0: &'a [u8],
    c1: &'a [u8],
    c2: &'a [u8],
    state: u16,
    engine: &[u64; 16],
    tape: u64,
    out: &mut [u64; 8],
) -> u8
    ensures { (result ≡ result_code (extent_answer m table.now tape (conf (engine_of state engine.now) c0.now c1.now c2.now))) × (out.new ≡ result_out span_out (extent_answer m table.now tape (conf (engine_of state engine.now) c0.now c1.now c2.now)) out.old) }
{
    let sim = capi_engines::engine_of(state, engine);
    let answer = sim.non_blank(m, table, c0, c1, c2, tape);
    answers::put_result(out, answer)
}

// The number of cells that are not blank, in out[0].
pub fn count<'a>(
    m: Machine,
    table: &[u8],
    c0: &'a [u8],
    c1: &'a [u8],
    c2: &'a [u8],
    state: u16,
    engine: &[u64; 16],
    tape: u64,
    out: &mut [u64; 8],
) -> u8
    ensures { (result ≡ result_code (count_answer m table.now tape (conf (engine_of state engine.now) c0.now c1.now c2.now))) × (out.new ≡ result_out number_out (count_answer m table.now tape (conf (engine_of state engine.now) c0.now c1.now c2.now)) out.old) }
{
    let sim = capi_engines::engine_of(state, engine);
    let answer = sim.count_non_blank(m, table, c0, c1, c2, tape);
    answers::put_result(out, answer)
}

// The symbols from a position on, into the whole of `cells`.
pub fn window<'a>(
    m: Machine,
    table: &[u8],
    c0: &'a [u8],
    c1: &'a [u8],
    c2: &'a [u8],
    state: u16,
    engine: &[u64; 16],
    tape: u64,
    from: i64,
    cells: &mut [u8],
    out: &mut [u64; 8],
) -> u8
    ensures { (result ≡ result_code (question_check m table.now tape (conf (engine_of state engine.now) c0.now c1.now c2.now))) × (out.new ≡ result_out unit_out (question_check m table.now tape (conf (engine_of state engine.now) c0.now c1.now c2.now)) out.old) × (cells.new ≡ window_into m table.now tape from (conf (engine_of state engine.now) c0.now c1.now c2.now) cells.old) }
{
    let sim = capi_engines::engine_of(state, engine);
    let answer = sim.window(m, table, c0, c1, c2, tape, from, cells);
    answers::put_result(out, answer)
}

// Whether there is a cell that is not blank from a position on in a direction (0 L, 1 R, else the position alone), in
// out[0]; the nearest such position, raised by 2^63, in out[1].
pub fn find<'a>(
    m: Machine,
    table: &[u8],
    c0: &'a [u8],
    c1: &'a [u8],
    c2: &'a [u8],
    state: u16,
    engine: &[u64; 16],
    tape: u64,
    from: i64,
    dir: u8,
    out: &mut [u64; 8],
) -> u8
    ensures { (result ≡ result_code (find_answer m table.now tape from (dir_of dir) (conf (engine_of state engine.now) c0.now c1.now c2.now))) × (out.new ≡ result_out spot_out (find_answer m table.now tape from (dir_of dir) (conf (engine_of state engine.now) c0.now c1.now c2.now)) out.old) }
{
    let sim = capi_engines::engine_of(state, engine);
    let answer = sim.find_non_blank(
        m,
        table,
        c0,
        c1,
        c2,
        tape,
        from,
        machine::inner::dir_of(dir),
    );
    answers::put_result(out, answer)
}
