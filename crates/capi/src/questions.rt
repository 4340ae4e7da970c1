// Questions about one tape of the plain engine.
ghost use Rattle.std.specs.Prelude.{◌≡◌};
ghost use Rattle.machine.specs.Layout.{dir_of};
ghost use Rattle.sim.specs.Model.Engine.{conf};
ghost use Rattle.sim.specs.Model.Questions.{question_check, get_answer, extent_answer, count_answer, window_into, find_answer};
ghost use Rattle.capi_engines.specs.Model.Engines.{machine_of, engine_of};
ghost use Rattle.capi_numbers.specs.Model.Answers.{result_code, result_out, unit_out, symbol_out, number_out, span_out, spot_out};

use capi_sim::questions;
use machine::Machine;

// The symbol at a position, in out[0].
#[unsafe(no_mangle)]
pub extern "C" fn tm_sim_get<'a>(
    tapes: u64,
    symbols: u64,
    states: u64,
    start: u64,
    table: &[u8],
    c0: &'a [u8],
    c1: &'a [u8],
    c2: &'a [u8],
    state: u16,
    engine: &[u64; 16],
    tape: u64,
    at: i64,
    out: &mut [u64; 8],
) -> u8
    ensures { (result ≡ result_code (get_answer (machine_of tapes symbols states start) table.now tape at (conf (engine_of state engine.now) c0.now c1.now c2.now))) × (out.new ≡ result_out symbol_out (get_answer (machine_of tapes symbols states start) table.now tape at (conf (engine_of state engine.now) c0.now c1.now c2.now)) out.old) }
{
    let m = Machine {
        tapes,
        symbols,
        states,
        start,
    };
    questions::get(m, table, c0, c1, c2, state, engine, tape, at, out)
}

// Whether a cell is not blank, in out[0]; the lowest and highest such positions, raised by 2^63, in out[1] and out[2].
#[unsafe(no_mangle)]
pub extern "C" fn tm_sim_non_blank<'a>(
    tapes: u64,
    symbols: u64,
    states: u64,
    start: u64,
    table: &[u8],
    c0: &'a [u8],
    c1: &'a [u8],
    c2: &'a [u8],
    state: u16,
    engine: &[u64; 16],
    tape: u64,
    out: &mut [u64; 8],
) -> u8
    ensures { (result ≡ result_code (extent_answer (machine_of tapes symbols states start) table.now tape (conf (engine_of state engine.now) c0.now c1.now c2.now))) × (out.new ≡ result_out span_out (extent_answer (machine_of tapes symbols states start) table.now tape (conf (engine_of state engine.now) c0.now c1.now c2.now)) out.old) }
{
    let m = Machine {
        tapes,
        symbols,
        states,
        start,
    };
    questions::non_blank(m, table, c0, c1, c2, state, engine, tape, out)
}

// The number of cells that are not blank, in out[0].
#[unsafe(no_mangle)]
pub extern "C" fn tm_sim_count<'a>(
    tapes: u64,
    symbols: u64,
    states: u64,
    start: u64,
    table: &[u8],
    c0: &'a [u8],
    c1: &'a [u8],
    c2: &'a [u8],
    state: u16,
    engine: &[u64; 16],
    tape: u64,
    out: &mut [u64; 8],
) -> u8
    ensures { (result ≡ result_code (count_answer (machine_of tapes symbols states start) table.now tape (conf (engine_of state engine.now) c0.now c1.now c2.now))) × (out.new ≡ result_out number_out (count_answer (machine_of tapes symbols states start) table.now tape (conf (engine_of state engine.now) c0.now c1.now c2.now)) out.old) }
{
    let m = Machine {
        tapes,
        symbols,
        states,
        start,
    };
    questions::count(m, table, c0, c1, c2, state, engine, tape, out)
}

// The symbols from a position on, into the whole of `cells`.
#[unsafe(no_mangle)]
pub extern "C" fn tm_sim_window<'a>(
    tapes: u64,
    symbols: u64,
    states: u64,
    start: u64,
    table: &[u8],
    c0: &'a [u8],
    c1: &'a [u8],
    c2: &'a [u8],
    state: u16,
    engine: &[u64; 16],
    tape: u64,
    from: i64,
    cells: &mut [u8],
    out: &mut [u64; 8],
) -> u8
    ensures { (result ≡ result_code (question_check (machine_of tapes symbols states start) table.now tape (conf (engine_of state engine.now) c0.now c1.now c2.now))) × (out.new ≡ result_out unit_out (question_check (machine_of tapes symbols states start) table.now tape (conf (engine_of state engine.now) c0.now c1.now c2.now)) out.old) × (cells.new ≡ window_into (machine_of tapes symbols states start) table.now tape from (conf (engine_of state engine.now) c0.now c1.now c2.now) cells.old) }
{
    let m = Machine {
        tapes,
        symbols,
        states,
        start,
    };
    questions::window(m, table, c0, c1, c2, state, engine, tape, from, cells, out)
}

// Whether there is a cell that is not blank from a position on in a direction (0 L, 1 R, else the position alone), in
// out[0]; the nearest such position, raised by 2^63, in out[1].
#[unsafe(no_mangle)]
pub extern "C" fn tm_sim_find<'a>(
    tapes: u64,
    symbols: u64,
    states: u64,
    start: u64,
    table: &[u8],
    c0: &'a [u8],
    c1: &'a [u8],
    c2: &'a [u8],
    state: u16,
    engine: &[u64; 16],
    tape: u64,
    from: i64,
    dir: u8,
    out: &mut [u64; 8],
) -> u8
    ensures { (result ≡ result_code (find_answer (machine_of tapes symbols states start) table.now tape from (dir_of dir) (conf (engine_of state engine.now) c0.now c1.now c2.now))) × (out.new ≡ result_out spot_out (find_answer (machine_of tapes symbols states start) table.now tape from (dir_of dir) (conf (engine_of state engine.now) c0.now c1.now c2.now)) out.old) }
{
    let m = Machine {
        tapes,
        symbols,
        states,
        start,
    };
    questions::find(m, table, c0, c1, c2, state, engine, tape, from, dir, out)
}
