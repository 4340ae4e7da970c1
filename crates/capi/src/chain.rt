// The run-length engine: a fresh engine, and a run.
ghost use Rattle.std.specs.Prelude.{◌≡◌};
ghost use Rattle.rle.specs.Model.Engine.{conf};
ghost use Rattle.rle.specs.Model.Operations.{new_answer, run_answer};
ghost use Rattle.capi_engines.specs.Model.Engines.{machine_of, rule_of, chain_of};
ghost use Rattle.capi_rle.specs.Model.Calls.{chain_call, chain_new_call, chain_ran_call};

use machine::Machine;

#[unsafe(no_mangle)]
pub extern "C" fn tm_chain_new(
    tapes: u64,
    symbols: u64,
    states: u64,
    start: u64,
    table: &[u8],
    word: &[u8],
    ls: &[u8],
    ll: &[u64],
    rs: &mut [u8],
    rl: &mut [u64],
    state: &mut u16,
    cur: &mut u8,
    engine: &mut [u64; 7],
    out: &mut [u64; 8],
) -> u8
    ensures { chain_call result state.new cur.new engine.new out.new ls.now ll.now rs.new rl.new ≡ chain_new_call (new_answer (machine_of tapes symbols states start) table.now word.now ls.now ll.now rs.old rl.old) state.old cur.old engine.old out.old ls.now ll.now }
{
    let m = Machine {
        tapes,
        symbols,
        states,
        start,
    };
    capi_rle::new(m, table, word, ls, ll, rs, rl, state, cur, engine, out)
}

#[unsafe(no_mangle)]
pub extern "C" fn tm_chain_run(
    tapes: u64,
    symbols: u64,
    states: u64,
    start: u64,
    table: &[u8],
    ls: &mut [u8],
    ll: &mut [u64],
    rs: &mut [u8],
    rl: &mut [u64],
    state: &mut u16,
    cur: &mut u8,
    engine: &mut [u64; 7],
    rule: u64,
    fuel: u64,
    out: &mut [u64; 8],
) -> u8
    ensures { chain_call result state.new cur.new engine.new out.new ls.new ll.new rs.new rl.new ≡ chain_ran_call (run_answer (machine_of tapes symbols states start) table.now (rule_of rule) fuel (conf (chain_of state.old cur.old engine.old) ls.old ll.old rs.old rl.old)) engine.old out.old }
{
    let m = Machine {
        tapes,
        symbols,
        states,
        start,
    };
    capi_rle::run(
        m, table, ls, ll, rs, rl, state, cur, engine, rule, fuel, out,
    )
}
