// Answers as lines of text on standard output.
use outcome::{Outcome, Refusal};
use sim::Simulator;
use sim_timeline::Timeline;
use std::io;

fn say(rt: &impl Print, what: &str, number: u64) -> io::Result<()> {
    println!(rt; "{what}{number}")
}

// Every operation takes every input. A refusal has a number, and a refused call changes nothing that was lent.
pub(crate) fn refused(rt: &impl Print, why: Refusal) -> io::Result<()> {
    say(rt, "refused ", u64::from(why.number()))
}

pub(crate) fn told(
    rt: &impl Print,
    call: &str,
    answer: Result<Outcome, Refusal>,
) -> io::Result<()> {
    print!(rt; "{call}")?;
    match answer {
        Err(why) => refused(rt, why),
        Ok(outcome) => match outcome {
            Outcome::Halted { steps, state: _ } => say(rt, "halted at ", steps),
            Outcome::OutOfFuel { steps } => say(rt, "out of fuel at ", steps),
            Outcome::NeverHalts { steps, proof: _ } => say(rt, "never halts, seen at ", steps),
            Outcome::Stopped { steps } => say(rt, "stopped at ", steps),
            Outcome::Full { steps } => say(rt, "full at ", steps),
        },
    }
}

// Prints the answer, and returns the engine for the next call.
pub(crate) fn ran(rt: &impl Print, call: &str, answered: sim::Answered) -> io::Result<Simulator> {
    let answer = answered.answer;
    told(rt, call, answer)?;
    Ok(answered.sim)
}

// Prints the answer, and returns the timeline for the next call.
pub(crate) fn moved(
    rt: &impl Print,
    call: &str,
    answered: sim_timeline::Answered,
) -> io::Result<Timeline> {
    let answer = answered.answer;
    told(rt, call, answer)?;
    Ok(answered.timeline)
}
