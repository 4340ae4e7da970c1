// The answers of operations: how a run ended, and why an operation was refused.
#![tactic(auto)]

ghost use Rattle.std.specs.Prelude.{◌≡◌, Some};
ghost use Rattle.outcome.specs.Numbers.{status_number, proof_number, proof_state, outcome_number, steps_of, is_halted, values, values_of, said_of, refusal_number, place_of};

use symbol::{Dir, State};

// The result of one step.
#[derive(Clone, Copy, PartialEq, Eq)]
pub enum Status {
    // An entry was defined, and the step was made.
    Running,
    // No entry is defined: the machine has halted.
    Halted,
    // A tape had no space for the step, and nothing was changed.
    Full,
}

impl Status {
    pub fn number(self) -> u8
        ensures { result ≡ status_number self }
    {
        match self {
            Status::Running => 0,
            Status::Halted => 1,
            Status::Full => 2,
        }
    }
}

// The pattern, one of two, that shows that the machine never halts.
#[derive(Clone, Copy, PartialEq, Eq)]
pub enum NonHaltProof {
    // The entry keeps the state, and every tape stays and rewrites the symbol read.
    StayLoop { state: State },
    // The entry for a blank keeps the state and moves in direction `dir`, and all cells ahead are blank.
    ChainToInfinity { state: State, dir: Dir },
}

impl NonHaltProof {
    pub fn number(self) -> u8
        ensures { result ≡ proof_number self }
    {
        match self {
            NonHaltProof::StayLoop { .. } => 0,
            NonHaltProof::ChainToInfinity { .. } => 1,
        }
    }

    // The state that is never left.
    pub fn state(self) -> State
        ensures { Some result ≡ proof_state self }
    {
        match self {
            NonHaltProof::StayLoop { state } | NonHaltProof::ChainToInfinity { state, .. } => state,
        }
    }
}

// How a run ended. `steps` is the whole step count since the start.
#[derive(Clone, Copy, PartialEq, Eq)]
pub enum Outcome {
    // No entry is defined in `state` for the symbols read.
    Halted { steps: u64, state: State },
    // All the fuel was used, and the machine has not halted yet.
    OutOfFuel { steps: u64 },
    // The machine was shown never to halt.
    NeverHalts { steps: u64, proof: NonHaltProof },
    // The stop rule ended the run.
    Stopped { steps: u64 },
    // There is no space for the next step.
    Full { steps: u64 },
}

// The number of an outcome and its values as numbers, for the C interface; a value that the outcome lacks is 0.
#[derive(Clone, Copy, PartialEq, Eq)]
pub struct Values {
    pub number: u8,
    pub steps: u64,
    pub state: u16,
    pub pattern: u8,
    pub dir: u8,
}

impl Outcome {
    pub fn number(self) -> u8
        ensures { result ≡ outcome_number self }
    {
        match self {
            Outcome::Halted { .. } => 0,
            Outcome::OutOfFuel { .. } => 1,
            Outcome::NeverHalts { .. } => 2,
            Outcome::Stopped { .. } => 3,
            Outcome::Full { .. } => 4,
        }
    }

    pub fn steps(self) -> u64
        ensures { result ≡ steps_of self }
    {
        match self {
            Outcome::Halted { steps, .. }
            | Outcome::OutOfFuel { steps }
            | Outcome::NeverHalts { steps, .. }
            | Outcome::Stopped { steps }
            | Outcome::Full { steps } => steps,
        }
    }

    pub fn is_halted(self) -> bool
        ensures { result ≡ is_halted self }
    {
        matches!(self, Outcome::Halted { .. })
    }

    pub fn to_values(self) -> Values
        ensures { result ≡ values_of self }
    {
        match self {
            Outcome::Halted { steps, state } => made(0, steps, state.0, 0, 0),
            Outcome::OutOfFuel { steps } => made(1, steps, 0, 0, 0),
            Outcome::NeverHalts { steps, proof } => match proof {
                NonHaltProof::StayLoop { state } => made(2, steps, state.0, 0, 0),
                NonHaltProof::ChainToInfinity { state, dir } => {
                    made(2, steps, state.0, 1, dir.number())
                }
            },
            Outcome::Stopped { steps } => made(3, steps, 0, 0, 0),
            Outcome::Full { steps } => made(4, steps, 0, 0, 0),
        }
    }
}

fn made(number: u8, steps: u64, state: u16, pattern: u8, dir: u8) -> Values
    ensures { result ≡ values number steps state pattern dir }
{
    Values {
        number,
        steps,
        state,
        pattern,
        dir,
    }
}

// Why an operation was refused: document 01's refusals and then document 02's, in the order of their numbers, 1 to 21.
#[derive(Clone, Copy, PartialEq, Eq)]
pub enum Refusal {
    // The number of tapes is not 1 to 3.
    Tapes,
    // The number of symbols is not 1 to 256.
    Symbols,
    // The number of states is not 1 to 65,536.
    States,
    // The start state is not below the number of states.
    Start,
    // The table does not have 8 bytes for each entry.
    TableSize,
    // The entry with this number, the lowest such, breaks the layout or is out of range.
    Entry(u64),
    // The packed words are not the table's, or the table has several tapes.
    PackedWords,
    // The machine has several tapes.
    SeveralTapes,
    // The word is longer than 1,048,576.
    WordLength,
    // The word's symbol at this place, the first such, is not a symbol of the machine.
    WordSymbol(u64),
    // A lent buffer is too small or too large.
    BufferSize,
    // The engine value does not fit, or the machine lacks the given tape.
    Misfit,
    // The sum of steps and fuel, or the target, is over 2^62.
    StepLimit,
    // The timeline's settings or its value are out of range.
    Settings,
    // The store has too few slots.
    StoreSize,
    // The slot to restore holds no fitting engine of its step.
    Slot,
    // The glyph at this place, the first such, is not allowed.
    Glyph(u64),
    // The output is too short.
    OutputSize,
    // The line is malformed: no line of the form has the byte at this place after those before it, or it ends here, early.
    MalformedLine(u64),
    // The line's rows lack the letter or the digit at this place, the first such.
    LineLacks(u64),
    // The table has no line of the form.
    NoLine,
}

// What a refusal says: its number, and its place.
#[derive(Clone, Copy, PartialEq, Eq)]
struct Said(u8, Option<u64>);

impl Refusal {
    pub fn number(self) -> u8
        ensures { result ≡ refusal_number self }
    {
        let said = self.said();
        said.0
    }

    pub fn place(self) -> Option<u64>
        ensures { result ≡ place_of self }
    {
        let said = self.said();
        said.1
    }

    fn said(self) -> Said
        ensures { result ≡ said_of self }
    {
        match self {
            Refusal::Tapes => Said(1, None),
            Refusal::Symbols => Said(2, None),
            Refusal::States => Said(3, None),
            Refusal::Start => Said(4, None),
            Refusal::TableSize => Said(5, None),
            Refusal::Entry(i) => Said(6, Some(i)),
            Refusal::PackedWords => Said(7, None),
            Refusal::SeveralTapes => Said(8, None),
            Refusal::WordLength => Said(9, None),
            Refusal::WordSymbol(i) => Said(10, Some(i)),
            Refusal::BufferSize => Said(11, None),
            Refusal::Misfit => Said(12, None),
            Refusal::StepLimit => Said(13, None),
            Refusal::Settings => Said(14, None),
            Refusal::StoreSize => Said(15, None),
            Refusal::Slot => Said(16, None),
            Refusal::Glyph(i) => Said(17, Some(i)),
            Refusal::OutputSize => Said(18, None),
            Refusal::MalformedLine(i) => Said(19, Some(i)),
            Refusal::LineLacks(i) => Said(20, Some(i)),
            Refusal::NoLine => Said(21, None),
        }
    }
}
