// What each kind of value writes.
ghost use Rattle.capi_numbers.specs.Model.Answers.{unit_out, number_out, symbol_out, status_out, outcome_out, span_out, spot_out};
ghost use Rattle.capi_numbers.specs.Model.Parts.{flag_out, action_from, entry_out, named_out, machine_out};

use super::answers::{Value, put_values};
use super::parts;
use machine::{Action, Machine};
use outcome::{Outcome, Status};
use symbol::{Symbol, position};
use tape::Span;

impl Value for () {
    ghost writes = { unit_out };

    fn put(self, _out: &mut [u64; 8]) {}
}

impl Value for u64 {
    ghost writes = { number_out };

    fn put(self, out: &mut [u64; 8]) {
        out[0] = self;
    }
}

impl Value for Symbol {
    ghost writes = { symbol_out };

    fn put(self, out: &mut [u64; 8]) {
        out[0] = self.0 as u64;
    }
}

impl Value for Status {
    ghost writes = { status_out };

    fn put(self, out: &mut [u64; 8]) {
        out[0] = self.number() as u64;
    }
}

impl Value for Outcome {
    ghost writes = { outcome_out };

    fn put(self, out: &mut [u64; 8]) {
        put_values(out, self.to_values());
    }
}

// Positions are written raised by 2^63.
impl Value for Option<Span> {
    ghost writes = { span_out };

    fn put(self, out: &mut [u64; 8]) {
        match self {
            None => {
                out[0] = 0;
            }
            Some(span) => {
                out[0] = 1;
                out[1] = position::raised(span.from);
                out[2] = position::raised(span.to);
            }
        }
    }
}

impl Value for Option<i64> {
    ghost writes = { spot_out };

    fn put(self, out: &mut [u64; 8]) {
        match self {
            None => {
                out[0] = 0;
            }
            Some(at) => {
                out[0] = 1;
                out[1] = position::raised(at);
            }
        }
    }
}

impl Value for Action {
    ghost writes = { action_from 0 };

    fn put(self, out: &mut [u64; 8]) {
        parts::put_action_at(out, 0, self);
    }
}

impl Value for Option<Action> {
    ghost writes = { entry_out };

    fn put(self, out: &mut [u64; 8]) {
        match self {
            None => {
                out[0] = 0;
            }
            Some(action) => {
                out[0] = 1;
                parts::put_action_at(out, 1, action);
            }
        }
    }
}

impl Value for Option<Symbol> {
    ghost writes = { named_out };

    fn put(self, out: &mut [u64; 8]) {
        match self {
            None => {
                out[0] = 0;
            }
            Some(symbol) => {
                out[0] = 1;
                out[1] = symbol.0 as u64;
            }
        }
    }
}

impl Value for bool {
    ghost writes = { flag_out };

    fn put(self, out: &mut [u64; 8]) {
        out[0] = u64::from(self);
    }
}

impl Value for Machine {
    ghost writes = { machine_out };

    fn put(self, out: &mut [u64; 8]) {
        out[0] = self.symbols;
        out[1] = self.states;
    }
}
