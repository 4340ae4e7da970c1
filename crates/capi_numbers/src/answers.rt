// Answers as numbers: a result, 0 or the number of a refusal, and values.
ghost use Rattle.std.specs.Prelude.{◌≡◌, List, ℕ};
ghost use Rattle.outcome.specs.Numbers.{refusal_number};
ghost use Rattle.capi_numbers.specs.Model.Answers.{place_out, refused_out, result_code, result_out, values_out};

use outcome::{Refusal, Values};

// A value that a call's answer contains. It is written into the first places of `out`.
pub trait Value {
    ghost writes: { Self → List ℕ → List ℕ };

    fn put(self, out: &mut [u64; 8])
        ensures { out.new ≡ writes self out.old };
}

pub(crate) fn put_values(xs: &mut [u64; 8], v: Values)
    ensures { xs.new ≡ values_out v xs.old }
{
    xs[0] = v.number as u64;
    xs[1] = v.steps;
    xs[2] = v.state as u64;
    xs[3] = v.pattern as u64;
    xs[4] = v.dir as u64;
}

fn put_place(xs: &mut [u64; 8], place: Option<u64>)
    ensures { xs.new ≡ place_out place xs.old }
{
    if let Some(i) = place {
        xs[0] = i;
    }
}

pub fn refuse(xs: &mut [u64; 8], why: Refusal) -> u8
    ensures { (result ≡ refusal_number why) × (xs.new ≡ refused_out why xs.old) }
{
    put_place(xs, why.place());
    why.number()
}

// Writes a value; such a call refuses nothing.
pub fn put_value<T: Value>(out: &mut [u64; 8], value: T) -> u8
    ensures { (result ≡ 0) × (out.new ≡ T.writes value out.old) }
{
    value.put(out);
    0
}

// Writes the value of an answer, or the place of its refusal.
pub fn put_result<T: Value>(out: &mut [u64; 8], answer: Result<T, Refusal>) -> u8
    ensures { (result ≡ result_code answer) × (out.new ≡ result_out T.writes answer out.old) }
{
    match answer {
        Ok(value) => { put_value(out, value) }
        Err(why) => refuse(out, why),
    }
}
