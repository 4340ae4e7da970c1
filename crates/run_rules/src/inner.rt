// The stop rule, as the runs of both engines test it.
ghost use Rattle.std.specs.Prelude.{◌≡◌};
ghost use Rattle.run_rules.specs.Model.Task.{matches};

use symbol::State;

// Whether a run's stop rule has this state.
pub fn matches(rule: Option<State>, q: State) -> bool
    ensures { result ≡ matches rule q }
{
    rule == Some(q)
}
