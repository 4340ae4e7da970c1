// Whether a line is of the one-line form, byte by byte.
ghost use Rattle.std.specs.Prelude.{◌≡◌, ◌<◌};
ghost use Rattle.table_text_form.specs.Form.{may_end, is_full, width_of, row_ends, is_move, on_if, entry_begins, step_between, step, ends, form_of};

use table_text_form::{Phase, Spot};

// Whether the row may end here.
#[tactic(auto, unfolding(notation::specs::Choice::both, notation::specs::Choice::pick, table_text_form::specs::Form::may_end))]
fn may_end(at: Spot) -> bool
    ensures { result ≡ may_end at }
{
    if at.width == 0 {
        2 <= at.col
    } else {
        at.col == at.width
    }
}

// Whether the row must end here.
#[tactic(auto, unfolding(notation::specs::Choice::both, notation::specs::Choice::pick, table_text_form::specs::Form::is_full))]
fn is_full(at: Spot) -> bool
    ensures { result ≡ is_full at }
{
    if at.width == 0 {
        at.col == 10
    } else {
        at.col == at.width
    }
}

fn width_of(at: Spot) -> u64
    ensures { result ≡ width_of at }
{
    if at.width == 0 { at.col } else { at.width }
}

#[tactic(auto, unfolding(notation::specs::Choice::both, notation::specs::Choice::pick, table_text_form::specs::Form::row_ends))]
fn row_ends(at: Spot, b: u8) -> bool
    ensures { result ≡ row_ends at b }
{
    b == b'_' && may_end(at) && at.rows < 24
}

// L or R.
fn is_move(b: u8) -> bool
    ensures { result ≡ is_move b }
{
    matches!(b, b'L' | b'R')
}

fn on_if(test: bool, at: Spot) -> Option<Spot>
    ensures { result ≡ on_if test at }
{
    test.then_some(at)
}

#[tactic(auto, unfolding(notation::specs::Choice::both, notation::specs::Choice::pick, table_text_form::specs::Form::entry_begins))]
fn entry_begins(at: Spot, b: u8) -> Option<Spot>
    ensures { result ≡ entry_begins at b }
{
    if is_full(at) {
        return None;
    }
    if b == b'-' {
        return Some(Spot {
            phase: Phase::Dash,
            ..at
        });
    }
    on_if(
        b.is_ascii_digit(),
        Spot {
            phase: Phase::Wrote,
            ..at
        },
    )
}

fn between(at: Spot, b: u8) -> Option<Spot>
    requires { at.rows < 18446744073709551615 }
    ensures { result ≡ step_between at b }
{
    if row_ends(at, b) {
        return Some(Spot {
            width: width_of(at),
            rows: at.rows + 1,
            col: 0,
            phase: Phase::Between,
        });
    }
    entry_begins(at, b)
}

// The spot after byte `b`.
#[tactic(auto, unfolding(notation::specs::Choice::both, notation::specs::Choice::pick, table_text_form::specs::Form::step))]
fn step(at: Spot, b: u8) -> Option<Spot>
    requires { (at.col < 18446744073709551615) × (at.rows < 18446744073709551615) }
    ensures { result ≡ step at b }
{
    match at.phase {
        Phase::Between => between(at, b),
        Phase::Wrote => on_if(
            is_move(b),
            Spot {
                phase: Phase::Moved,
                ..at
            },
        ),
        Phase::Moved => on_if(
            b.is_ascii_uppercase(),
            Spot {
                col: at.col + 1,
                phase: Phase::Between,
                ..at
            },
        ),
        Phase::Dash => on_if(
            b == b'-',
            Spot {
                phase: Phase::Dashes,
                ..at
            },
        ),
        Phase::Dashes => on_if(
            b == b'-',
            Spot {
                col: at.col + 1,
                phase: Phase::Between,
                ..at
            },
        ),
    }
}

// Whether a line may end here.
#[tactic(auto, unfolding(notation::specs::Choice::both, notation::specs::Choice::pick, table_text_form::specs::Form::ends))]
fn ends(at: Spot) -> bool
    ensures { result ≡ ends at }
{
    matches!(at.phase, Phase::Between) && may_end(at)
}

// Whether a line is of the form.
pub(crate) fn scan(line: &[u8]) -> Result<(u64, u64), u64>
    ensures { result ≡ form_of line.now }
{
    let mut at = Spot {
        width: 0,
        rows: 0,
        col: 0,
        phase: Phase::Between,
    };
    for (i, &b) in line.iter().enumerate() {
        at = step(at, b).ok_or(i as u64)?;
    }
    if ends(at) {
        return Ok((at.rows + 1, width_of(at)));
    }
    Err(line.len() as u64)
}
