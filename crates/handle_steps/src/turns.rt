// The turns of handle reduction. Each turn reads the first code after the gap. If a handle ends there, the handle is
// taken out; otherwise the code moves before the gap.
ghost use Rattle.std.specs.Prelude.{◌<◌};
ghost use Rattle.handle_row.specs.steps.Gaps.{gapped};
ghost use Rattle.handle_steps.specs.steps.Runs.{Gap, Found, StepMade, Turned, Ran};

use handle_row::{ROOM, begins, conjugate, cut, grown, keep};

// Where the gap is, and the steps that are left.
#[derive(Clone, Copy)]
pub(crate) struct State {
    pub left: usize,
    pub right: usize,
    pub steps: usize,
}

// Where the gap is after the last turn, and whether a handle is left.
#[derive(Clone, Copy)]
pub(crate) struct Last {
    pub left: usize,
    pub right: usize,
    pub handle: bool,
}

// A step is refused, because it would leave over 10,000 letters.
#[derive(Clone, Copy)]
pub(crate) struct TooLong;

// Takes out the handle that ends with the first code after the gap and begins right before place `own`. The tables go
// back first, because the new letters may be written over the old ones.
fn take_out(
    row: &mut [u8],
    latest: &mut [u16],
    before: &[u16],
    own: usize,
    s: State,
) -> Result<State, TooLong>
    requires { Gap row.old latest.old before.now s.left s.right × Found row.old own s.left s.right s.steps }
    ensures { StepMade row.old s row.new latest.new before.now result }
{
    let a = row[own - 1];
    let long = grown(&row[own..s.left], a);
    if s.right + 1 < own + long {
        return Err(TooLong);
    }
    cut(row, latest, before, own - 1, s.left);
    conjugate(&mut row[own..s.right + 1], s.left - own, a);
    // The new letters end where the handle ended. It is faster to count from there than from the place that `conjugate`
    // gives.
    Ok(State {
        left: own - 1,
        right: s.right + 1 - long,
        steps: s.steps - 1,
    })
}

// One turn: the first code after the gap moves before it, or the handle that ends with the code is taken out. Gives no
// state if a handle ends there but no step is left.
fn turn(
    row: &mut [u8],
    latest: &mut [u16],
    before: &mut [u16],
    s: State,
) -> Result<Option<State>, TooLong>
    requires { Gap row.old latest.old before.old s.left s.right × (s.right < 10001) }
    ensures { Turned row.old s row.new latest.new before.new result }
{
    let Some(from) = begins(row, latest, s.left, s.right) else {
        keep(row, latest, before, s.left, s.right);
        return Ok(Some(State {
            left: s.left + 1,
            right: s.right + 1,
            steps: s.steps,
        }));
    };
    if s.steps == 0 {
        return Ok(None);
    }
    let next = take_out(row, latest, before, from + 1, s)?;
    Ok(Some(next))
}

// All turns, until no code is after the gap or no step is left for a handle.
pub(crate) fn run(
    row: &mut [u8],
    latest: &mut [u16],
    before: &mut [u16],
    start: usize,
    limit: usize,
) -> Result<Last, TooLong>
    requires { Gap row.old latest.old before.old 0 start }
    ensures { Ran limit (gapped row.old 0 start) row.new result }
{
    let mut s = State {
        left: 0,
        right: start,
        steps: limit,
    };
    // A step may move the gap back, so no `for` counts the turns.
    while s.right < ROOM {
        let Some(next) = turn(row, latest, before, s)? else {
            return Ok(Last {
                left: s.left,
                right: s.right,
                handle: true,
            });
        };
        s = next;
    }
    Ok(Last {
        left: s.left,
        right: s.right,
        handle: false,
    })
}
