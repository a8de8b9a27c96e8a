// Takes handles out of a row of codes, up to a limit of steps. A step touches only the letters of its handle.
#![tactic(auto)]

mod turns; // turns.rt: one turn, and all turns

ghost use Rattle.handle_steps.specs.steps.Runs.{HoldsWord, Fresh, StepsOnRow};

use handle_row::{ROOM, SLOTS, gather, lay};
use turns::run;

// What the steps give. `answer` is 32 if a step would leave over 10,000 letters, and otherwise 0. `letters` is the
// number of letters of the row's word. `left` says whether a handle is left, and no on a refusal.
#[derive(Clone, Copy)]
pub struct Reduced {
    pub answer: u8,
    pub letters: usize,
    pub left: bool,
}

// The steps, with a row and tables to work in.
fn work_in(
    codes: &mut [u8],
    n: usize,
    limit: usize,
    row: &mut [u8],
    latest: &mut [u16],
    before: &mut [u16],
) -> Reduced
    requires { HoldsWord n codes.old × Fresh row.old latest.old before.old }
    ensures { StepsOnRow limit n codes.old codes.new result.answer result.letters result.left }
{
    lay(row, &codes[..n]);
    let Ok(last) = run(row, latest, before, ROOM - n, limit) else {
        return Reduced {
            answer: 32,
            letters: n,
            left: false,
        };
    };
    gather(row, last.left, last.right, codes);
    Reduced {
        answer: 0,
        letters: last.left + (ROOM - last.right),
        left: last.handle,
    }
}

// Takes at most `limit` handles out of the word in the first n codes, each time the handle that ends earliest. On a
// refusal the codes are unchanged.
pub fn reduce(codes: &mut [u8], n: usize, limit: usize) -> Reduced
    requires { HoldsWord n codes.old }
    ensures { StepsOnRow limit n codes.old codes.new result.answer result.letters result.left }
{
    let mut row = [0u8; ROOM];
    let mut latest = [0u16; SLOTS];
    let mut before = [0u16; ROOM];
    work_in(codes, n, limit, &mut row, &mut latest, &mut before)
}
