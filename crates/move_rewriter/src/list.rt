// The move list: the number of moves, then all places, then all kinds. Its questions are asked here, and its moves
// are made, one after another.
ghost use Rattle.std.specs.Prelude.{◌<◌, ◌≡◌, take};
ghost use Rattle.base.specs.Questions.{first_no};
ghost use Rattle.move_kinds.specs.Rewriting.{move_count, step_at, move_of, steps, list_questions};
ghost use Rattle.move_kinds.specs.steps.Lists.{Listed};
ghost use Rattle.move_kinds.specs.steps.Leaving.{moved, Leaves, Makes, Holds};

use move_kinds::{Change, one_move};

// The move list's questions: 18, 19, 20.
pub(crate) fn list_answer(moves: &[u8]) -> u8
    ensures { result ≡ first_no (list_questions moves.now) }
{
    if moves.len() < 2 {
        return 18;
    }
    let count = base::two_bytes(moves, 0);
    if 4096 < count {
        return 19;
    }
    if moves.len() == 2 + 3 * count {
        return 0;
    }
    20
}

// Makes move k of the list on a word of n letters.
fn move_at(codes: &mut [u8], n: usize, moves: &[u8], k: usize) -> Change
    requires { Holds n codes.old × Listed moves.now × (k < move_count moves.now) }
    ensures { Makes (move_of (step_at moves.now k)) n codes.old codes.new
        result.answer result.letters }
{
    let count = base::two_bytes(moves, 0);
    let place = base::two_bytes(moves, 2 + 2 * k);
    let kind = moves[2 + 2 * count + k];
    one_move(codes, n, kind, place)
}

// Makes all moves of the list, each on the word that the last one left. The first refused move ends the work.
pub(crate) fn all_moves(codes: &mut [u8], n: usize, moves: &[u8]) -> Change
    requires { Holds n codes.old × Listed moves.now }
    ensures { Leaves (moved (steps moves.now) (take n codes.old)) codes.new
        result.answer result.letters }
{
    let count = base::two_bytes(moves, 0);
    let mut letters = n;
    for k in 0..count {
        let m = move_at(codes, letters, moves, k);
        if m.answer != 0 {
            return m;
        }
        letters = m.letters;
    }
    Change { answer: 0, letters }
}
