// The kinds of moves, one move on a row of codes. The word is the first codes of a row.
#![tactic(auto)]

ghost use Rattle.std.specs.Prelude.{◌≡◌};

mod kinds; // kinds.rt: one move, by its kind
mod shift; // shift.rt: two letters removed or inserted

pub use kinds::one_move;

// What a move gives: the number of the first question answered no, or 0 if there is none, and the number of letters
// that the word then has.
#[derive(Clone, Copy)]
pub struct Change {
    pub answer: u8,
    pub letters: usize,
}

impl Change {
    // A refusal: its number, and the number of letters, which does not change.
    fn refused(answer: u8, letters: usize) -> Change
        ensures { (result.answer ≡ answer) × (result.letters ≡ letters) }
    {
        Change { answer, letters }
    }
}
