// Handles taken out of a word in a file. The functions take arrays whose sizes are given in `desk_line`, so a program
// cannot hand in a buffer of another size.
#![tactic(auto)]

ghost use Rattle.std.specs.Prelude.{true, length, take};
ghost use Rattle.desk_handles.specs.Taking.{TakesOut, EnoughToTake};

use desk_line::Got;
use desk_words::Made;

// What is made of a word, and whether a handle is left in it.
#[derive(Clone, Copy)]
pub struct Taken {
    pub made: Made,
    pub left: bool,
}

// Handles taken out of a word, in at most `limit` steps.
fn handled(word: &[u8], limit: u16) -> Taken
    ensures { TakesOut true limit word.now result }
{
    let mut file = [0u8; word_store::MAX_STORED];
    let handles = handle_reducer::handle_reduce(word, limit, &mut file);
    let made = Made {
        read: true,
        answer: handles.answer,
        bytes: handles.bytes,
        file,
    };
    Taken {
        made,
        left: handles.left,
    }
}

// Takes handles out of the word in a file, in at most `limit` steps.
pub fn take_handles(word: &[u8; desk_line::WORD_ROOM], limit: u16, w: Got) -> Taken
    ensures takes_out { TakesOut w.read limit (take w.bytes word.now) result }
    ensures enough_to_take { EnoughToTake limit (length word.now) }
{
    if !w.read {
        return Taken {
            made: Made::unread(),
            left: false,
        };
    }
    handled(text::part(word, 0, w.bytes), limit)
}
