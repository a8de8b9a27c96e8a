// The text of all 28 crossings.
#![tactic(auto)]

ghost use Rattle.std.specs.Prelude.{length};
ghost use Rattle.text.specs.Texts.{TellsIn};
ghost use Rattle.desk_text.specs.Room.{text_size};
ghost use Rattle.desk_crossings.specs.Lines.{word_text, EnoughOfWord};

use desk_line::Got;
use desk_text::Text;

mod line; // line.rt: the lines of all pairs

// The bytes to read: one more than a word may have, so that a word that is too long is noticed.
pub const WORD_ROOM: usize = desk_line::WORD_ROOM;

// What is written for a word: the lines of all pairs, or on a refusal the desk program's line. If the word could not be
// read, nothing is written.
pub fn word_text(input: &[u8; WORD_ROOM], got: Got) -> Text
    ensures tells_in { TellsIn text_size (word_text got input.now) result.bytes result.text }
    ensures enough_of_word { EnoughOfWord (length input.now) }
{
    if !got.read {
        return Text::none();
    }
    let all = word_crossing::all_crossings(text::part(input, 0, got.bytes));
    if all.answer != 0 {
        return desk_text::answer_text(all.answer);
    }
    line::lines(&all.numbers)
}
