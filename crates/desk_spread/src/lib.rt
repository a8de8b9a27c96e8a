// The text of how words of a length spread over the 24 lists.
#![tactic(auto)]

ghost use Rattle.std.specs.Prelude.{◌≡◌};
ghost use Rattle.text.specs.Texts.{TellsIn};
ghost use Rattle.desk_text.specs.Room.{text_size};
ghost use Rattle.desk_spread.specs.SpreadLines.{spread_text, usual_length, length_of};

use desk_text::Text;

mod line; // line.rt: the lines of all lists

// What is written for a length: the lines of all lists, or on a refusal the desk program's line.
fn spread_text(length: usize) -> Text
    ensures { TellsIn text_size (spread_text length) result.bytes result.text }
{
    let all = word_spread::all_endings(length);
    if all.answer != 0 {
        return desk_text::answer_text(all.answer);
    }
    line::lines(&all.numbers)
}

// What is written without an argument: length 2.
pub fn usual_text() -> Text
    ensures { TellsIn text_size (spread_text usual_length) result.bytes result.text }
{
    spread_text(2)
}

// The length that an argument writes, 0 to 12; 13 for any other argument.
// The result is no Option: the definition `length_of`, whose value goes into `spread_text`, gives 13.
fn length_of(argument: &[u8]) -> usize
    ensures { result ≡ length_of argument.now }
{
    for n in 0..13u16 {
        if desk_number::writes(argument, n) {
            return usize::from(n);
        }
    }
    13
}

// What is written for the length that an argument writes.
pub fn argument_text(argument: &[u8]) -> Text
    ensures { TellsIn text_size (spread_text (length_of argument.now)) result.bytes result.text }
{
    spread_text(length_of(argument))
}
