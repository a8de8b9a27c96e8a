// The lines of all pairs.
ghost use Rattle.std.specs.Prelude.{◌+◌, ◌≤◌, ◌<◌, ◌≡◌, nat_abs, length};
ghost use Rattle.base.specs.steps.Laying.{Laid};
ghost use Rattle.text.specs.Texts.{TellsIn};
ghost use Rattle.desk_text.specs.Room.{text_size};
ghost use Rattle.word_crossing.specs.Crossings.{all_pairs};
ghost use Rattle.word_crossing.specs.steps.Pairs.{pair_at};
ghost use Rattle.desk_crossings.specs.Lines.{pair_line, lines_of};
ghost use Rattle.desk_crossings.specs.steps.Range.{Numbers};

use desk_text::{TEXT, Text};

// Writes the line of pair k behind the first `at` bytes of a text. Returns the place after it.
fn line(text: &mut [u8], at: usize, k: usize, number: i32) -> usize
    requires { (at + 11 ≤ length text.old) × (k < 28) × (nat_abs number ≤ 10000) }
    ensures { Laid at (pair_line (pair_at k) number) text.old text.new result }
{
    let two = word_crossing::pair_at(k);
    let second = text::decimal(text, at, u32::from(two.smaller), b' ');
    let third = text::decimal(text, second, u32::from(two.larger), b' ');
    text::signed(text, third, number, b'\n')
}

// The lines of all pairs, each with its number.
pub(crate) fn lines(numbers: &[i32; 28]) -> Text
    requires { Numbers numbers.now }
    ensures { TellsIn text_size (lines_of all_pairs numbers.now) result.bytes result.text }
{
    let mut text = [0u8; TEXT];
    let mut at = 0;
    for (k, number) in numbers.iter().enumerate() {
        at = line(&mut text, at, k, *number);
    }
    Text { text, bytes: at }
}
