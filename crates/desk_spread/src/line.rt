// The lines of all lists.
ghost use Rattle.std.specs.Prelude.{◌+◌, ◌^◌, ◌≤◌, ◌<◌, ◌≡◌, [], ◌∷◌, ◌++◌, length};
ghost use Rattle.text.specs.Decimal.{decimal};
ghost use Rattle.base.specs.steps.Laying.{Laid};
ghost use Rattle.text.specs.Texts.{TellsIn};
ghost use Rattle.desk_text.specs.Room.{text_size};
ghost use Rattle.word_spread.specs.Spread.{all_lists, list_at};
ghost use Rattle.desk_spread.specs.SpreadLines.{list_line, list_lines};
ghost use Rattle.desk_spread.specs.steps.Numbers.{Shown};

use desk_text::{TEXT, Text};

// Writes two labels, each with a space after it, behind the first `at` bytes of a text. Returns the place after them.
fn two_labels(text: &mut [u8], at: usize, a: u8, b: u8) -> usize
    requires { (at + 4 ≤ length text.old) × (a < 10) × (b < 10) }
    ensures { Laid at (decimal a ++ (32 ∷ []) ++ (decimal b ++ (32 ∷ []))) text.old text.new result }
{
    let second = text::decimal(text, at, u32::from(a), b' ');
    text::decimal(text, second, u32::from(b), b' ')
}

// Writes the line of list k behind the first `at` bytes of a text. Returns the place after it.
fn line(text: &mut [u8], at: usize, k: usize, number: u32) -> usize
    requires { (at + 19 ≤ length text.old) × (k < 24) × (number ≤ 6 ^ 12) }
    ensures { Laid at (list_line (list_at k) number) text.old text.new result }
{
    let labels = word_spread::list_at(k);
    let third = two_labels(text, at, labels[0], labels[1]);
    let last = two_labels(text, third, labels[2], labels[3]);
    text::decimal(text, last, number, b'\n')
}

// The lines of all lists, each with its number.
pub(crate) fn lines(numbers: &[u32; 24]) -> Text
    requires { Shown numbers.now }
    ensures { TellsIn text_size (list_lines all_lists numbers.now) result.bytes result.text }
{
    let mut text = [0u8; TEXT];
    let mut at = 0;
    for (k, number) in numbers.iter().enumerate() {
        at = line(&mut text, at, k, *number);
    }
    Text { text, bytes: at }
}
