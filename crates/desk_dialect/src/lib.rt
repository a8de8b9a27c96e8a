// A word in a file turned into the other dialect, by parts that an argument writes. The functions take arrays whose
// sizes are given in `desk_line`, so a program cannot hand in a buffer of another size.
#![tactic(auto)]

ghost use Rattle.std.specs.Prelude.{◌≤◌, ◌≡◌, true, length, take};
ghost use Rattle.desk_dialect.specs.Converting.{digit_shown, part_at, parts_of, Converts, EnoughToConvert};

use desk_line::Got;
use desk_words::Made;

// The digit that a byte shows; 0 for a byte that shows none.
// The result is no Option: the definition `digit_shown`, whose value is a part, gives 0.
fn digit_of(b: u8) -> u8
    ensures { result ≡ digit_shown b }
{
    match b {
        b'0'..=b'9' => b - b'0',
        _ => 0,
    }
}

// Part k of a text of digits with commas between them. The part is 0 if the text goes on after its digit without a
// comma.
fn part_at(text: &[u8], k: usize) -> u8
    requires { k ≤ 6 }
    ensures { result ≡ part_at text.now k }
{
    let at = 2 * k;
    if text.len() <= at {
        return 0;
    }
    let digit = digit_of(text[at]);
    if text.len() <= at + 1 {
        return digit;
    }
    if text[at + 1] == b',' {
        return digit;
    }
    0
}

// Writes the parts that a text writes to the front of the row. Returns their number.
fn parts_of(text: &[u8], parts: &mut [u8]) -> usize
    requires { length parts.old ≡ 7 }
    ensures { (result ≤ 7) × (take result parts.new ≡ parts_of text.now) }
{
    if 13 < text.len() {
        return 0;
    }
    let n = text.len() / 2 + 1;
    for k in 0..n {
        parts[k] = part_at(text, k);
    }
    n
}

// A word turned into the other dialect.
fn converted(way: bool, text: &[u8], word: &[u8]) -> Made
    ensures { Converts way true (parts_of text.now) word.now result }
{
    let mut row = [0u8; 7];
    let n = parts_of(text, &mut row);
    let parts = &row[..n];
    Made::by(|file| word_dialect::convert(way, word, parts, file))
}

// Turns the word in a file into the other dialect, to Y if `way` is true, by the parts that a text writes.
pub fn convert(way: bool, text: &[u8], word: &[u8; desk_line::WORD_ROOM], w: Got) -> Made
    ensures converts { Converts way w.read (parts_of text.now) (take w.bytes word.now) result }
    ensures enough_to_convert { EnoughToConvert way (parts_of text.now) (length word.now) }
{
    if !w.read {
        return Made::unread();
    }
    converted(way, text, text::part(word, 0, w.bytes))
}
