// The Y dialect: words turned from Artin to Y generators and back.
#![tactic(auto)]

ghost use Rattle.std.specs.Prelude.{◌≡◌};
ghost use Rattle.word_dialect.specs.Dialect.{are_parts, following, to_y, from_y, WroteConverted};
ghost use Rattle.word_dialect.specs.steps.Table.{Convertible, WroteRuns};

use word::{MAX_BYTES, MAX_LETTERS, Written, read_word, unpack};
use word_writer::write_word;

mod table; // table.rt: the table of sixteen runs
mod lay; // lay.rt: the runs of a word, one after another

// Are these parts of 7: not empty, without a zero, with the sum 7? More than seven parts hold a zero or have a greater
// sum.
fn are_parts(parts: &[u8]) -> bool
    ensures { result ≡ are_parts parts.now }
{
    if 7 < parts.len() {
        return false;
    }
    let mut sum = 0;
    let mut positive = true;
    for p in parts {
        sum += usize::from(*p);
        positive &= 0 < *p;
    }
    positive & (sum == 7)
}

// How many generators come after generator g in its part; 0 if g lies in no part.
fn following(parts: &[u8], g: u8) -> u8
    ensures { result ≡ following parts.now g }
{
    let mut left = g;
    for p in parts {
        if left < *p {
            return p - 1 - left;
        }
        left -= p;
    }
    0
}

// Writes the file of a converted word, or answers 34.
fn write_converted(way: bool, codes: &[u8], parts: &[u8], out: &mut [u8]) -> Written
    requires { Convertible codes.now parts.now out.old }
    ensures { WroteRuns way codes.now parts.now out.old out.new result.answer
        result.bytes }
{
    let mut runs = [0u8; 128];
    table::lay_table(&mut runs, way, parts);
    let letters = lay::letters_of(codes, &runs);
    if MAX_LETTERS < letters {
        return Written::refused(34);
    }
    let mut row = [0u8; 10008];
    lay::lay_all(&mut row, codes, &runs);
    write_word(&row[..letters], out)
}

// Either conversion: 15, the word, 33, 34. It writes the new word without free reduction.
// `way` is a bool, since the definitions `to_y`, `from_y`, `converted` and `WroteConverted` take one.
pub fn convert(way: bool, word: &[u8], parts: &[u8], out: &mut [u8]) -> Written
    ensures { WroteConverted way word.now parts.now out.old out.new
        result.answer result.bytes }
{
    if out.len() < MAX_BYTES {
        return Written::refused(15);
    }
    let w = read_word(word);
    if w.answer != 0 {
        return Written::refused(w.answer);
    }
    if !are_parts(parts) {
        return Written::refused(33);
    }
    let mut codes = [0u8; MAX_LETTERS];
    unpack(&word[2..], &mut codes);
    let n = w.letters;
    write_converted(way, &codes[..n], parts, out)
}

// Artin to Y.
pub fn to_y(word: &[u8], parts: &[u8], out: &mut [u8]) -> Written
    ensures { WroteConverted to_y word.now parts.now out.old out.new
        result.answer result.bytes }
{
    convert(true, word, parts, out)
}

// Y to Artin.
pub fn from_y(word: &[u8], parts: &[u8], out: &mut [u8]) -> Written
    ensures { WroteConverted from_y word.now parts.now out.old out.new
        result.answer result.bytes }
{
    convert(false, word, parts, out)
}
