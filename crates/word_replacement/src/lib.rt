// Pair replacement in Y words, for parts 4 and 3, by the relations of source 000's Appendix A.
#![tactic(auto)]

ghost use Rattle.std.specs.Prelude.{◌+◌, ◌≤◌, ◌<◌, ◌≡◌, true, ◌++◌, length, take, drop};
ghost use Rattle.base.specs.Digits.{part};
ghost use Rattle.word.specs.Letters.{is_letter};
ghost use Rattle.word_dialect.specs.Dialect.{inverted};
ghost use Rattle.braid_relations.specs.Relations.{relations, replacement};
ghost use Rattle.word_replacement.specs.Replacement.{ReplacedPair};
ghost use Rattle.word_replacement.specs.steps.Rows.{flat, PairFound, filled, Replaceable, WroteReplaced};

use word::{MAX_BYTES, MAX_LETTERS, Written, inverse, read_word, unpack};
use word_writer::write_word;

// The relations of Appendix A in its order, a line for each: the codes of the row's letters, then 15 up to ten.
static RELATIONS: [u8; 790] = [
    3, 6, 11, 14, 15, 15, 15, 15, 15, 15, 14, 3, 6, 11, 15, 15, 15, 15, 15, 15, 6, 3, 14, 11, 15,
    15, 15, 15, 15, 15, 1, 0, 3, 8, 8, 15, 15, 15, 15, 15, 2, 1, 3, 9, 9, 15, 15, 15, 15, 15, 5, 4,
    6, 12, 12, 15, 15, 15, 15, 15, 6, 5, 6, 13, 13, 15, 15, 15, 15, 15, 8, 1, 0, 3, 8, 15, 15, 15,
    15, 15, 9, 2, 1, 3, 9, 15, 15, 15, 15, 15, 12, 5, 4, 6, 12, 15, 15, 15, 15, 15, 13, 6, 5, 6,
    13, 15, 15, 15, 15, 15, 0, 0, 11, 8, 9, 15, 15, 15, 15, 15, 1, 1, 11, 9, 10, 15, 15, 15, 15,
    15, 4, 4, 14, 12, 13, 15, 15, 15, 15, 15, 5, 5, 14, 13, 14, 15, 15, 15, 15, 15, 9, 0, 0, 11, 8,
    15, 15, 15, 15, 15, 10, 1, 1, 11, 9, 15, 15, 15, 15, 15, 13, 4, 4, 14, 12, 15, 15, 15, 15, 15,
    14, 5, 5, 14, 13, 15, 15, 15, 15, 15, 2, 2, 11, 10, 11, 15, 15, 15, 15, 15, 5, 5, 14, 13, 14,
    15, 15, 15, 15, 15, 11, 2, 2, 11, 10, 15, 15, 15, 15, 15, 14, 5, 5, 14, 13, 15, 15, 15, 15, 15,
    3, 2, 3, 10, 10, 15, 15, 15, 15, 15, 6, 5, 6, 13, 13, 15, 15, 15, 15, 15, 0, 9, 3, 1, 8, 11,
    15, 15, 15, 15, 1, 10, 3, 2, 9, 11, 15, 15, 15, 15, 3, 5, 14, 11, 6, 13, 15, 15, 15, 15, 0, 9,
    6, 1, 8, 14, 15, 15, 15, 15, 1, 10, 6, 2, 9, 14, 15, 15, 15, 15, 2, 11, 6, 3, 10, 14, 15, 15,
    15, 15, 4, 13, 6, 5, 12, 14, 15, 15, 15, 15, 11, 0, 9, 3, 1, 8, 15, 15, 15, 15, 11, 1, 10, 3,
    2, 9, 15, 15, 15, 15, 13, 3, 5, 14, 11, 6, 15, 15, 15, 15, 14, 0, 9, 6, 1, 8, 15, 15, 15, 15,
    14, 1, 10, 6, 2, 9, 15, 15, 15, 15, 14, 2, 11, 6, 3, 10, 15, 15, 15, 15, 14, 4, 13, 6, 5, 12,
    15, 15, 15, 15, 3, 0, 9, 11, 1, 8, 15, 15, 15, 15, 3, 1, 10, 11, 2, 9, 15, 15, 15, 15, 5, 14,
    3, 6, 13, 11, 15, 15, 15, 15, 6, 0, 9, 14, 1, 8, 15, 15, 15, 15, 6, 1, 10, 14, 2, 9, 15, 15,
    15, 15, 6, 2, 11, 14, 3, 10, 15, 15, 15, 15, 6, 4, 13, 14, 5, 12, 15, 15, 15, 15, 0, 10, 0, 9,
    2, 8, 2, 9, 15, 15, 1, 11, 1, 10, 3, 9, 3, 10, 15, 15, 4, 14, 4, 13, 6, 12, 6, 13, 15, 15, 9,
    0, 10, 0, 9, 2, 8, 2, 15, 15, 10, 1, 11, 1, 10, 3, 9, 3, 15, 15, 13, 4, 14, 4, 13, 6, 12, 6,
    15, 15, 1, 10, 0, 10, 1, 8, 2, 8, 15, 15, 2, 11, 1, 11, 2, 9, 3, 9, 15, 15, 5, 14, 4, 14, 5,
    12, 6, 12, 15, 15, 0, 9, 2, 11, 1, 8, 3, 10, 15, 15, 0, 9, 4, 13, 1, 8, 5, 12, 15, 15, 1, 10,
    4, 13, 2, 9, 5, 12, 15, 15, 2, 11, 4, 13, 3, 10, 5, 12, 15, 15, 0, 9, 5, 14, 1, 8, 6, 13, 15,
    15, 1, 10, 5, 14, 2, 9, 6, 13, 15, 15, 2, 11, 5, 14, 3, 10, 6, 13, 15, 15, 10, 0, 9, 2, 11, 1,
    8, 3, 15, 15, 12, 0, 9, 4, 13, 1, 8, 5, 15, 15, 12, 1, 10, 4, 13, 2, 9, 5, 15, 15, 12, 2, 11,
    4, 13, 3, 10, 5, 15, 15, 13, 0, 9, 5, 14, 1, 8, 6, 15, 15, 13, 1, 10, 5, 14, 2, 9, 6, 15, 15,
    13, 2, 11, 5, 14, 3, 10, 6, 15, 15, 2, 11, 0, 9, 3, 10, 1, 8, 15, 15, 4, 13, 0, 9, 5, 12, 1, 8,
    15, 15, 4, 13, 1, 10, 5, 12, 2, 9, 15, 15, 4, 13, 2, 11, 5, 12, 3, 10, 15, 15, 5, 14, 0, 9, 6,
    13, 1, 8, 15, 15, 5, 14, 1, 10, 6, 13, 2, 9, 15, 15, 5, 14, 2, 11, 6, 13, 3, 10, 15, 15, 3, 4,
    13, 3, 5, 12, 11, 5, 12, 15, 12, 3, 4, 13, 3, 5, 12, 11, 5, 15, 4, 13, 3, 4, 13, 11, 5, 12, 11,
    15,
];

// The rows, for reading.
fn rows() -> &'static [u8; 790]
    ensures { result.now ≡ flat relations }
{
    &RELATIONS
}

// The first place that holds c and d one after the other, if there is one.
fn find(rows: &[u8], c: u8, d: u8) -> Option<usize>
    ensures { PairFound c d rows.now result }
{
    for k in 1..rows.len() {
        if rows[k - 1] == c && rows[k] == d {
            return Some(k - 1);
        }
    }
    None
}

// The number of entries from place `from` on before the first 15.
fn letters_from(rows: &[u8], from: usize) -> usize
    requires { from ≤ length rows.now }
    ensures { result ≡ filled (drop from rows.now) }
{
    for k in from..rows.len() {
        if rows[k] == 15 {
            return k - from;
        }
    }
    rows.len() - from
}

// Writes the inverse of n entries of the rows, from place `from` on, to a row of codes, from place `at` on: the inverse
// of each letter, from the last to the first.
fn put_inverses(codes: &mut [u8], at: usize, rows: &[u8], from: usize, n: usize)
    requires { (at + n ≤ length codes.old) × (from + n ≤ length rows.now) }
    ensures { take (at + n) codes.new
        ≡ take at codes.old ++ inverted (part from n rows.now) }
{
    for i in 0..n {
        codes[at + i] = inverse(rows[from + (n - 1 - i)]);
    }
}

// Writes what letters c and d become, from place `at` on, and returns the place after it.
fn put_replacement(codes: &mut [u8], at: usize, c: u8, d: u8) -> usize
    requires { (is_letter c ≡ true) × (is_letter d ≡ true) × (at + 9 ≤ length codes.old) }
    ensures { (result ≡ at + length (replacement relations c d)) × (result ≤ at + 9)
        × (take result codes.new ≡ take at codes.old ++ replacement relations c d) }
{
    let rows = rows();
    let Some(k) = find(rows, c, d) else {
        codes[at] = c;
        codes[at + 1] = d;
        return at + 2;
    };
    let before = k % 10;
    let after = letters_from(rows, k + 2);
    let middle = at + before;
    put_inverses(codes, at, rows, k - before, before);
    put_inverses(codes, middle, rows, k + 2, after);
    middle + after
}

// Writes the file of the word with the pair at a place replaced, or answers 34.
fn write_replaced(codes: &[u8], place: usize, out: &mut [u8]) -> Written
    requires { Replaceable codes.now place out.old }
    ensures { WroteReplaced codes.now place out.old out.new result.answer result.bytes }
{
    let mut row = [0u8; 10008];
    base::put(&mut row, codes);
    let at = put_replacement(&mut row, place, codes[place], codes[place + 1]);
    let end = at + (codes.len() - place - 2);
    if MAX_LETTERS < end {
        return Written::refused(34);
    }
    base::put(&mut row[at..end], &codes[place + 2..]);
    write_word(&row[..end], out)
}

// Pair replacement: 15, the word, 22, 34. The place counts from 0. If no row holds the two letters, the output is the
// word itself.
pub fn replace_pair(word: &[u8], place: usize, out: &mut [u8]) -> Written
    ensures { ReplacedPair word.now place out.old out.new result.answer result.bytes }
{
    if out.len() < MAX_BYTES {
        return Written::refused(15);
    }
    let w = read_word(word);
    if w.answer != 0 {
        return Written::refused(w.answer);
    }
    let n = w.letters;
    if n < 2 {
        return Written::refused(22);
    }
    if n - 2 < place {
        return Written::refused(22);
    }
    let mut codes = [0u8; MAX_LETTERS];
    unpack(&word[2..], &mut codes);
    write_replaced(&codes[..n], place, out)
}
