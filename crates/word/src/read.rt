// The word reader: the questions of a word file in the paper's order, the part that holds the codes, and the letter at
// a place.
ghost use Rattle.std.specs.Prelude.{◌+◌, ◌*◌, ◌/◌, ◌%◌, ◌≤◌, ◌<◌, ◌≡◌, ◌&&◌, eqb, length, take, drop, get_or};
ghost use Rattle.base.specs.Lists.{every};
ghost use Rattle.base.specs.Digits.{halves};
ghost use Rattle.word.specs.Letters.{is_letter, inverse};
ghost use Rattle.word.specs.Words.{stated, word_answer, code_part, Read, LetterAt};

use crate::{Letter, MAX_LETTERS, Word};

// The half byte at place k, where a byte's high half comes before its low half. Past the end it is 0.
pub fn half(bytes: &[u8], k: usize) -> u8
    ensures { result ≡ get_or (halves bytes.now) k 0 }
{
    let at = k / 2;
    if bytes.len() <= at {
        return 0;
    }
    if k % 2 == 0 {
        return bytes[at] / 16;
    }
    bytes[at] % 16
}

// Is the code a letter: one of b1 to b7, or an inverse?
pub fn is_letter(c: u8) -> bool
    ensures { result ≡ is_letter c }
{
    c <= 6 || (8 <= c && c <= 14)
}

// The code of the letter's inverse: the same generator with the other sign.
pub fn inverse(c: u8) -> u8
    ensures { result ≡ inverse c }
{
    c ^ 8
}

// The number of letters that a file states in its first two bytes.
pub fn stated(file: &[u8]) -> usize
    requires { 2 ≤ length file.now }
    ensures { (result ≡ stated file.now) × (result < 65536) }
{
    base::two_bytes(file, 0)
}

// Are both half bytes of the byte letters? Only the half bytes 7 and 15 are no letters.
fn both_letters(b: u8) -> bool
    ensures { result ≡ is_letter (b / 16) && is_letter (b % 16) }
{
    (b / 16 % 8 != 7) & (b % 8 != 7)
}

// Is every half byte of the bytes a letter? The loop never ends early, so the compiled code tests many bytes at once.
fn whole_letters(bytes: &[u8]) -> bool
    ensures { result ≡ every is_letter (halves bytes.now) }
{
    let mut lettered = true;
    for b in bytes {
        lettered &= both_letters(*b);
    }
    lettered
}

// Are the first n half bytes letters, or all half bytes if there are fewer? The whole bytes are tested first. If n is
// odd, one more half byte is tested. Past the end the half byte counts as 0, which is a letter.
fn all_letters(part: &[u8], n: usize) -> bool
    ensures { result ≡ every is_letter (take n (halves part.now)) }
{
    let whole = whole_letters(&part[..(n / 2).min(part.len())]);
    if n % 2 == 0 {
        return whole;
    }
    whole & is_letter(half(part, n - 1))
}

// Is the half byte after the first n half bytes 0, if there is one?
fn is_filled(part: &[u8], n: usize) -> bool
    requires { 2 * length part.now ≤ n + 1 }
    ensures { result ≡ every (λ h. eqb h 0) (drop n (halves part.now)) }
{
    half(part, n) == 0
}

// The number of the first question that a word file fails, 9 to 13; 0 if it passes all.
fn word_answer(file: &[u8]) -> u8
    ensures { result ≡ word_answer file.now }
{
    if file.len() < 2 {
        return 9;
    }
    let n = stated(file);
    if MAX_LETTERS < n {
        return 10;
    }
    if file.len() != 2 + (n + 1) / 2 {
        return 11;
    }
    let part = &file[2..];
    if !all_letters(part, n) {
        return 12;
    }
    if !is_filled(part, n) {
        return 13;
    }
    0
}

// The word reader returns the answer and the number of letters.
pub fn read_word(file: &[u8]) -> Word
    ensures { Read file.now result.answer result.letters }
{
    let answer = word_answer(file);
    if answer != 0 {
        return Word::refused(answer);
    }
    let letters = stated(file);
    Word { answer: 0, letters }
}

// The part of the file that holds the codes; empty on a refusal.
pub fn code_part(file: &[u8]) -> &[u8]
    ensures { result.now ≡ code_part file.now }
{
    let w = read_word(file);
    if w.answer == 0 {
        return &file[2..];
    }
    &file[..0]
}

// The letter at a place, counted from 0.
pub fn letter_at(file: &[u8], place: usize) -> Letter
    ensures { LetterAt file.now place result.left result.code }
{
    let w = read_word(file);
    if place < w.letters {
        let part = &file[2..];
        let code = half(part, place);
        return Letter { left: true, code };
    }
    Letter {
        left: false,
        code: 0,
    }
}
