// Shortening of a word file: the shorter of two words that arcs give, with handle reduction before and without.
#![tactic(auto)]

ghost use Rattle.word_shortener.specs.Shortener.{Shortened};

use routes::shorten_codes;
use word::{MAX_BYTES, MAX_LETTERS, Written, read_word, unpack};
use word_writer::write_word;

mod routes; // routes.rt: the two ways to a shorter word

// Shortening: 15, then the word. It writes a word with the same meaning and no more letters. `effort` is the number of
// steps of the search for each letter. Effort 0 swaps and cancels letters, and searches nothing.
pub fn shorten_word(word: &[u8], effort: u16, out: &mut [u8]) -> Written
    ensures { Shortened effort word.now out.old out.new result.answer result.bytes }
{
    if out.len() < MAX_BYTES {
        return Written::refused(15);
    }
    let w = read_word(word);
    let answer = w.answer;
    if answer != 0 {
        return Written::refused(answer);
    }
    let mut codes = [0u8; MAX_LETTERS];
    unpack(&word[2..], &mut codes);
    let mut copy = codes;
    let n = shorten_codes(&mut codes, &mut copy, w.letters, effort);
    write_word(&codes[..n], out)
}
