// The letters of a word file, in plain lines, for the tests. Standard input is the file. The lines are the part that
// holds the codes; the letter at each place, up to the first place where none is left and the place after it; and the
// second letter, by a reader of words. The typed run has document 01's word of seven letters.
#![tactic(auto)]

use std::io::Input;
use word::Letter;

// Prints whether a letter is left, and its code.
fn letter(rt: &impl Print, found: Letter) {
    print::choice(rt, found.left, b" yes", b" no");
    print::byte(rt, found.code);
}

// Prints the line of a place, and returns whether a letter is left there.
fn line(rt: &impl Print, file: &[u8], place: usize) -> bool {
    let found = word::letter_at(file, place);
    let left = found.left;
    print::text(rt, b"place");
    print::number(rt, place);
    letter(rt, found);
    print::text(rt, b"\n");
    left
}

// Prints a line for each letter, for the first place where none is left, and for the place after it.
fn lines(rt: &impl Print, file: &[u8]) {
    for place in 0..=word::MAX_LETTERS {
        if !line(rt, file, place) {
            line(rt, file, place + 1);
            return;
        }
    }
}

fn show(rt: &impl Print, file: &[u8]) {
    print::text(rt, b"codes");
    print::hex(rt, word::code_part(file));
    print::text(rt, b"\n");
    lines(rt, file);
    print::text(rt, b"second");
    letter(rt, word_reader::second(file));
    print::text(rt, b"\n");
}

fn main(rt: HostRuntime) {
    let mut input = [0u8; 5003];
    let n = desk_io::read_full(&mut rt.reader(), &mut input);
    show(&rt, &input[..n]);
}
