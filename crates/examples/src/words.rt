// Word files: read, and written from codes, from a word or from a digest; the shorter of two.
use crate::FILL;
use crate::input::first;
use word::{Letter, Written};

// Prints the answer, the number of letters, and the part that holds the codes.
pub(crate) fn read(rt: &impl Print, file: &[u8]) {
    let found = word::read_word(file);
    print::answer(rt, found.answer);
    print::number(rt, found.letters);
    print::hex(rt, word::code_part(file));
    print::text(rt, b"\n");
}

// Prints whether a letter is left, and its code.
fn show_letter(rt: &impl Print, found: Letter) {
    print::choice(rt, found.left, b": yes", b": no");
    print::byte(rt, found.code);
    print::text(rt, b"\n");
}

pub(crate) fn letter(rt: &impl Print, file: &[u8], place: &[u8]) {
    show_letter(rt, word::letter_at(file, usize::from(first(place))));
}

// Prints the second letter of a word, from a reader of words that is opened, moved on once, and read.
pub(crate) fn second(rt: &impl Print, file: &[u8]) {
    show_letter(rt, word_reader::second(file));
}

// A limit of steps: two bytes, the high one first; 0 if there are fewer.
fn limit(bytes: &[u8]) -> u16 {
    match bytes {
        [high, low, ..] => u16::from_be_bytes([*high, *low]),
        _ => 0,
    }
}

// Takes handles out of a word. Prints the answer, the number of bytes written, whether a handle is left, the bytes
// written, and whether the rest of the output kept its bytes.
pub(crate) fn handles(rt: &impl Print, word: &[u8], steps: &[u8]) {
    let mut out = [FILL; 5002];
    let done = handle_reducer::handle_reduce(word, limit(steps), &mut out);
    print::answer(rt, done.answer);
    print::number(rt, done.bytes);
    print::choice(rt, done.left, b" left", b" none");
    print::output(rt, &out, done.bytes, FILL);
}

// Prints the answer, which of two words is the shorter, and the bytes of its file. The words lie one after the other.
// The first byte of `bytes` is the length of the first word's file.
pub(crate) fn shorter(rt: &impl Print, both: &[u8], bytes: &[u8]) {
    let Some((a, b)) = both.split_at_checked(usize::from(first(bytes))) else {
        return;
    };
    let chosen = word_shorter::choose(a, b);
    print::answer(rt, chosen.answer);
    print::number(rt, usize::from(chosen.which));
    print::hex(rt, word_shorter::shorter(a, b));
    print::text(rt, b"\n");
}

// Writes a word file: L from codes, F by free reduction, D from a digest, R by rewriting.
fn written(operation: u8, from: &[u8], moves: &[u8], out: &mut [u8]) -> Written {
    match operation {
        b'L' => word_writer::write_word(from, out),
        b'F' => word_reduction::free_reduce(from, out),
        b'D' => slip_encoder::encode(from, out),
        _ => move_rewriter::rewrite(from, moves, out),
    }
}

// Prints the answer, the number of bytes written, the bytes written, and whether the rest of the output kept its bytes.
fn write_into(rt: &impl Print, operation: u8, from: &[u8], moves: &[u8], out: &mut [u8]) {
    let done = written(operation, from, moves, out);
    print::answer(rt, done.answer);
    print::number(rt, done.bytes);
    print::output(rt, out, done.bytes, FILL);
}

// Writes a word file to an output of 5,002 bytes, less the number in `lacks`.
pub(crate) fn write(rt: &impl Print, operation: u8, from: &[u8], moves: &[u8], lacks: &[u8]) {
    let start = usize::from(first(lacks));
    let mut out = [FILL; 5002];
    write_into(rt, operation, from, moves, &mut out[start..]);
}
