// Key files, cloaking and verdicts.
use crate::input::first;
use crate::{FILL, show};
use field::Field;
use key::Key;

// The plain key: N, q, the T-values 1 1 2 3 4 5 6 7, the identity matrix, the list 0 to 7, and the identity matrix
// again.
const PLAIN: [u8; 83] =
    *b"\x08\x00\x20\x08\x44\x32\x14\xC7\x08\x00\x00\x00\x00\x00\x40\x00\x00\x00\x00\x02\x00\x00\x00\x00\x00\x10\x00\x00\x00\x00\x00\x80\x00\x00\x00\x00\x04\x00\x00\x00\x00\x00\x20\x08\x05\x39\x77\x08\x00\x00\x00\x00\x00\x40\x00\x00\x00\x00\x02\x00\x00\x00\x00\x00\x10\x00\x00\x00\x00\x00\x80\x00\x00\x00\x00\x04\x00\x00\x00\x00\x00\x20\x08";

// The plain key over the larger field. Each T-value and entry is one byte.
const PLAIN_LARGER: [u8; 128] =
    *b"\x08\x01\x00\x01\x01\x02\x03\x04\x05\x06\x07\x01\x00\x00\x00\x00\x00\x00\x00\x00\x01\x00\x00\x00\x00\x00\x00\x00\x00\x01\x00\x00\x00\x00\x00\x00\x00\x00\x01\x00\x00\x00\x00\x00\x00\x00\x00\x01\x00\x00\x00\x00\x00\x00\x00\x00\x01\x00\x00\x00\x00\x00\x00\x00\x00\x01\x00\x01\x05\x39\x77\x01\x00\x00\x00\x00\x00\x00\x00\x00\x01\x00\x00\x00\x00\x00\x00\x00\x00\x01\x00\x00\x00\x00\x00\x00\x00\x00\x01\x00\x00\x00\x00\x00\x00\x00\x00\x01\x00\x00\x00\x00\x00\x00\x00\x00\x01\x00\x00\x00\x00\x00\x00\x00\x00\x01\x00\x01";

// The plain key with `bytes` in place of its first bytes.
fn file(bytes: &[u8]) -> [u8; 83] {
    let mut file = PLAIN;
    base::put(&mut file, bytes);
    file
}

// Prints the T-values, then the pair, then the second matrix.
fn show_key(rt: &impl Print, key: Key) {
    print::text(rt, b"\nT-values");
    print::hex(rt, &key.t_values);
    print::text(rt, b"\nPub(S)");
    show::pair(rt, key.pair);
    print::text(rt, b"matrix of Pub(S')");
    show::rows(rt, &key.second);
}

// Is the key that of a refusal? It is all zeros, and its field is the one with 32 elements.
fn is_zeros(key: Key) -> bool {
    !field::is_large(key.field)
        && show::is_zero_pair(key.pair)
        && show::is_zeros(&key.second, &key.t_values)
}

pub(crate) fn read(rt: &impl Print, file: &[u8]) {
    let found = key_reader::read_key(file);
    print::answer(rt, found.answer);
    if found.answer == 0 {
        show_key(rt, found.key);
    } else {
        show::zeros(rt, is_zeros(found.key));
    }
}

// The number of bytes that the key writer writes: 83, or 0 on a refusal.
fn left(answer: u8) -> usize {
    if answer == 0 { 83 } else { 0 }
}

// Writes a key with the same matrix twice, and prints the result.
fn write_into(
    rt: &impl Print,
    t_values: &[u8; 8],
    labels: &[u8; 8],
    matrix: &[u8; 57],
    out: &mut [u8],
) {
    let answer = key_writer::write_key(t_values, labels, matrix, matrix, out, Field::Gf32);
    print::answer(rt, answer);
    print::output(rt, out, left(answer), FILL);
}

// Writes a key of T-values, labels and 57 entries, which serve for both matrices. The output has 90 bytes, less the
// number in `lacks`.
pub(crate) fn write(rt: &impl Print, t_values: &[u8], labels: &[u8], entries: &[u8], lacks: &[u8]) {
    let mut ts = [0u8; 8];
    base::put(&mut ts, t_values);
    let mut eight = [0u8; 8];
    base::put(&mut eight, labels);
    let mut matrix = [0u8; 57];
    base::put(&mut matrix, entries);
    let start = usize::from(first(lacks)) % 90;
    let mut out = [FILL; 90];
    write_into(rt, &ts, &eight, &matrix, &mut out[start..]);
}

// Does a word cloak for a list, under the plain key with `key` in place of its first bytes?
pub(crate) fn cloaks(rt: &impl Print, labels: &[u8], word: &[u8], key: &[u8]) {
    let file = file(key);
    let found = slip_cloaking::cloaks(&file, labels, word);
    print::answer(rt, found.answer);
    print::choice(rt, found.yes, b" yes\n", b" no\n");
}

// The verdict on a digest and a word, under the plain key with `key` in place of its first bytes.
pub(crate) fn verdict(rt: &impl Print, digest: &[u8], word: &[u8], key: &[u8]) {
    let file = file(key);
    print::line(rt, slip_verdict::verify(&file, digest, word), b"");
}

// The verdict on a digest and a word, under the plain key over the larger field.
pub(crate) fn larger_verdict(rt: &impl Print, digest: &[u8], word: &[u8]) {
    print::line(rt, slip_verdict::verify(&PLAIN_LARGER, digest, word), b"");
}
