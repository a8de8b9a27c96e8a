// A slip at the desk: the line to write for it, and how much of an input to read. The functions take arrays whose sizes
// are given here and in `desk_line`, so a program cannot hand in a buffer of another size.
#![tactic(auto)]

ghost use Rattle.std.specs.Prelude.{◌≤◌, ◌≡◌, eqb, length};
ghost use Rattle.base.specs.Digits.{value, part as part_of};
ghost use Rattle.desk_line.specs.Desk.{Tells};
ghost use Rattle.desk_slip.specs.Slips.{cut_verdict, desk_verdict, input_line, files_line};
ghost use Rattle.desk_slip.specs.Slips.{EnoughOfInput, EnoughOfFiles};
ghost use Rattle.desk_slip.specs.Copies.{FirstHalfOf, copy_answer, GivesVerdicts, copy_line, slip_line};

use desk_line::{DIGEST_ROOM, Got, KEY_ROOM, Line, WORD_ROOM, all_read, answer_line};
use slip_verdict::Halved;

// The bytes of a key and of a digest, over GF(32) and over GF(256).
const KEY: usize = key::SMALL_BYTES;

const DIGEST: usize = 32;

const LARGE_KEY: usize = key::LARGE_BYTES;

const LARGE_DIGEST: usize = 64;

// The bytes to read of a slip whose parts lie end to end.
pub const INPUT_ROOM: usize = LARGE_KEY + LARGE_DIGEST + WORD_ROOM;

// Do bytes 1 and 2, counted from 0, say 256?
fn says_256(input: &[u8]) -> bool
    ensures { result ≡ eqb (value 256 (part_of 1 2 input.now)) 256 }
{
    if input.len() < 3 {
        return false;
    }
    base::two_bytes(input, 1) == 256
}

// The verdict on a slip whose key of k bytes, digest of d bytes and signature lie end to end. The input may end within
// any of them.
fn cut(input: &[u8], k: usize, d: usize) -> u8
    requires { (k ≤ 128) × (d ≤ 64) }
    ensures { result ≡ cut_verdict k d input.now }
{
    let key = text::part(input, 0, k);
    let digest = text::part(input, k, d);
    let word = text::part(input, k + d, WORD_ROOM);
    slip_verdict::verify(key, digest, word)
}

// The verdict on a slip whose parts lie end to end. The field that the slip names tells where it is cut.
fn judged(input: &[u8]) -> u8
    ensures { result ≡ desk_verdict input.now }
{
    if says_256(input) {
        cut(input, LARGE_KEY, LARGE_DIGEST)
    } else {
        cut(input, KEY, DIGEST)
    }
}

// The line for a slip whose parts lie end to end. If it could not be read, there is no line.
pub fn input_line(input: &[u8; INPUT_ROOM], got: Got) -> Line
    ensures tells { Tells (input_line got input.now) result.bytes result.text }
    ensures enough_of_input { EnoughOfInput (length input.now) }
{
    if !got.read {
        return Line::none();
    }
    answer_line(judged(text::part(input, 0, got.bytes)))
}

// The line for a slip in three files. If one of them could not be read, there is no line.
pub fn files_line(
    key: &[u8; KEY_ROOM],
    digest: &[u8; DIGEST_ROOM],
    word: &[u8; WORD_ROOM],
    k: Got,
    d: Got,
    w: Got,
) -> Line
    ensures tells { Tells (files_line k d w key.now digest.now word.now) result.bytes result.text }
    ensures enough_of_files { EnoughOfFiles (length key.now) (length digest.now) (length word.now) }
{
    if !all_read(k, d, w) {
        return Line::none();
    }
    let key = text::part(key, 0, k.bytes);
    let digest = text::part(digest, 0, d.bytes);
    let word = text::part(word, 0, w.bytes);
    answer_line(slip_verdict::verify(key, digest, word))
}

// The line for one of several slips in files. If one of its three files could not be read, the line is "no answer".
pub fn slip_line(
    key: &[u8; KEY_ROOM],
    digest: &[u8; DIGEST_ROOM],
    word: &[u8; WORD_ROOM],
    k: Got,
    d: Got,
    w: Got,
) -> Line
    ensures tells { Tells (slip_line k d w key.now digest.now word.now) result.bytes result.text }
    ensures enough_of_files { EnoughOfFiles (length key.now) (length digest.now) (length word.now) }
{
    if !all_read(k, d, w) {
        return Line::no_answer();
    }
    files_line(key, digest, word, k, d, w)
}

// What key and digest give for all copies of a slip: could both files be read, and the first half of the verdict on the
// bytes that were read.
#[derive(Clone, Copy)]
pub struct FirstHalf {
    pub read: bool,
    pub made: Halved,
}

// The first half of the verdict on a slip in files, by which each copy is judged. If the key or the digest could not be
// read, no copy is judged.
pub fn first_half(key: &[u8; KEY_ROOM], digest: &[u8; DIGEST_ROOM], k: Got, d: Got) -> FirstHalf
    ensures first_half_of { FirstHalfOf k d key.now digest.now result.read result.made }
    ensures enough_of_files { EnoughOfFiles (length key.now) (length digest.now) 5003 }
{
    let key = text::part(key, 0, k.bytes);
    let digest = text::part(digest, 0, d.bytes);
    FirstHalf {
        read: k.read & d.read,
        made: slip_verdict::first_half(key, digest),
    }
}

// The answer to a copy: the first half's refusal, or the answer of the second.
fn copy_answer(made: Halved, word: &[u8]) -> u8
    ensures { result ≡ copy_answer made word.now }
{
    let refusal = made.answer;
    if refusal != 0 {
        return refusal;
    }
    slip_verdict::second_half(made.half, word)
}

// The line for a copy. If the copy could not be read, the line is "no answer".
pub fn copy_line(made: Halved, word: &[u8; WORD_ROOM], w: Got) -> Line
    ensures tells { Tells (copy_line made w word.now) result.bytes result.text }
    ensures gives_verdicts { GivesVerdicts made }
    ensures enough_of_files { EnoughOfFiles 129 65 (length word.now) }
{
    if !w.read {
        return Line::no_answer();
    }
    answer_line(copy_answer(made, text::part(word, 0, w.bytes)))
}
