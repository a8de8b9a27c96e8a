// Stores a word file: writes its stored form, with signs and generators apart.
#![tactic(auto)]

ghost use Rattle.std.specs.Prelude.{ℕ, ◌+◌, ◌*◌, ◌/◌, ◌%◌, ◌^◌, ◌≤◌, ◌<◌, ◌≡◌, refl, ◌++◌, map, length, take};
ghost use Rattle.base.specs.Lists.{overlaid};
ghost use Rattle.base.specs.Digits.{value, digits, part, halves};
ghost use Rattle.word_stored.specs.Stored.{WroteStored};
ghost use Rattle.word_store.specs.steps.Storing.{Storable, WritesStored};

use word::{Written, read_word};

// The limit of a stored form: its bytes.
pub const MAX_STORED: usize = 5006;

// The sign bits of the two codes in a byte. A code's sign is its high bit.
fn two_signs(byte: u8) -> u64
    ensures { (result ≡ byte / 16 / 8 * 2 + byte % 16 / 8) × (result < 4) }
{
    (byte / 128 * 2 + byte / 8 % 2) as u64
}

// The generator numbers less one of the two codes in a byte, three bits each.
fn two_generators(byte: u8) -> u64
    ensures { (result ≡ byte / 16 % 8 * 8 + byte % 16 % 8) × (result < 64) }
{
    (byte / 16 % 8 * 8 + byte % 8) as u64
}

// The sign bits of the eight codes in four bytes, the first code's bit the highest.
fn eight_signs(bytes: &[u8], at: usize) -> u64
    requires { at + 4 ≤ length bytes.now }
    ensures { (result ≡ value 2 (map (λ c. c / 8) (halves (part at 4 bytes.now)))) × (result < 256) }
{
    let a = two_signs(bytes[at]);
    let b = two_signs(bytes[at + 1]);
    let c = two_signs(bytes[at + 2]);
    let d = two_signs(bytes[at + 3]);
    ((a * 4 + b) * 4 + c) * 4 + d
}

// The generator numbers less one of the eight codes in four bytes, three bits each, the first code's the highest. One
// function of both would be no plainer: it needs the factor as a constant and a proof for any factor.
fn eight_generators(bytes: &[u8], at: usize) -> u64
    requires { at + 4 ≤ length bytes.now }
    ensures { (result ≡ value 8 (map (λ c. c % 8) (halves (part at 4 bytes.now)))) × (result < 16777216) }
{
    let a = two_generators(bytes[at]);
    let b = two_generators(bytes[at + 1]);
    let c = two_generators(bytes[at + 2]);
    let d = two_generators(bytes[at + 3]);
    ((a * 64 + b) * 64 + c) * 64 + d
}

// A part of each code that the stored form keeps together: the signs or the generators. The parts of eight codes fill
// whole bytes, and they are digits to a base.
trait Kept {
    ghost of: { ℕ → ℕ };

    ghost base: { ℕ };

    ghost BYTES: { ℕ };

    const BYTES: usize;

    // The number that the parts of the eight codes in four bytes write, the first code's part first.
    fn eight(bytes: &[u8], at: usize) -> u64
        requires { at + 4 ≤ length bytes.now }
        ensures { (result ≡ value base (map of (halves (part at 4 bytes.now)))) × (result < 256 ^ BYTES) };

    ghost full: { base ^ 8 ≡ 256 ^ BYTES };
}

// A code's sign is its high bit.
struct Signs;

impl Kept for Signs {
    ghost of = { λ c. c / 8 };

    ghost base = { 2 };

    ghost BYTES = { 1 };

    const BYTES: usize = 1;

    fn eight(bytes: &[u8], at: usize) -> u64 {
        eight_signs(bytes, at)
    }

    ghost full = { refl };
}

// A code's generator number less one is its low three bits.
struct Generators;

impl Kept for Generators {
    ghost of = { λ c. c % 8 };

    ghost base = { 8 };

    ghost BYTES = { 3 };

    const BYTES: usize = 3;

    fn eight(bytes: &[u8], at: usize) -> u64 {
        eight_generators(bytes, at)
    }

    ghost full = { refl };
}

// Writes the parts of groups of eight codes, `BYTES` bytes for each group.
fn write_groups<K: Kept>(bytes: &[u8], groups: usize, out: &mut [u8])
    requires { (4 * groups ≤ length bytes.now) × (K.BYTES * groups ≤ length out.old) }
    ensures { out.new
        ≡ overlaid (digits 256 (K.BYTES * groups) (value K.base (map K.of (halves (take (4 * groups) bytes.now)))))
        out.old }
{
    for k in 0..groups {
        let at = K::BYTES * k;
        base::spell(&mut out[at..at + K::BYTES], 256, K::eight(bytes, 4 * k));
    }
}

// Writes the three sizes to the front of the output, two bytes each, the high byte first.
fn write_sizes(out: &mut [u8], letters: usize, signs: usize, generators: usize)
    requires { (6 ≤ length out.old) × (letters < 65536) × (signs < 65536) × (generators < 65536) }
    ensures { out.new
        ≡ overlaid (digits 256 2 letters ++ (digits 256 2 signs ++ digits 256 2 generators)) out.old }
{
    let [a, b] = (letters as u16).to_be_bytes();
    let [c, d] = (signs as u16).to_be_bytes();
    let [e, f] = (generators as u16).to_be_bytes();
    out[..6].copy_from_slice(&[a, b, c, d, e, f]);
}

// Writes the stored form of the n codes of an accepted word to the front of the output. `part` is the part of the
// word's file that holds the codes. Zero bytes after it make whole groups of eight codes. Returns the number of bytes
// written.
fn write_stored(part: &[u8], n: usize, out: &mut [u8]) -> usize
    requires { Storable part.now n × (5006 ≤ length out.old) }
    ensures { WritesStored part.now n out.old out.new result }
{
    let groups = base_rows::row_bytes(1, n);
    let generators = base_rows::row_bytes(3, n);
    write_sizes(out, n, groups, generators);
    let mut whole = [0u8; 5000];
    base::put(&mut whole, part);
    write_groups::<Signs>(&whole, groups, &mut out[6..]);
    let mut row = [0u8; 3750];
    write_groups::<Generators>(&whole, groups, &mut row);
    let at = 6 + groups;
    base::put(&mut out[at..], &row[..generators]);
    at + generators
}

// Storing: 15, with a limit of its own, then the word. It writes the word's stored form to the output.
pub fn store(word: &[u8], out: &mut [u8]) -> Written
    ensures { WroteStored word.now out.old out.new result.answer result.bytes }
{
    if out.len() < MAX_STORED {
        return Written::refused(15);
    }
    let w = read_word(word);
    let answer = w.answer;
    if answer != 0 {
        return Written::refused(answer);
    }
    let letters = w.letters;
    let bytes = write_stored(&word[2..], letters, out);
    Written { answer: 0, bytes }
}
