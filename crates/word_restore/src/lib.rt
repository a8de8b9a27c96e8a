// Restores a word file from its stored form.
#![tactic(auto)]

ghost use Rattle.std.specs.Prelude.{◌+◌, ◌*◌, ◌≤◌, ◌≡◌, ◌&&◌, eqb, length, take};
ghost use mathlib.Core.List.{zip_with};
ghost use Rattle.base.specs.Questions.{first_no};
ghost use Rattle.base.specs.Lists.{overlaid};
ghost use Rattle.base.specs.Digits.{value, digits};
ghost use Rattle.base.specs.Packing.{row_filler};
ghost use Rattle.word_stored.specs.Stored.{sign_part, generator_part, letter_of, stored_codes, size_questions};
ghost use Rattle.word_stored.specs.Stored.{WroteRestored};
ghost use Rattle.word_restore.specs.steps.Restoring.{Sized, group_codes};

use word::{MAX_BYTES, MAX_LETTERS, Written};
use word_writer::write_word;

// The number of the first question about sizes that a stored form fails, 28 or 10; 0 if it passes all.
fn sizes_answer(file: &[u8]) -> u8
    ensures { result ≡ first_no (size_questions file.now) }
{
    if file.len() < 6 {
        return 28;
    }
    let letters = base::two_bytes(file, 0);
    if MAX_LETTERS < letters {
        return 10;
    }
    let signs = base::two_bytes(file, 2);
    let sign_bytes = base_rows::row_bytes(1, letters);
    if signs != sign_bytes {
        return 28;
    }
    let generators = base::two_bytes(file, 4);
    let generator_bytes = base_rows::row_bytes(3, letters);
    if generators != generator_bytes {
        return 28;
    }
    if file.len() != 6 + signs + generators {
        return 28;
    }
    0
}

// Are the filler bits after the signs and after the generators zero?
fn is_filled(file: &[u8], n: usize) -> bool
    requires { Sized file.now n }
    ensures { result
        ≡ eqb (row_filler 1 n (sign_part file.now)) 0
        && eqb (row_filler 3 n (generator_part file.now)) 0 }
{
    let at = 6 + base_rows::row_bytes(1, n);
    let signs = base_rows::filler_is_zero(&file[6..at], 1, n);
    let generators = base_rows::filler_is_zero(&file[at..], 3, n);
    signs & generators
}

// The codes of eight letters, from a byte of sign bits and a number of eight times three bits, the first letter's bits
// the highest.
fn eight_codes(signs: u8, generators: u64) -> [u8; 8]
    ensures { result ≡ zip_with letter_of (digits 2 8 signs) (digits 8 8 generators) }
{
    [
        8 * (signs / 128 % 2) + (generators / 0x200000 % 8) as u8,
        8 * (signs / 64 % 2) + (generators / 0x40000 % 8) as u8,
        8 * (signs / 32 % 2) + (generators / 0x8000 % 8) as u8,
        8 * (signs / 16 % 2) + (generators / 0x1000 % 8) as u8,
        8 * (signs / 8 % 2) + (generators / 0x200 % 8) as u8,
        8 * (signs / 4 % 2) + (generators / 0x40 % 8) as u8,
        8 * (signs / 2 % 2) + (generators / 8 % 8) as u8,
        8 * (signs % 2) + (generators % 8) as u8,
    ]
}

// Writes the codes of groups of eight letters to the front of the row of codes. A group has a byte of signs and three
// bytes of generators.
fn code_groups(signs: &[u8], generators: &[u8], groups: usize, codes: &mut [u8])
    requires { (groups ≤ length signs.now) × (3 * groups ≤ length generators.now) × (8 * groups ≤ length codes.old) }
    ensures { codes.new
        ≡ overlaid (group_codes signs.now generators.now groups) codes.old }
{
    for k in 0..groups {
        let from = 3 * k;
        let three = base::number(&generators[from..from + 3], 256);
        let at = 8 * k;
        codes[at..at + 8].copy_from_slice(&eight_codes(signs[k], three));
    }
}

// Writes the codes of a stored form to the front of the row of codes. Zero bytes after the generators make whole groups
// of eight letters.
fn unpack(file: &[u8], n: usize, codes: &mut [u8])
    requires { Sized file.now n × (length codes.old ≡ 10000) }
    ensures { take n codes.new ≡ stored_codes file.now }
{
    let groups = base_rows::row_bytes(1, n);
    let at = 6 + groups;
    let mut generators = [0u8; 3750];
    base::put(&mut generators, &file[at..]);
    code_groups(&file[6..at], &generators, groups, codes);
}

// Restoring: 15, then the stored form. It writes the word's file to the output. If the writer of words refuses the
// codes, one of them is no letter, so its generator is the number 7.
pub fn restore(stored: &[u8], out: &mut [u8]) -> Written
    ensures { WroteRestored stored.now out.old out.new result.answer result.bytes }
{
    if out.len() < MAX_BYTES {
        return Written::refused(15);
    }
    let answer = sizes_answer(stored);
    if answer != 0 {
        return Written::refused(answer);
    }
    let n = base::two_bytes(stored, 0);
    if !is_filled(stored, n) {
        return Written::refused(29);
    }
    let mut codes = [0u8; MAX_LETTERS];
    unpack(stored, n, &mut codes);
    let w = write_word(&codes[..n], out);
    if w.answer != 0 {
        return Written::refused(29);
    }
    w
}
