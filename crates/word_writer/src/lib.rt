// The writer of word files from codes. It asks questions 15, 10 and 12, then writes the file to the output's first
// bytes.
#![tactic(auto)]

ghost use Rattle.std.specs.Prelude.{◌+◌, ◌*◌, ◌/◌, ◌≤◌, ◌<◌, ◌≡◌, true, length, take, get_or};
ghost use Rattle.base.specs.Lists.{every, overlaid};
ghost use Rattle.word.specs.Letters.{is_letter};
ghost use Rattle.word.specs.Words.{needed, packed, word_file, WroteWord};

use word::{MAX_BYTES, MAX_LETTERS, Written, is_letter};

// Is every code a letter? The loop never ends early, so the compiled code tests many codes at once.
fn all_codes(codes: &[u8]) -> bool
    ensures { result ≡ every is_letter codes.now }
{
    let mut lettered = true;
    for c in codes {
        lettered &= is_letter(*c);
    }
    lettered
}

// Packs two codes into one byte, the earlier in the high half. The two codes form a number of two bytes, the later code
// in the high byte. That number times 4,097 has the packed byte as its second byte. The compiler turns this product
// into operations on many pairs at once.
fn two_codes(codes: &[u8], at: usize) -> u8
    requires { (at + 2 ≤ length codes.now) × (get_or codes.now at 0 < 16) × (get_or codes.now (at + 1) 0 < 16) }
    ensures { result ≡ get_or codes.now at 0 * 16 + get_or codes.now (at + 1) 0 }
{
    let two = usize::from(codes[at]) + usize::from(codes[at + 1]) * 256;
    (two * 4097 / 256 % 256) as u8
}

// Packs two codes into each byte of the output, from the first byte on, the earlier in the high half. The last code of
// an odd word is left out.
fn pack(codes: &[u8], out: &mut [u8])
    requires { (every is_letter codes.now ≡ true) × (length codes.now / 2 ≤ length out.old) }
    ensures { out.new
        ≡ overlaid (take (length codes.now / 2) (packed codes.now)) out.old }
{
    for k in 0..codes.len() / 2 {
        out[k] = two_codes(codes, 2 * k);
    }
}

// Writes the word's file to the front of the output: the number of letters in two bytes, then the codes, two to a byte.
// The last code of an odd word has a byte of its own. Returns the number of bytes written.
fn write_file(codes: &[u8], out: &mut [u8]) -> usize
    requires { (length codes.now ≤ 10000) × (every is_letter codes.now ≡ true) × (5002 ≤ length out.old) }
    ensures { (result ≡ needed (length codes.now))
        × (out.new ≡ overlaid (word_file codes.now) out.old) }
{
    let n = codes.len();
    out[..2].copy_from_slice(&(n as u16).to_be_bytes());
    pack(codes, &mut out[2..]);
    if n % 2 == 1 {
        out[2 + n / 2] = codes[n - 1] * 16;
    }
    2 + (n + 1) / 2
}

// The writer of words from codes: 15, 10, 12. It changes the output only if all three questions are passed.
pub fn write_word(codes: &[u8], out: &mut [u8]) -> Written
    ensures { WroteWord codes.now out.old out.new result.answer result.bytes }
{
    if out.len() < MAX_BYTES {
        return Written::refused(15);
    }
    if MAX_LETTERS < codes.len() {
        return Written::refused(10);
    }
    if !all_codes(codes) {
        return Written::refused(12);
    }
    let bytes = write_file(codes, out);
    Written { answer: 0, bytes }
}
