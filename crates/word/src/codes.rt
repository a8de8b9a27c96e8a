// Unpacks the codes of a word. Eight bytes are read as one number, and sixteen codes are taken from it. The last bytes,
// fewer than eight, are unpacked singly.
ghost use Rattle.std.specs.Prelude.{◌+◌, ◌*◌, ◌≤◌, ◌<◌, ◌≡◌, length};
ghost use Rattle.base.specs.Lists.{overlaid};
ghost use Rattle.base.specs.Digits.{digits, part, halves};
ghost use Rattle.word.specs.steps.Unpacking.{WholeWords};

// The sixteen codes of a number, the first code from its highest bits.
fn sixteen(number: u64) -> [u8; 16]
    ensures { result ≡ digits 16 16 number }
{
    [
        (number / 0x1000000000000000 % 16) as u8,
        (number / 0x100000000000000 % 16) as u8,
        (number / 0x10000000000000 % 16) as u8,
        (number / 0x1000000000000 % 16) as u8,
        (number / 0x100000000000 % 16) as u8,
        (number / 0x10000000000 % 16) as u8,
        (number / 0x1000000000 % 16) as u8,
        (number / 0x100000000 % 16) as u8,
        (number / 0x10000000 % 16) as u8,
        (number / 0x1000000 % 16) as u8,
        (number / 0x100000 % 16) as u8,
        (number / 0x10000 % 16) as u8,
        (number / 0x1000 % 16) as u8,
        (number / 0x100 % 16) as u8,
        (number / 0x10 % 16) as u8,
        (number % 16) as u8,
    ]
}

// The sixteen codes of the eight bytes that start at place `at`.
pub fn sixteen_at(bytes: &[u8], at: usize) -> [u8; 16]
    requires { at + 8 ≤ length bytes.now }
    ensures { result ≡ halves (part at 8 bytes.now) }
{
    let number = base::eight_bytes(bytes, at);
    sixteen(number)
}

// Unpacks eight bytes at a time to the front of the row of codes. Returns the number of bytes unpacked; fewer than
// eight are left.
fn whole_words(bytes: &[u8], codes: &mut [u8]) -> usize
    requires { 2 * length bytes.now ≤ length codes.old }
    ensures { WholeWords result bytes.now codes.old codes.new }
{
    let words = bytes.len() / 8;
    for k in 0..words {
        let at = 16 * k;
        codes[at..at + 16].copy_from_slice(&sixteen_at(bytes, 8 * k));
    }
    8 * words
}

// Unpacks bytes one by one to the front of the row of codes.
fn singly(bytes: &[u8], codes: &mut [u8])
    requires { 2 * length bytes.now ≤ length codes.old }
    ensures { codes.new ≡ overlaid (halves bytes.now) codes.old }
{
    for (k, byte) in bytes.iter().enumerate() {
        codes[2 * k] = byte / 16;
        codes[2 * k + 1] = byte % 16;
    }
}

// Unpacks the half bytes of a row of bytes to the front of the row of codes, one to a byte.
pub fn unpack(bytes: &[u8], codes: &mut [u8])
    requires { 2 * length bytes.now ≤ length codes.old }
    ensures { codes.new ≡ overlaid (halves bytes.now) codes.old }
{
    let done = whole_words(bytes, codes);
    let to = 2 * done;
    singly(&bytes[done..], &mut codes[to..]);
}
