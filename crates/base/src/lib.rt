// Questions with numbers, lists, digits; bytes copied and compared.
#![tactic(auto)]

ghost use Rattle.std.specs.Prelude.{◌+◌, ◌≤◌, ◌<◌, ◌≡◌, length, take};
ghost use Rattle.base.specs.Lists.{overlaid, equal};
ghost use Rattle.base.specs.Digits.{value, part};

mod digits; // digits.rt: the number that digits write, and the digits of a number

pub use digits::{number, spell};

// Copies bytes of `from` to the front of `out`, as many as fit.
pub fn put(out: &mut [u8], from: &[u8])
    ensures { out.new ≡ overlaid (take (length out.old) from.now) out.old }
{
    let n = out.len().min(from.len());
    out[..n].copy_from_slice(&from[..n]);
}

pub fn equal(a: &[u8], b: &[u8]) -> bool
    ensures { result ≡ equal a.now b.now }
{
    a == b
}

// The number that two bytes write from place `at` on, the high byte first.
pub fn two_bytes(bytes: &[u8], at: usize) -> usize
    requires { at + 2 ≤ length bytes.now }
    ensures { (result ≡ value 256 (part at 2 bytes.now)) × (result < 65536) }
{
    number(&bytes[at..at + 2], 256) as usize
}

// The number that eight bytes write from place `at` on, the highest byte first.
pub fn eight_bytes(bytes: &[u8], at: usize) -> u64
    requires { at + 8 ≤ length bytes.now }
    ensures { result ≡ value 256 (part at 8 bytes.now) }
{
    number(&bytes[at..at + 8], 256)
}
