// Numbers in decimal, lines, texts that grow; how much of a file is enough to read.
#![tactic(auto)]

ghost use Rattle.std.specs.Prelude.{◌≡◌};
ghost use Rattle.base.specs.Digits.{part as part_of};

mod number; // number.rt: numbers in decimal

pub use number::{decimal, signed};

// Up to `most` bytes of a buffer, starting at place `at`. If the buffer ends earlier, the part is shorter or empty.
pub fn part(bytes: &[u8], at: usize, most: usize) -> &[u8]
    ensures { result.now ≡ part_of at most bytes.now }
{
    let rest = &bytes[at.min(bytes.len())..];
    &rest[..most.min(rest.len())]
}
