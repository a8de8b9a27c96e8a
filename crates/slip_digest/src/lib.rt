// A digest as a braid.
#![tactic(auto)]

ghost use Rattle.std.specs.Prelude.{◌≡◌, ◌++◌, ◌+◌, ◌≤◌, ◌<◌, length, take};
ghost use Rattle.slip_digest.specs.Digest.{selected, half_byte_braid, encoded, is_digest};
ghost use Rattle.slip_digest.specs.steps.Runs.{progression};

use field::Field;

// The number l of the generator b_l that a half byte selects: its low two bits 0, 1, 2, 3 select 7, 5, 3, 1.
pub fn selected(h: u8) -> u8
    ensures { (result ≡ selected h) × (1 ≤ result) × (result ≤ 7) }
{
    7 - 2 * (h % 4)
}

// Fills a run of codes. The first code is `first`, and each later one is `step` more than the last, modulo 16.
fn fill(run: &mut [u8], first: u8, step: u8)
    requires { (first < 16) × (step < 16) }
    ensures { run.new ≡ progression first step (length run.old) }
{
    let mut next = first;
    for code in run {
        *code = next;
        next = (next + step) % 16;
    }
}

// Writes the braid of a half byte from place `at` on: b7 down to b_(l+1), then b_l 2 × p times, then the inverses of
// b_(l+1) up to b7. Returns the place after the braid. Each of the three runs is written at the greatest length that
// such a run can have, and the next run overwrites the excess.
fn append(codes: &mut [u8], at: usize, h: u8) -> usize
    requires { (h < 16) × (at + 20 ≤ length codes.old) }
    ensures { (result ≡ at + length (half_byte_braid h)) × (result ≤ at + 20)
        × (take result codes.new ≡ take at codes.old ++ half_byte_braid h) }
{
    let above = 7 - selected(h);
    let power = 2 * (h / 4 + 1);
    fill(&mut codes[at..at + 6], 6, 15);
    let turn = at + usize::from(above);
    fill(&mut codes[turn..turn + 8], 6 - above, 0);
    let up = turn + usize::from(power);
    fill(&mut codes[up..up + 6], 15 - above, 1);
    up + usize::from(above)
}

// Writes the braid of a digest to the front of `codes`, one code to a byte, and returns the number of its letters. The
// contract leaves open what `codes` holds after the braid.
pub fn encode_into(digest: &[u8], codes: &mut [u8]) -> usize
    requires { (length digest.now ≤ 64) × (length codes.old ≡ 2560) }
    ensures { (result ≤ 2560) × (take result codes.new ≡ encoded digest.now) }
{
    let mut n = 0;
    for k in 0..2 * digest.len() {
        n = append(codes, n, word::half(digest, k));
    }
    n
}

// Has the digest the length that goes with the field?
pub fn is_digest(digest: &[u8], f: Field) -> bool
    ensures { result ≡ is_digest f digest.now }
{
    match f {
        Field::Gf32 => digest.len() == 32,
        Field::Gf256 => digest.len() == 64,
    }
}
