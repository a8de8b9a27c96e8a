// Packed rows of numbers: their bytes and their filler. A number has at most eight bits, the most significant one
// first. Zero bits fill the last byte.
#![tactic(auto)]

ghost use Rattle.std.specs.Prelude.{◌≡◌, eqb, ◌^◌, ◌≤◌, length};
ghost use Rattle.base.specs.Packing.{row_bytes, filler_bits, row_filler};

// How many numbers n bits can write.
pub fn power(n: usize) -> u64
    requires { n ≤ 8 }
    ensures { result ≡ 2 ^ n }
{
    1 << n
}

// The number of bytes that a row of n numbers needs.
pub fn row_bytes(bits: usize, n: usize) -> usize
    requires { bits ≤ 8 }
    ensures { result ≡ row_bytes bits n }
{
    n / 8 * bits + (n % 8 * bits).div_ceil(8)
}

// How many numbers the filler bits after a row of n numbers can write. Eight numbers leave no filler, so only the last
// n % 8 numbers count.
pub fn filler_values(bits: usize, n: usize) -> u64
    requires { bits ≤ 8 }
    ensures { result ≡ 2 ^ filler_bits bits n }
{
    let last = n % 8 * bits;
    power(last.next_multiple_of(8) - last)
}

// Are all filler bits after a row of n numbers zero?
pub fn filler_is_zero(bytes: &[u8], bits: usize, n: usize) -> bool
    requires { (bits ≤ 8) × (length bytes.now ≡ row_bytes bits n) }
    ensures { result ≡ eqb (row_filler bits n bytes.now) 0 }
{
    match bytes.last() {
        Some(last) => u64::from(*last) % filler_values(bits, n) == 0,
        None => true,
    }
}
