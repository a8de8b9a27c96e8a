// Products and reciprocals in any field of polynomials whose elements are bytes. The caller lends the bits of an
// element and the polynomial, or the table of reciprocals.
ghost use Rattle.std.specs.Prelude.{◌≡◌, ◌%◌, ◌^◌, ◌<◌, ◌≤◌, length};
ghost use Rattle.field.specs.Polynomial.{Degree, times_x, times};
ghost use Rattle.field.specs.steps.Reciprocals.{looked_up};

// x times a. If the degree reaches the polynomial's degree, the polynomial is subtracted, which is exclusive or.
pub fn times_x(a: u64, bits: usize, modulus: u64) -> u64
    requires { Degree bits modulus × (bits ≤ 8) × (a < 2 ^ bits) }
    ensures { (result ≡ times_x bits modulus a) × (result < 2 ^ bits) }
{
    let doubled = a * 2;
    let top = doubled >> bits;
    doubled ^ (top * modulus)
}

// The `bits` low bits of a number.
fn low(a: u8, bits: usize) -> u64
    requires { bits ≤ 8 }
    ensures { result ≡ a % 2 ^ bits }
{
    let size: u64 = 1 << bits;
    u64::from(a) & (size - 1)
}

// Multiplies by one bit of b after another, the lowest first. Only the low bits of the factors count.
pub(crate) fn times(a: u8, b: u8, bits: usize, modulus: u64) -> u8
    requires { Degree bits modulus × (bits ≤ 8) }
    ensures { result ≡ times bits modulus a b }
{
    let mut total: u64 = 0;
    let mut t = low(a, bits);
    let mut rest = u64::from(b);
    for _ in 0..bits {
        total ^= rest % 2 * t;
        t = times_x(t, bits, modulus);
        rest /= 2;
    }
    total as u8
}

// Looks the reciprocal of a up in the lent table, at entry a - 1; the reciprocal of zero is 0. A number past the
// table's end counts by its remainder modulo the table's length plus 1, which is its low bits.
pub fn inverse(a: u8, table: &[u8]) -> u8
    requires { length table.now < 256 }
    ensures { result ≡ looked_up table.now a }
{
    let at = usize::from(a) % (table.len() + 1);
    if at == 0 { 0 } else { table[at - 1] }
}
