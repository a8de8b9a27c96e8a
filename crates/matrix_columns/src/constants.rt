// The constants of a word: the products of each T-value and of its reciprocal with the powers of x.
ghost use Rattle.std.specs.Prelude.{◌≡◌, ◌+◌, ◌*◌, ◌<◌, ◌≤◌, length};
ghost use Rattle.base.specs.Packing.{Below};
ghost use Rattle.field.specs.Polynomial.{Degree, polynomials};
ghost use Rattle.matrix_columns.specs.steps.Constants.{Multiples, Filled, AllFilled, Reciprocals};
ghost use Rattle.matrix_columns.specs.steps.Constants.{Constants};

use field::times_x;

// Stores the products of a number with 1, x, x^2, .., starting at place `at`.
pub fn multiples(list: &mut [u64], at: usize, number: u8, bits: usize, modulus: u64)
    requires { (at + 8 ≤ length list.old) × Below 256 list.old × (bits ≤ 8) × Degree bits modulus }
    ensures { Filled (polynomials bits modulus) bits number at bits list.old list.new }
{
    let size: u64 = 1 << bits;
    let mut product = u64::from(number) % size;
    for i in 0..bits {
        list[at + i] = product;
        product = times_x(product, bits, modulus);
    }
}

// The products of one number with 1, x, x^2, ..
pub fn multiples_of(number: u8, bits: usize, modulus: u64) -> [u64; 8]
    requires { (bits ≤ 8) × Degree bits modulus }
    ensures { Below 256 result × Multiples (polynomials bits modulus) bits result 0 number }
{
    let mut list = [0u64; 8];
    multiples(&mut list, 0, number, bits, modulus);
    list
}

// Stores the products of eight numbers, eight places each, starting at place `from`.
fn all_multiples(list: &mut [u64; 128], from: usize, numbers: &[u8; 8], bits: usize, modulus: u64)
    requires { (length list.old ≡ 128) × Below 256 list.old × (from + 64 ≤ 128) × (bits ≤ 8) × Degree bits modulus }
    ensures { AllFilled (polynomials bits modulus) bits numbers.now from 8 list.old list.new }
{
    for a in 0..8 {
        multiples(list, from + 8 * a, numbers[a], bits, modulus);
    }
}

// The constants of the eight T-values. The caller also lends the reciprocals.
pub fn constants_of(
    t_values: &[u8; 8],
    reciprocals: &[u8; 8],
    bits: usize,
    modulus: u64,
) -> [u64; 128]
    requires { (bits ≤ 8)
        × Degree bits modulus
        × Reciprocals (polynomials bits modulus) t_values.now reciprocals.now }
    ensures { Constants (polynomials bits modulus) bits t_values.now result }
{
    let mut list = [0u64; 128];
    all_multiples(&mut list, 0, t_values, bits, modulus);
    all_multiples(&mut list, 64, reciprocals, bits, modulus);
    list
}
