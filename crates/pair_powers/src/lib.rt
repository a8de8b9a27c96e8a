// Even powers of a generator, multiplied into a pair at once, and the constants of the sixteen powers of a digest.
#![tactic(auto)]

ghost use Rattle.std.specs.Prelude.{◌≡◌, ◌+◌, ◌<◌, ◌≤◌, length};
ghost use Rattle.base.specs.Packing.{Below};
ghost use Rattle.field.specs.Polynomial.{Degree, polynomials};
ghost use Rattle.pair_powers.specs.steps.Powers.{RunOnColumns, ProductIs, OneMoreIs};
ghost use Rattle.pair_powers.specs.steps.Powers.{StoredThree, LevelFilled, PowerTable};

use matrix_columns::{multiples, times};

// What a run of one generator's letters does, as multiples of the old own column: what the column before gains, what
// the own column becomes, and what the column after gains.
#[derive(Clone, Copy)]
pub struct Gains {
    pub left: u8,
    pub own: u8,
    pub right: u8,
}

// Changes three columns by the numbers whose constants begin at place `at`, eight places each. The own column is g,
// counted from 0. A spare column stands in front.
pub fn raise(columns: &mut [u64; 9], table: &[u64], at: usize, bits: usize, g: usize)
    requires { (length columns.old ≡ 9) × Below 256 table.now × (bits ≤ 8) × (at + 24 ≤ length table.now) × (g < 7) }
    ensures { RunOnColumns bits table.now at g columns.old columns.new }
{
    let column = columns[g + 1];
    let left = times(table, at, bits, column);
    let own = times(table, at + 8, bits, column);
    let right = times(table, at + 16, bits, column);
    columns[g] ^= left;
    columns[g + 1] = own;
    columns[g + 2] ^= right;
}

// The product of a number with the number whose constants begin at place `at`.
fn product(constants: &[u64], at: usize, bits: usize, number: u8) -> u8
    requires { Below 256 constants.now × (bits ≤ 8) × (at + bits ≤ length constants.now) }
    ensures { ProductIs bits constants.now at number result }
{
    let product = times(constants, at, bits, u64::from(number));
    (product % 256) as u8
}

// One more letter of the run. The constants of the T-value that it takes begin at place `at`.
fn one_more(gains: Gains, constants: &[u64; 128], at: usize, bits: usize) -> Gains
    requires { Below 256 constants.now × (bits ≤ 8) × (at + 8 ≤ 128) }
    ensures { OneMoreIs bits constants.now at gains result }
{
    let own = product(constants, at, bits, gains.own);
    Gains {
        left: gains.left ^ own,
        own,
        right: gains.right ^ gains.own,
    }
}

// Stores the constants of three numbers from place `at` on, eight places each.
fn store(table: &mut [u64], at: usize, gains: Gains, bits: usize, modulus: u64)
    requires { (at + 24 ≤ length table.old) × Below 256 table.old × (bits ≤ 8) × Degree bits modulus }
    ensures { StoredThree (polynomials bits modulus) bits at gains table.old table.new }
{
    multiples(table, at, gains.left, bits, modulus);
    multiples(table, at + 8, gains.own, bits, modulus);
    multiples(table, at + 16, gains.right, bits, modulus);
}

// Stores the constants of four powers of the generator with own column 6 - 2 j, where label 7 stands in the next place.
fn level_powers(table: &mut [u64; 384], j: usize, constants: &[u64; 128], bits: usize, modulus: u64)
    requires { (length table.old ≡ 384)
        × Below 256 table.old
        × Below 256 constants.now
        × (bits ≤ 8)
        × Degree bits modulus
        × (j < 4) }
    ensures { LevelFilled (polynomials bits modulus) bits constants.now j 4 table.old
        table.new }
{
    let place = 48 - 16 * j;
    let mut gains = Gains {
        left: 0,
        own: 1,
        right: 0,
    };
    for k in 0..4 {
        let once = one_more(gains, constants, place, bits);
        gains = one_more(once, constants, 56, bits);
        store(table, 96 * j + 24 * k, gains, bits, modulus);
    }
}

// The constants of the sixteen powers: b7, b5, b3 and b1, each to the powers 2, 4, 6 and 8.
pub fn powers_of(constants: &[u64; 128], bits: usize, modulus: u64) -> [u64; 384]
    requires { Below 256 constants.now × (bits ≤ 8) × Degree bits modulus }
    ensures { PowerTable (polynomials bits modulus) bits constants.now 4 result }
{
    let mut table = [0u64; 384];
    for j in 0..4 {
        level_powers(&mut table, j, constants, bits, modulus);
    }
    table
}
