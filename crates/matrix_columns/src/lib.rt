// A column as one number of 64 bits.
#![tactic(auto)]

ghost use Rattle.std.specs.Prelude.{◌≡◌, ◌+◌, ◌≤◌, ◌<◌, length, get_or};
ghost use Rattle.base.specs.Packing.{Below};
ghost use Rattle.matrix_columns.specs.steps.Lanes.{lane, chosen, InLanes};

mod constants; // constants.rt: the constants of T-values and their reciprocals
mod layout; // layout.rt: the columns of a matrix as numbers, and back

pub use constants::{constants_of, multiples, multiples_of};
pub use layout::{columns_of, matrix_of};

// 1 in each lane.
const ONES: u64 = 0x0101_0101_0101_0101;

// A number times a column. The number's constants start at place `at`.
pub fn times(constants: &[u64], at: usize, bits: usize, column: u64) -> u64
    requires { Below 256 constants.now × (bits ≤ 8) × (at + bits ≤ length constants.now) }
    ensures { InLanes result (λ j. chosen (λ i. get_or constants.now (at + i) 0) bits (lane j column)) }
{
    let mut total: u64 = 0;
    let mut rest = column;
    for i in 0..bits {
        total ^= (rest & ONES) * constants[at + i];
        rest /= 2;
    }
    total
}
