// Turns a matrix into numbers, one for each column, and back.
ghost use Rattle.std.specs.Prelude.{◌≡◌, ◌<◌, length};
ghost use Rattle.matrix.specs.Layout.{entry};
ghost use Rattle.matrix_columns.specs.steps.Lanes.{InLanes, Put, columns_matrix};

use matrix::{SIZE, place};

// The number of a column. The loop goes from the last row to the first, so the lowest lane holds the first row.
fn load(m: &[u8; 64], column: usize) -> u64
    requires { column < 8 }
    ensures { InLanes result (λ j. entry m.now j column) }
{
    let mut x: u64 = 0;
    for i in (0..SIZE).rev() {
        x = x * 256 + u64::from(m[place(i, column)]);
    }
    x
}

// Stores the lanes of a number as the entries of a column.
fn store(m: &mut [u8; 64], column: usize, x: u64)
    requires { (length m.old ≡ 64) × (column < 8) }
    ensures { Put x column m.old m.new }
{
    let mut rest = x;
    for r in 0..SIZE {
        m[place(r, column)] = (rest % 256) as u8;
        rest /= 256;
    }
}

// The columns of a matrix as numbers, at places 1 to 8. The number at place 0 is spare.
pub fn columns_of(m: &[u8; 64]) -> [u64; 9]
    requires { length m.now ≡ 64 }
    ensures { (length result ≡ 9) × (columns_matrix result ≡ m.now) }
{
    let mut columns = [0u64; 9];
    for c in 0..SIZE {
        columns[c + 1] = load(m, c);
    }
    columns
}

// The matrix whose columns are the numbers at places 1 to 8.
pub fn matrix_of(columns: &[u64; 9]) -> [u8; 64]
    ensures { result ≡ columns_matrix columns.now }
{
    let mut m = [0u8; 64];
    for c in 0..SIZE {
        store(&mut m, c, columns[c + 1]);
    }
    m
}
