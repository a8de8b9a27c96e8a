// 8 by 8 matrices: layout, product, what an inverse is.
#![tactic(auto)]

ghost use Rattle.std.specs.Prelude.{◌≡◌, ◌%◌, ◌<◌};
ghost use Rattle.matrix.specs.Layout.{place, entry};

// The number of rows, and the number of columns.
pub const SIZE: usize = 8;

// The place of the entry in a row and a column. Rows and columns count from 0. No other code knows the layout.
pub fn place(row: usize, column: usize) -> usize
    requires { (row < 8) × (column < 8) }
    ensures { (result ≡ place row column) × (result < 64) }
{
    8 * column + row
}

// The entry in a row and a column. Row and column count by their remainders modulo 8, so any two numbers name an entry.
pub fn entry(m: &[u8; 64], row: usize, column: usize) -> u8
    ensures { result ≡ entry m.now (row % 8) (column % 8) }
{
    m[place(row % 8, column % 8)]
}
