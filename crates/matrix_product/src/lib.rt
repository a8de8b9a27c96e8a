// The product of two matrices.
#![tactic(auto)]

ghost use Rattle.std.specs.Prelude.{◌≡◌, ◌<◌, length, get_or};
ghost use Rattle.field.specs.Fields.{operations};
ghost use Rattle.field_logarithms.specs.steps.Logarithms.{ProductsBy, LogarithmsOf};
ghost use Rattle.matrix.specs.Layout.{entry};
ghost use Rattle.matrix.specs.Product.{matrix_product};
ghost use Rattle.matrix_product.specs.steps.Multiplying.{Near, row_by_logarithms, ColumnFilled};

use field::Field;
use field_logarithms::{logarithm, logarithms, product_of};
use matrix::{SIZE, place};

// The logarithms of all entries, in the layout of the matrix.
fn logarithms_of(m: &[u8; 64], table: &[u16], f: Field) -> [usize; 64]
    requires { ProductsBy f table.now }
    ensures { (length result ≡ 64) × LogarithmsOf table.now (λ k. get_or m.now k 0) 64 result }
{
    let mut logs = [0usize; 64];
    for i in 0..64 {
        logs[i] = logarithm(m[i], table, f);
    }
    logs
}

// The logarithms of one column's entries, the first row first.
fn column_logarithms(m: &[u8; 64], table: &[u16], column: usize, f: Field) -> [usize; 8]
    requires { ProductsBy f table.now × (column < 8) }
    ensures { (length result ≡ 8) × LogarithmsOf table.now (λ k. entry m.now k column) 8 result }
{
    let mut logs = [0usize; 8];
    for k in 0..SIZE {
        logs[k] = logarithm(m[place(k, column)], table, f);
    }
    logs
}

// One entry of the product: a row of the first matrix times a column of the second, both given by their logarithms.
fn dot(table: &[u16], a: &[usize; 64], b: &[usize; 8], row: usize, f: Field) -> u8
    requires { ProductsBy f table.now × Near table.now 64 a.now × Near table.now 8 b.now × (row < 8) }
    ensures { result ≡ row_by_logarithms (operations f) table.now a.now b.now row }
{
    let mut total: u8 = 0;
    for k in 0..SIZE {
        total ^= product_of(a[place(row, k)], b[k], table, f);
    }
    total
}

// Stores one column of the product.
fn fill_column(
    m: &mut [u8; 64],
    table: &[u16],
    a: &[usize; 64],
    b: &[usize; 8],
    column: usize,
    f: Field,
)
    requires { (length m.old ≡ 64)
        × ProductsBy f table.now
        × Near table.now 64 a.now
        × Near table.now 8 b.now
        × (column < 8) }
    ensures { ColumnFilled (row_by_logarithms (operations f) table.now a.now b.now) column 8
        m.old m.new }
{
    for r in 0..SIZE {
        m[place(r, column)] = dot(table, a, b, r, f);
    }
}

// The product of two matrices. The caller lends the table of the field.
fn multiplied(table: &[u16], a: &[u8; 64], b: &[u8; 64], f: Field) -> [u8; 64]
    requires { ProductsBy f table.now }
    ensures { result ≡ matrix_product (operations f) a.now b.now }
{
    let rows = logarithms_of(a, table, f);
    let mut m = [0u8; 64];
    for c in 0..SIZE {
        let column = column_logarithms(b, table, c, f);
        fill_column(&mut m, table, &rows, &column, c, f);
    }
    m
}

// The product of two matrices. Only the low bits of an entry count, as many as an element has.
pub fn matrix_product(a: &[u8; 64], b: &[u8; 64], f: Field) -> [u8; 64]
    ensures { result ≡ matrix_product (operations f) a.now b.now }
{
    multiplied(logarithms(f), a, b, f)
}
