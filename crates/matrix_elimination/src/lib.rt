// Has a matrix an inverse? Elimination clears the columns in place, the last column first.
#![tactic(auto)]

ghost use Rattle.std.specs.Prelude.{◌≡◌, ◌≢◌, ◌&&◌, true, false, ◌+◌, ◌<◌, ◌≤◌, length, IfNone, IfSome};
ghost use Rattle.field.specs.Fields.{bits, modulus, operations};
ghost use Rattle.field.specs.steps.Reciprocals.{reciprocals};
ghost use Rattle.field_logarithms.specs.steps.Logarithms.{ProductsBy, LogarithmsOf};
ghost use Rattle.matrix.specs.Layout.{entry};
ghost use Rattle.matrix.specs.Elimination.{pivot, invertible};
ghost use Rattle.matrix.specs.steps.Sweeping.{Raised, RowGained, gain, Swept};

use field::{Field, inverse, reciprocals};
use field_logarithms::{logarithm, logarithms, product_of, times};
use matrix::{SIZE, place};

// The last of the rows 0 to n whose entry in column n is not zero.
fn pivot_row(m: &[u8; 64], n: usize) -> Option<usize>
    requires { n < 8 }
    ensures none { IfNone result (entry m.now (pivot (λ i. entry m.now i n) n) n ≡ 0) }
    ensures some { IfSome result (λ p. (p ≡ pivot (λ i. entry m.now i n) n) × (p ≤ n) × (entry m.now p n ≢ 0)) }
{
    for p in (0..n + 1).rev() {
        if m[place(p, n)] != 0 {
            return Some(p);
        }
    }
    None
}

// Exchanges rows p and n in the columns 0 to n. Returns the logarithms of the entries that row p had.
fn raise(m: &mut [u8; 64], table: &[u16], p: usize, n: usize, f: Field) -> [usize; 8]
    requires { (length m.old ≡ 64) × ProductsBy f table.now × (p ≤ n) × (n < 8) }
    ensures { Raised n p (n + 1) m.old m.new
        × (length result ≡ 8)
        × LogarithmsOf table.now (entry m.old p) (n + 1) result }
{
    let mut logs = [0usize; 8];
    for j in 0..n + 1 {
        let own = place(p, j);
        let last = place(n, j);
        let x = m[own];
        logs[j] = logarithm(x, table, f);
        // The library's `swap` is slower: it asks which place comes first.
        m[own] = m[last];
        m[last] = x;
    }
    logs
}

// In the columns before n, row i gains row n times a factor: q times row i's entry in column n. The caller lends the
// logarithms of row n.
fn sweep_row(m: &mut [u8; 64], table: &[u16], row: &[usize; 8], q: u8, i: usize, n: usize, f: Field)
    requires { (length m.old ≡ 64)
        × ProductsBy f table.now
        × LogarithmsOf table.now (entry m.old n) n row.now
        × (i < n)
        × (n < 8) }
    ensures { RowGained (operations f) (gain (operations f) q n m.old i) i n m.old m.new }
{
    let x = m[place(i, n)];
    let factor = times(q, x, table, f);
    let k = logarithm(factor, table, f);
    for j in 0..n {
        m[place(i, j)] ^= product_of(k, row[j], table, f);
    }
}

// In the columns before n, each row before row n gains row n times a factor: q times the row's own entry in column n.
fn sweep(m: &mut [u8; 64], table: &[u16], row: &[usize; 8], q: u8, n: usize, f: Field)
    requires { (length m.old ≡ 64)
        × ProductsBy f table.now
        × LogarithmsOf table.now (entry m.old n) n row.now
        × (n < 8) }
    ensures { Swept (operations f) q n n m.old m.new }
{
    for i in 0..n {
        sweep_row(m, table, row, q, i, n, f);
    }
}

// Clears column n. The pivot's row becomes row n, and each row before row n gains a multiple of row n. Returns false if
// column n has no pivot.
fn clear(m: &mut [u8; 64], table: &[u16], inverses: &[u8], n: usize, f: Field) -> bool
    requires { (length m.old ≡ 64)
        × ProductsBy f table.now
        × (inverses.now ≡ reciprocals (bits f) (modulus f))
        × (n < 8) }
    ensures { (length m.new ≡ 64)
        × (invertible (operations f) (n + 1) (entry m.old)
        ≡ result && invertible (operations f) n (entry m.new)) }
{
    let Some(p) = pivot_row(m, n) else {
        return false;
    };
    let q = inverse(m[place(p, n)], inverses);
    let row = raise(m, table, p, n, f);
    sweep(m, table, &row, q, n, f);
    true
}

// Is the corner the only entry of the last row that is not zero? Then the other rows gain nothing from the last row.
fn corner_alone(m: &[u8; 64], f: Field) -> bool
    ensures { result ≡ true
        → invertible (operations f) 8 (entry m.now) ≡ invertible (operations f) 7 (entry m.now) }
{
    for j in 0..7 {
        if m[place(7, j)] != 0 {
            return false;
        }
    }
    let corner = m[place(7, 7)];
    corner != 0
}

// Clears the last column. If the corner stands alone in the last row, as it does in every key file, nothing changes.
fn clear_last(m: &mut [u8; 64], table: &[u16], inverses: &[u8], f: Field) -> bool
    requires { (length m.old ≡ 64) × ProductsBy f table.now × (inverses.now ≡ reciprocals (bits f) (modulus f)) }
    ensures { (length m.new ≡ 64)
        × (invertible (operations f) 8 (entry m.old)
        ≡ result && invertible (operations f) 7 (entry m.new)) }
{
    if corner_alone(m, f) {
        return true;
    }
    clear(m, table, inverses, 7, f)
}

// Has the 7 by 7 matrix of each of two matrices, without its last row and column, an inverse? The caller lends the
// tables of the field. The matrices take turns, column by column: the processor works on one while it waits for entries
// of the other. The loop's first n is a constant, so the compiler unrolls the loops inside it.
fn both_cleared(first: [u8; 64], second: [u8; 64], table: &[u16], inverses: &[u8], f: Field) -> bool
    requires { ProductsBy f table.now × (inverses.now ≡ reciprocals (bits f) (modulus f)) }
    ensures { result ≡ (invertible (operations f) 7 (entry first) && invertible (operations f) 7 (entry second)) }
{
    let mut a = first;
    let mut b = second;
    for n in (0..SIZE - 1).rev() {
        if !clear(&mut a, table, inverses, n, f) {
            return false;
        }
        if !clear(&mut b, table, inverses, n, f) {
            return false;
        }
    }
    true
}

// Has each of two matrices an inverse? The caller lends the tables of the field.
fn both_eliminated(
    first: [u8; 64],
    second: [u8; 64],
    table: &[u16],
    inverses: &[u8],
    f: Field,
) -> bool
    requires { ProductsBy f table.now × (inverses.now ≡ reciprocals (bits f) (modulus f)) }
    ensures { result ≡ (invertible (operations f) 8 (entry first) && invertible (operations f) 8 (entry second)) }
{
    let mut a = first;
    let mut b = second;
    if !clear_last(&mut a, table, inverses, f) {
        return false;
    }
    if !clear_last(&mut b, table, inverses, f) {
        return false;
    }
    both_cleared(a, b, table, inverses, f)
}

// Has each of two matrices an inverse? For entries that are not field elements, products and reciprocals use only the
// low bits; sums and the test for zero use the whole byte.
pub fn both_invertible(first: [u8; 64], second: [u8; 64], f: Field) -> bool
    ensures { result ≡ (invertible (operations f) 8 (entry first) && invertible (operations f) 8 (entry second)) }
{
    match f {
        Field::Gf32 => {
            let table = logarithms(Field::Gf32);
            both_eliminated(first, second, table, reciprocals(Field::Gf32), f)
        }
        Field::Gf256 => {
            let table = logarithms(Field::Gf256);
            both_eliminated(first, second, table, reciprocals(Field::Gf256), f)
        }
    }
}
