// Products by logarithms, for loops. One form of table serves both fields, so no product matches on the field. A loop
// looks up the logarithms of its numbers once.
#![tactic(auto)]

ghost use Rattle.std.specs.Prelude.{◌≡◌, ◌+◌, ◌<◌, length, get_or};
ghost use Rattle.field.specs.Fields.{operations};
ghost use Rattle.field_logarithms.specs.steps.Logarithms.{ProductsBy, LogarithmOf};

use field::Field;

mod large; // large.rt: the table of GF(256)
mod small; // small.rt: the table of GF(32)

use large::LARGE_LOGARITHMS;
use small::SMALL_LOGARITHMS;

// The table of logarithms and powers.
pub fn logarithms(f: Field) -> &'static [u16]
    ensures { ProductsBy f result.now }
{
    match f {
        Field::Gf32 => &SMALL_LOGARITHMS,
        Field::Gf256 => &LARGE_LOGARITHMS,
    }
}

// The logarithm of a number, by the lent table of the field.
pub fn logarithm(a: u8, table: &[u16], f: Field) -> usize
    requires { ProductsBy f table.now }
    ensures { LogarithmOf table.now a result }
{
    usize::from(table[usize::from(a)])
}

// The product of the two numbers that have the logarithms i and j.
pub fn product_of(i: usize, j: usize, table: &[u16], f: Field) -> u8
    requires { ProductsBy f table.now × (256 + (i + j) < length table.now) }
    ensures { result ≡ get_or table.now (256 + (i + j)) 0 }
{
    table[256 + (i + j)] as u8
}

// The product of two numbers. Only the low bits of the factors count.
pub fn times(a: u8, b: u8, table: &[u16], f: Field) -> u8
    requires { ProductsBy f table.now }
    ensures { result ≡ (operations f).mul a b }
{
    let i = logarithm(a, table, f);
    let j = logarithm(b, table, f);
    product_of(i, j, table, f)
}
