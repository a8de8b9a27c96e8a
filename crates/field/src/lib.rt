// GF(32) and GF(256): products, reciprocals, the laws of a binary field. GF(32) is reduced by x^5 + x^2 + 1. GF(256) is
// reduced by x^8 + x^4 + x^3 + x^2 + 1.
#![tactic(auto)]

ghost use Rattle.std.specs.Prelude.{◌≡◌};
ghost use Rattle.field.specs.Fields.{bits, modulus, operations, field_of, is_large};
ghost use Rattle.field.specs.steps.Reciprocals.{reciprocals};
ghost use Rattle.field.specs.Elements.{product_questions, reciprocal_questions, Gives};

mod large; // large.rt: the reciprocals of GF(256), and its products by steps
mod small; // small.rt: the products and the reciprocals of GF(32)
mod steps; // steps.rt: products and reciprocals in any field whose elements are bytes

use large::LARGE_RECIPROCALS;
use small::SMALL_RECIPROCALS;
pub use steps::{inverse, times_x};

// One of the two fields. A function that receives only the field lends the functions below it the bits of an element,
// the polynomial and the tables.
#[derive(Clone, Copy)]
pub enum Field {
    Gf32,
    Gf256,
}

pub const SMALL_BITS: usize = 5;

pub const SMALL_MODULUS: u64 = 0b100101;

pub const LARGE_BITS: usize = 8;

pub const LARGE_MODULUS: u64 = 0b100011101;

#[repr(C)]
#[derive(Clone, Copy)]
pub struct Element {
    pub answer: u8,
    pub value: u8,
}

impl Element {
    // A refusal: its number, and 0.
    fn refused(answer: u8) -> Element
        ensures { (result.answer ≡ answer) × (result.value ≡ 0) }
    {
        Element { answer, value: 0 }
    }
}

// The field that a caller names as one of two: true is the larger field.
pub fn field_of(large: bool) -> Field
    ensures { result ≡ field_of large }
{
    if large { Field::Gf256 } else { Field::Gf32 }
}

pub fn is_large(f: Field) -> bool
    ensures { result ≡ is_large f }
{
    match f {
        Field::Gf32 => false,
        Field::Gf256 => true,
    }
}

// The number of bits of an element.
pub fn bits_of(f: Field) -> usize
    ensures { result ≡ bits f }
{
    match f {
        Field::Gf32 => SMALL_BITS,
        Field::Gf256 => LARGE_BITS,
    }
}

// The polynomial that products are reduced by.
pub fn modulus_of(f: Field) -> u64
    ensures { result ≡ modulus f }
{
    match f {
        Field::Gf32 => SMALL_MODULUS,
        Field::Gf256 => LARGE_MODULUS,
    }
}

// Field product. The answer is 17 if an operand is not an element.
pub fn product(a: u8, b: u8, f: Field) -> Element
    ensures { Gives (product_questions f a b) ((operations f).mul a b) result.answer result.value }
{
    match f {
        Field::Gf32 => small::small_product(a, b),
        Field::Gf256 => large::large_product(a, b),
    }
}

// The table of reciprocals: entry a - 1 is the reciprocal of a.
pub fn reciprocals(f: Field) -> &'static [u8]
    ensures { result.now ≡ reciprocals (bits f) (modulus f) }
{
    match f {
        Field::Gf32 => &SMALL_RECIPROCALS,
        Field::Gf256 => &LARGE_RECIPROCALS,
    }
}

// Reciprocal, looked up in the field's table. The answer is 17 if the operand is not an element, that is, greater than
// the table's length, then 4 if it is zero.
pub fn reciprocal(a: u8, f: Field) -> Element
    ensures { Gives (reciprocal_questions f a) ((operations f).inv a) result.answer result.value }
{
    let table = reciprocals(f);
    if table.len() < a as usize {
        return Element::refused(17);
    }
    if a == 0 {
        return Element::refused(4);
    }
    Element {
        answer: 0,
        value: inverse(a, table),
    }
}
