// A word on a pair. These functions read a pair's matrix and list, and not its positions. The pair that they give has
// the inverse list of its list.
#![tactic(auto)]

ghost use Rattle.std.specs.Prelude.{◌≡◌, true};
ghost use Rattle.base.specs.Lists.{every};
ghost use Rattle.field.specs.Polynomial.{polynomials};
ghost use Rattle.field.specs.steps.Reciprocals.{LentField};
ghost use Rattle.field.specs.Fields.{operations};
ghost use Rattle.word.specs.Letters.{is_letter};
ghost use Rattle.pair.specs.Action.{pair_of, word_on};
ghost use Rattle.pair.specs.steps.Columns.{Held, Carried};

use field::{Field, LARGE_BITS, LARGE_MODULUS, SMALL_BITS, SMALL_MODULUS, reciprocals};
use pair::{Pair, one_letter};

mod held; // held.rt: a pair as the loop over letters holds it

pub use held::{constants_by_place, pair_of};

// Multiplies letters, one code to a byte, first to last, into the pair of the columns and the labels.
pub fn run(
    columns: &mut [u64; 9],
    labels: &mut [u8; 8],
    constants: &[u64; 128],
    bits: usize,
    codes: &[u8],
)
    requires { Held bits constants.now columns.old labels.old × (every is_letter codes.now ≡ true) }
    ensures { Carried bits constants.now codes.now columns.old labels.old
        columns.new labels.new }
{
    for &code in codes {
        one_letter(columns, labels, constants, bits, code);
    }
}

// Multiplies letters, one code to a byte, into the pair. The caller lends the field's table, bits and modulus.
fn row(
    pair: Pair,
    t_values: &[u8; 8],
    codes: &[u8],
    table: &[u8],
    bits: usize,
    modulus: u64,
) -> Pair
    requires { LentField bits modulus table.now × (every is_letter codes.now ≡ true) }
    ensures { result
        ≡ word_on (polynomials bits modulus) t_values.now codes.now
        (pair_of pair.matrix pair.labels) }
{
    let constants = constants_by_place(t_values, &pair.labels, table, bits, modulus);
    let mut columns = matrix_columns::columns_of(&pair.matrix);
    let mut places = [0, 1, 2, 3, 4, 5, 6, 7];
    run(&mut columns, &mut places, &constants, bits, codes);
    pair_of(&columns, &places, &pair.labels)
}

// Multiplies letters, one code to a byte, first to last, into the pair.
pub fn carry_letters(pair: Pair, t_values: &[u8; 8], codes: &[u8], f: Field) -> Pair
    requires { every is_letter codes.now ≡ true }
    ensures { result
        ≡ word_on (operations f) t_values.now codes.now (pair_of pair.matrix pair.labels) }
{
    // Each arm passes constants, which the compiler can spread into the loop over a letter's bits.
    match f {
        Field::Gf32 => {
            let table = reciprocals(Field::Gf32);
            row(pair, t_values, codes, table, SMALL_BITS, SMALL_MODULUS)
        }
        Field::Gf256 => {
            let table = reciprocals(Field::Gf256);
            row(pair, t_values, codes, table, LARGE_BITS, LARGE_MODULUS)
        }
    }
}
