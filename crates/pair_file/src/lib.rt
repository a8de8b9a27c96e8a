// A word file on a pair.
#![tactic(auto)]

ghost use Rattle.std.specs.Prelude.{◌≡◌, ◌*◌, ◌≤◌, true, length, take};
ghost use Rattle.base.specs.Lists.{every};
ghost use Rattle.base.specs.Digits.{halves};
ghost use Rattle.field.specs.Polynomial.{polynomials};
ghost use Rattle.field.specs.steps.Reciprocals.{LentField};
ghost use Rattle.field.specs.Fields.{operations};
ghost use Rattle.word.specs.Letters.{is_letter};
ghost use Rattle.word.specs.Words.{codes, word_answer};
ghost use Rattle.pair.specs.Action.{pair_of, word_on};
ghost use Rattle.pair.specs.steps.Columns.{Held, PackedCarried, WholeCarried};

use field::{Field, LARGE_BITS, LARGE_MODULUS, SMALL_BITS, SMALL_MODULUS, reciprocals};
use pair::Pair;
use pair_carrying::{constants_by_place, pair_of};

// Multiplies in those of the first n packed letters that stand in whole groups of eight bytes, and returns the number
// of these bytes. Fewer than sixteen letters are left.
fn words(
    columns: &mut [u64; 9],
    labels: &mut [u8; 8],
    constants: &[u64; 128],
    bits: usize,
    part: &[u8],
    n: usize,
) -> usize
    requires { Held bits constants.now columns.old labels.old
        × (n ≤ 2 * length part.now)
        × (every is_letter (take n (halves part.now)) ≡ true) }
    ensures { WholeCarried bits n result part.now constants.now columns.old labels.old
        columns.new labels.new }
{
    for group in 0..n / 16 {
        let codes = word::sixteen_at(part, 8 * group);
        pair_carrying::run(columns, labels, constants, bits, &codes);
    }
    8 * (n / 16)
}

// Multiplies in the first n packed letters, first to last.
fn letters(
    columns: &mut [u64; 9],
    labels: &mut [u8; 8],
    constants: &[u64; 128],
    bits: usize,
    part: &[u8],
    n: usize,
)
    requires { Held bits constants.now columns.old labels.old
        × (n ≤ 2 * length part.now)
        × (every is_letter (take n (halves part.now)) ≡ true) }
    ensures { PackedCarried bits n part.now constants.now columns.old labels.old
        columns.new labels.new }
{
    let done = words(columns, labels, constants, bits, part, n);
    let mut last = [0u8; 16];
    word::unpack(&part[done..n.div_ceil(2)], &mut last);
    pair_carrying::run(columns, labels, constants, bits, &last[..n - 2 * done]);
}

// Multiplies the first n packed letters into the pair. The caller lends the field's table, bits and modulus.
fn packed(
    pair: Pair,
    t_values: &[u8; 8],
    part: &[u8],
    n: usize,
    table: &[u8],
    bits: usize,
    modulus: u64,
) -> Pair
    requires { LentField bits modulus table.now
        × (n ≤ 2 * length part.now)
        × (every is_letter (take n (halves part.now)) ≡ true) }
    ensures { result
        ≡ word_on (polynomials bits modulus) t_values.now (take n (halves part.now))
        (pair_of pair.matrix pair.labels) }
{
    let constants = constants_by_place(t_values, &pair.labels, table, bits, modulus);
    let mut columns = matrix_columns::columns_of(&pair.matrix);
    let mut places = [0, 1, 2, 3, 4, 5, 6, 7];
    letters(&mut columns, &mut places, &constants, bits, part, n);
    pair_of(&columns, &places, &pair.labels)
}

// Multiplies the letters of an accepted word file, first to last, into the pair.
pub fn carry_file(pair: Pair, t_values: &[u8; 8], file: &[u8], f: Field) -> Pair
    requires { word_answer file.now ≡ 0 }
    ensures { result
        ≡ word_on (operations f) t_values.now (codes file.now)
        (pair_of pair.matrix pair.labels) }
{
    let n = word::stated(file);
    let part = &file[2..];
    // Each arm passes constants, which the compiler can spread into the loop over a letter's bits.
    match f {
        Field::Gf32 => {
            let table = reciprocals(Field::Gf32);
            packed(pair, t_values, part, n, table, SMALL_BITS, SMALL_MODULUS)
        }
        Field::Gf256 => {
            let table = reciprocals(Field::Gf256);
            packed(pair, t_values, part, n, table, LARGE_BITS, LARGE_MODULUS)
        }
    }
}
