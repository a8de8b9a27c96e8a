// The matrix that a digest's braid reaches, without what cancels.
#![tactic(auto)]

ghost use Rattle.std.specs.Prelude.{◌≡◌, ◌≤◌, ◌<◌, length};
ghost use Rattle.base.specs.Packing.{Below};
ghost use Rattle.field.specs.Fields.{operations};
ghost use Rattle.field.specs.Polynomial.{polynomials};
ghost use Rattle.field.specs.steps.Reciprocals.{LentField};
ghost use Rattle.pair.specs.Action.{word_on, start};
ghost use Rattle.pair.specs.steps.Columns.{Held, Carried};
ghost use Rattle.slip_digest.specs.Digest.{encoded};
ghost use Rattle.slip_digest_braid.specs.steps.Ways.{way, HalfByteOn, DigestCarried, ShortMatrix};

use field::{Field, LARGE_BITS, LARGE_MODULUS, SMALL_BITS, SMALL_MODULUS, bits_of, reciprocals};
use pair::Pair;
use pair_operands::{all_fit, all_nonzero};

// Multiplies in the way from level `from` to level `to`. At level l the letters b7 down to b_(l+1) are multiplied in.
fn walk(
    columns: &mut [u64; 9],
    labels: &mut [u8; 8],
    constants: &[u64; 128],
    bits: usize,
    from: usize,
    to: usize,
)
    requires { Held bits constants.now columns.old labels.old × (from ≤ 7) × (to ≤ 7) }
    ensures { Carried bits constants.now (way from to) columns.old labels.old
        columns.new labels.new }
{
    let up = [8u8, 9, 10, 11, 12, 13, 14];
    let down = [6u8, 5, 4, 3, 2, 1, 0];
    if from < to {
        pair_carrying::run(columns, labels, constants, bits, &up[from..to]);
    } else {
        let first = 7 - from;
        let last = 7 - to;
        pair_carrying::run(columns, labels, constants, bits, &down[first..last]);
    }
}

// Multiplies in a half byte from level `from`: first the way to its own level, then its power at once. Returns its own
// level.
fn half_byte(
    columns: &mut [u64; 9],
    labels: &mut [u8; 8],
    constants: &[u64; 128],
    powers: &[u64; 384],
    bits: usize,
    from: usize,
    h: u8,
) -> usize
    requires { Held bits constants.now columns.old labels.old × Below 256 powers.now × (from ≤ 7) × (h < 16) }
    ensures { HalfByteOn bits constants.now powers.now from h result columns.old
        labels.old columns.new labels.new }
{
    let to = usize::from(slip_digest::selected(h));
    walk(columns, labels, constants, bits, from, to);
    let at = 96 * usize::from(h % 4) + 24 * usize::from(h / 4);
    pair_powers::raise(columns, powers, at, bits, to - 1);
    to
}

// Multiplies in the digest's braid without what cancels between half bytes: each half byte from the level of the one
// before it, and at last the way back to level 7.
fn half_bytes(
    columns: &mut [u64; 9],
    labels: &mut [u8; 8],
    constants: &[u64; 128],
    powers: &[u64; 384],
    bits: usize,
    digest: &[u8],
)
    requires { Held bits constants.now columns.old labels.old × Below 256 powers.now }
    ensures { DigestCarried bits constants.now powers.now digest.now columns.old
        labels.old columns.new }
{
    let mut l = 7;
    for k in 0..2 * digest.len() {
        let h = word::half(digest, k);
        l = half_byte(columns, labels, constants, powers, bits, l, h);
    }
    walk(columns, labels, constants, bits, l, 7);
}

// The matrix of a digest's braid, without what cancels. The caller lends the field's table, bits and modulus.
fn short_over(
    t_values: &[u8; 8],
    digest: &[u8],
    table: &[u8],
    bits: usize,
    modulus: u64,
) -> [u8; 64]
    requires { LentField bits modulus table.now }
    ensures { ShortMatrix (polynomials bits modulus) t_values.now digest.now result }
{
    let begin = Pair::start();
    let constants = pair_carrying::constants_by_place(
        t_values,
        &begin.labels,
        table,
        bits,
        modulus,
    );
    let powers = pair_powers::powers_of(&constants, bits, modulus);
    let mut columns = matrix_columns::columns_of(&begin.matrix);
    let mut places = [0, 1, 2, 3, 4, 5, 6, 7];
    half_bytes(&mut columns, &mut places, &constants, &powers, bits, digest);
    matrix_columns::matrix_of(&columns)
}

// The matrix of a digest's braid, without what cancels.
fn short_matrix(t_values: &[u8; 8], digest: &[u8], f: Field) -> [u8; 64]
    ensures { ShortMatrix (operations f) t_values.now digest.now result }
{
    // Each arm passes constants, which the compiler can spread into the loop over a letter's bits.
    match f {
        Field::Gf32 => {
            let table = reciprocals(Field::Gf32);
            short_over(t_values, digest, table, SMALL_BITS, SMALL_MODULUS)
        }
        Field::Gf256 => {
            let table = reciprocals(Field::Gf256);
            short_over(t_values, digest, table, LARGE_BITS, LARGE_MODULUS)
        }
    }
}

// The matrix of a digest's braid, by all its letters.
fn by_letters(t_values: &[u8; 8], digest: &[u8], f: Field) -> [u8; 64]
    requires { length digest.now ≤ 64 }
    ensures { result ≡ (word_on (operations f) t_values.now (encoded digest.now) start).matrix }
{
    let mut codes = [0u8; 2560];
    let n = slip_digest::encode_into(digest, &mut codes);
    let reached = pair_carrying::carry_letters(Pair::start(), t_values, &codes[..n], f);
    reached.matrix
}

// The matrix reached from the identity by the braid of a digest. Letters cancel only for T-values that are elements of
// the field other than zero. For other T-values all letters are multiplied.
pub fn digest_matrix(t_values: &[u8; 8], digest: &[u8], f: Field) -> [u8; 64]
    requires { length digest.now ≤ 64 }
    ensures { result ≡ (word_on (operations f) t_values.now (encoded digest.now) start).matrix }
{
    if all_fit(t_values, bits_of(f)) && all_nonzero(t_values) {
        short_matrix(t_values, digest, f)
    } else {
        by_letters(t_values, digest, f)
    }
}
