// Multiplies one letter into a pair in place. The matrix is held as columns of 64 bits. No branch depends on the
// letter.
ghost use Rattle.std.specs.Prelude.{◌≡◌, ◌+◌, ◌*◌, ◌<◌, ◌≤◌, true, cond, [], ◌∷◌, length};
ghost use Rattle.base.specs.Packing.{Below};
ghost use Rattle.word.specs.Letters.{is_letter};
ghost use Rattle.word.specs.Strands.{swapped};
ghost use Rattle.pair.specs.steps.Columns.{Held, Spread, ColumnsAfter, Carried};

use matrix_columns::times;

// The place where the constants of the letter's number begin. A generator takes the T-value of its own label. An
// inverse letter takes the reciprocal of the next label's T-value.
fn constants_at(inverse: bool, own: usize, next: usize) -> usize
    requires { (own < 8) × (next < 8) }
    ensures { (result ≡ cond inverse (64 + 8 * next) (8 * own)) × (result ≤ 120) }
{
    if inverse { 64 + 8 * next } else { 8 * own }
}

// The neighbour that gains the product, as a distance from the column before the letter's own column. A generator's
// product goes to the column before, at 0. An inverse letter's product goes to the column after, at 2.
fn side(inverse: bool) -> usize
    ensures { (result ≡ cond inverse 2 0) × (result ≤ 2) }
{
    if inverse { 2 } else { 0 }
}

// Changes three columns for a letter whose own column is g, counted from 0. A spare column stands in front. The own
// column becomes the product. For a generator, the column before gains the product and the column after gains the old
// own column. For an inverse letter, the column before gains the old own column and the column after gains the product.
fn spread(columns: &mut [u64; 9], g: usize, inverse: bool, column: u64, product: u64)
    requires { (length columns.old ≡ 9) × (g < 7) }
    ensures { Spread (cond inverse column product) product (cond inverse product column) g columns.old
        columns.new }
{
    let by = side(inverse);
    let first = g + by;
    let second = g + 2 - by;
    columns[first] ^= product;
    columns[g + 1] = product;
    columns[second] ^= column;
}

// Exchanges the labels at places g and g + 1.
fn exchange(labels: &mut [u8; 8], g: usize)
    requires { g < 7 }
    ensures { labels.new ≡ swapped g labels.old }
{
    labels.swap(g, g + 1);
}

// Multiplies in a letter whose own column is g. The constants of the number that the letter takes begin at place `at`.
pub fn multiply_columns(
    columns: &mut [u64; 9],
    labels: &mut [u8; 8],
    constants: &[u64],
    at: usize,
    bits: usize,
    g: usize,
    inverse: bool,
)
    requires { (length columns.old ≡ 9)
        × Below 256 constants.now
        × (bits ≤ 8)
        × (at + bits ≤ length constants.now)
        × (g < 7) }
    ensures { ColumnsAfter bits constants.now at g inverse columns.old labels.old
        columns.new labels.new }
{
    let column = columns[g + 1];
    let product = times(constants, at, bits, column);
    spread(columns, g, inverse, column, product);
    exchange(labels, g);
}

// Multiplies one letter into the pair of the columns and the labels. The labels are read here, for the place of the
// constants, before `multiply_columns` stores them. If one step read and stored them, the labels would be exchanged in
// memory, and each letter would wait for the letter before it.
pub fn one_letter(
    columns: &mut [u64; 9],
    labels: &mut [u8; 8],
    constants: &[u64; 128],
    bits: usize,
    code: u8,
)
    requires { Held bits constants.now columns.old labels.old × (is_letter code ≡ true) }
    ensures { Carried bits constants.now (code ∷ []) columns.old labels.old
        columns.new labels.new }
{
    let g = usize::from(code % 8);
    let inverse = 8 <= code;
    let own = usize::from(labels[g]);
    let next = usize::from(labels[g + 1]);
    let at = constants_at(inverse, own, next);
    multiply_columns(columns, labels, constants, at, bits, g, inverse);
}
