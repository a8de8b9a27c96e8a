// A pair as the loop over letters holds it: columns of 64 bits, places instead of labels, and the constants of the
// T-values. `pair_of` turns columns and places back into a pair.
ghost use Rattle.std.specs.Prelude.{◌≡◌, ◌<◌, length, get_or};
ghost use Rattle.base.specs.Lists.{values};
ghost use Rattle.field.specs.Polynomial.{polynomials};
ghost use Rattle.field.specs.steps.Reciprocals.{looked_up, LentField};
ghost use Rattle.matrix_columns.specs.steps.Lanes.{columns_matrix};
ghost use Rattle.matrix_columns.specs.steps.Constants.{Constants};
ghost use Rattle.pair.specs.Action.{pair_of};
ghost use Rattle.pair.specs.steps.Columns.{named, values_at};

use field::inverse;
use pair::Pair;

// The numbers at eight places of a list: the T-values of labels, or the labels at places. Past the list's end a number
// is 0.
fn values_at(list: &[u8], places: &[u8; 8]) -> [u8; 8]
    ensures { result ≡ values_at list.now places.now }
{
    places.map(|place| pair::value_of(list, place))
}

// The reciprocals of eight numbers, from the lent table. For 0 the table gives 0.
fn reciprocals_of(numbers: &[u8; 8], table: &[u8]) -> [u8; 8]
    requires { length table.now < 256 }
    ensures { result ≡ values (λ k. looked_up table.now (get_or numbers.now k 0)) 8 }
{
    numbers.map(|number| inverse(number, table))
}

// The constants of the T-values of the labels at the eight places. The caller lends the field's table, bits and
// modulus.
pub fn constants_by_place(
    t_values: &[u8],
    labels: &[u8; 8],
    table: &[u8],
    bits: usize,
    modulus: u64,
) -> [u64; 128]
    requires { LentField bits modulus table.now }
    ensures { Constants (polynomials bits modulus) bits (values_at t_values.now labels.now) result }
{
    let numbers = values_at(t_values, labels);
    let reciprocals = reciprocals_of(&numbers, table);
    matrix_columns::constants_of(&numbers, &reciprocals, bits, modulus)
}

// The pair of the columns' matrix and the labels at the given places.
pub fn pair_of(columns: &[u64; 9], places: &[u8; 8], labels: &[u8; 8]) -> Pair
    ensures { result ≡ pair_of (columns_matrix columns.now) (named labels.now places.now) }
{
    Pair::with(
        matrix_columns::matrix_of(columns),
        values_at(labels, places),
    )
}
