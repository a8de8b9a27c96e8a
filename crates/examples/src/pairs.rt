// Letters on pairs, and products of matrices.
use crate::show;
use field::Field;
use pair::Pair;
use pair_multiplier::Multiplied;

// Prints the limits that the pair's type states.
pub(crate) fn limits(rt: &impl Print) {
    print::text(rt, b":");
    print::number(rt, Pair::STRANDS);
    print::number(rt, Pair::LETTERS);
    print::text(rt, b"\n");
}

// The matrix of 64 entries given row by row.
fn laid_out(rows: &[u8; 64]) -> [u8; 64] {
    let mut matrix = [0u8; 64];
    for (i, entry) in rows.iter().enumerate() {
        matrix[matrix::place(i / 8, i % 8)] = *entry;
    }
    matrix
}

// The matrix of entries given row by row, or the identity if there are none.
fn matrix_of(entries: &[u8]) -> [u8; 64] {
    if entries.is_empty() {
        return Pair::start().matrix;
    }
    let mut rows = [0u8; 64];
    base::put(&mut rows, entries);
    laid_out(&rows)
}

// The same matrix and list with other positions, if any are given.
fn with_positions(mut pair: Pair, given: &[u8]) -> Pair {
    base::put(&mut pair.positions, given);
    pair
}

// The pair of lists and a matrix. The lists are eight labels, and then eight positions, if these are not the inverse
// list. If there are no labels, or no entries, those of the starting pair stand in their place.
fn pair_of(lists: &[u8], entries: &[u8]) -> Pair {
    let mut eight = [0, 1, 2, 3, 4, 5, 6, 7];
    base::put(&mut eight, lists);
    let pair = Pair::with(matrix_of(entries), eight);
    if lists.len() <= 8 {
        return pair;
    }
    with_positions(pair, &lists[8..])
}

// Multiplies letters into a pair, one by one, and returns what the last one gives.
fn after(pair: Pair, t_values: &[u8; 8], codes: &[u8]) -> Multiplied {
    let mut last = Multiplied { answer: 0, pair };
    for code in codes {
        last = pair_multiplier::multiply(last.pair, t_values, *code, Field::Gf32);
    }
    last
}

fn show_pair(rt: &impl Print, found: Multiplied) {
    print::answer(rt, found.answer);
    if found.answer == 0 {
        show::pair(rt, found.pair);
    } else {
        show::zeros(rt, show::is_zero_pair(found.pair));
    }
}

// Multiplies letters into a pair and prints the result. If no T-values are given, those of the plain key stand in their
// place.
pub(crate) fn letters(
    rt: &impl Print,
    codes: &[u8],
    t_values: &[u8],
    lists: &[u8],
    entries: &[u8],
) {
    let mut ts = [1, 1, 2, 3, 4, 5, 6, 7];
    base::put(&mut ts, t_values);
    show_pair(rt, after(pair_of(lists, entries), &ts, codes));
}

pub(crate) fn matrices(rt: &impl Print, first: &[u8], second: &[u8]) {
    let a = matrix_of(first);
    let b = matrix_of(second);
    let product = matrix_product::matrix_product(&a, &b, Field::Gf32);
    show::rows(rt, &product);
}
