// Pairs and matrices on standard output.
use pair::Pair;

// Are the matrix and the eight numbers all zeros?
pub(crate) fn is_zeros(matrix: &[u8; 64], eight: &[u8; 8]) -> bool {
    *matrix == [0; 64] && *eight == [0; 8]
}

// Are the matrix and both lists of the pair all zeros?
pub(crate) fn is_zero_pair(pair: Pair) -> bool {
    is_zeros(&pair.matrix, &pair.labels) && pair.positions == [0; 8]
}

// Prints whether the values beside a refusal are all zeros, and ends the line.
pub(crate) fn zeros(rt: &impl Print, are: bool) {
    print::choice(rt, are, b" zeros\n", b" not zeros\n");
}

// Prints a matrix, one line for each row.
pub(crate) fn rows(rt: &impl Print, matrix: &[u8; 64]) {
    for i in 0..64 {
        if i % 8 == 0 {
            print::text(rt, b"\n ");
        }
        print::byte(rt, matrix::entry(matrix, i / 8, i % 8));
    }
    print::text(rt, b"\n");
}

// Prints a pair: its list, the positions of the labels, then its matrix.
pub(crate) fn pair(rt: &impl Print, pair: Pair) {
    print::hex(rt, &pair.labels);
    print::text(rt, b", positions");
    print::hex(rt, &pair.positions);
    rows(rt, &pair.matrix);
}
