// The parts of a key file whose elements have `bits` bits, and questions 2 to 7. Each part is unpacked after the
// questions about the parts before it.
ghost use Rattle.std.specs.Prelude.{◌≡◌, ◌&&◌, [], ◌∷◌, eqb, ◌+◌, ◌-◌, ◌<◌, ◌≤◌, length, take, drop};
ghost use Rattle.base.specs.Questions.{◌else◌, first_no};
ghost use Rattle.base.specs.Digits.{part};
ghost use Rattle.base.specs.Packing.{row_bytes, unpacked_row};
ghost use Rattle.key.specs.Keys.{t_values_of, key_labels, entries, whole_matrix, matrix_filler, first_bytes};
ghost use Rattle.key.specs.steps.Places.{file_bytes};
ghost use Rattle.key.specs.steps.Filling.{RowPut};
ghost use Rattle.key.specs.Keys.{second_bytes, starts_with_ones, part_questions};
ghost use Rattle.pair_operands.specs.Operands.{nonzero};

// Unpacks the eight numbers of `bits` bits that end before place `end`. They are the last digits of the number that the
// eight bytes before this place write.
fn eight(file: &[u8], end: usize, bits: usize) -> [u8; 8]
    requires { (bits ≤ 8) × (8 ≤ end) × (end ≤ length file.now) }
    ensures { result ≡ unpacked_row bits 8 (part (end - bits) bits file.now) }
{
    let mut all = [0u8; 8];
    let number = base::eight_bytes(file, end - 8);
    base::spell(&mut all, base_rows::power(bits), number);
    all
}

pub(crate) fn t_values(file: &[u8], bits: usize) -> [u8; 8]
    requires { (5 ≤ bits) × (bits ≤ 8) × (length file.now ≡ file_bytes bits) }
    ensures { result ≡ t_values_of bits file.now }
{
    eight(file, key::first_place(bits), bits)
}

pub(crate) fn labels(file: &[u8], bits: usize) -> [u8; 8]
    requires { (5 ≤ bits) × (bits ≤ 8) × (length file.now ≡ file_bytes bits) }
    ensures { result ≡ key_labels bits file.now }
{
    eight(file, key::second_place(bits), 3)
}

// Puts eight entries of a file in row r of a matrix, one of the first seven rows.
fn put_row(m: &mut [u8; 64], row: &[u8; 8], r: usize)
    requires { (length m.old ≡ 64) × (r < 7) }
    ensures { RowPut row.now r m.old m.new }
{
    for c in 0..8 {
        m[matrix::place(r, c)] = row[c];
    }
}

// Unpacks the matrix whose bytes begin at place `at`.
pub(crate) fn matrix_at(file: &[u8], at: usize, bits: usize) -> [u8; 64]
    requires { (5 ≤ bits) × (bits ≤ 8) × (8 ≤ at) × (at + row_bytes bits 57 ≤ length file.now) }
    ensures { result ≡ whole_matrix (entries bits (part at (row_bytes bits 57) file.now)) }
{
    let mut m = [0u8; 64];
    for r in 0..7 {
        let row = eight(file, at + (r + 1) * bits, bits);
        put_row(&mut m, &row, r);
    }
    m[matrix::place(7, 7)] = file[at + 7 * bits] >> (8 - bits);
    m
}

// Are all filler bits zero?
fn filler_is_zero(file: &[u8], bits: usize) -> bool
    requires { (bits ≤ 8) × (length file.now ≡ file_bytes bits) }
    ensures { result ≡ (eqb (matrix_filler bits (first_bytes bits file.now)) 0
        && eqb (matrix_filler bits (second_bytes bits file.now)) 0) }
{
    let at = key::first_place(bits);
    let end = key::labels_place(bits);
    if !base_rows::filler_is_zero(&file[at..end], bits, 57) {
        return false;
    }
    let second = key::second_place(bits);
    base_rows::filler_is_zero(&file[second..], bits, 57)
}

// Questions 2 and 3, about the numbers N and q: the number of the first question answered no, or 0 if there is none.
pub(crate) fn numbers_answer(file: &[u8], bits: usize) -> u8
    requires { (bits ≤ 8) × (length file.now ≡ file_bytes bits) }
    ensures { result ≡ first_no (take 2 (part_questions bits file.now)) }
{
    let strands = file[0];
    if strands != 8 {
        return 2;
    }
    let size = base::two_bytes(file, 1) as u64;
    let wanted = base_rows::power(bits);
    if size != wanted {
        return 3;
    }
    0
}

// Questions 4 and 5, about the T-values: the number of the first question answered no, or 0 if there is none.
pub(crate) fn t_values_answer(ts: &[u8; 8]) -> u8
    ensures { result ≡ first_no ((nonzero ts.now else 4) ∷ (starts_with_ones ts.now else 5) ∷ []) }
{
    if !pair_operands::all_nonzero(ts) {
        return 4;
    }
    if !key::starts_with_ones(ts) {
        return 5;
    }
    0
}

// Questions 6 and 7, about the list and the filler: the number of the first question answered no, or 0 if there is
// none. The caller has already unpacked the list.
pub(crate) fn list_answer(file: &[u8], labels: &[u8; 8], bits: usize) -> u8
    requires { (bits ≤ 8) × (length file.now ≡ file_bytes bits) × (labels.now ≡ key_labels bits file.now) }
    ensures { result ≡ first_no (drop 4 (part_questions bits file.now)) }
{
    if !pair_operands::is_order(labels) {
        return 6;
    }
    if !filler_is_zero(file, bits) {
        return 7;
    }
    0
}
