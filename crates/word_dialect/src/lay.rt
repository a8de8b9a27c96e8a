// The runs of a word's codes, one after another.
ghost use Rattle.std.specs.Prelude.{◌+◌, ◌*◌, ◌≤◌, ◌<◌, ◌≡◌, ◌++◌, length, take};
ghost use Rattle.base.specs.Packing.{Below};
ghost use Rattle.word_dialect.specs.steps.Table.{IsTable, table_run, laid};

// The number of letters in the runs of all codes.
pub(crate) fn letters_of(codes: &[u8], table: &[u8]) -> usize
    requires { IsTable table.now × Below 16 codes.now × (length codes.now ≤ 10000) }
    ensures { result ≡ length (laid table.now codes.now) }
{
    let mut letters = 0;
    for c in codes {
        letters += usize::from(table[8 * usize::from(*c) + 7]);
    }
    letters
}

// Writes the run of code c from place `at` on, and returns the place after it. All eight entries are copied, and the
// next run overwrites the excess. The loop compiles to one move of eight bytes. `copy_from_slice` would compare the two
// addresses for each letter, which takes twice the time.
fn lay(row: &mut [u8], at: usize, table: &[u8], c: usize) -> usize
    requires { IsTable table.now × (c < 16) × (at + 8 ≤ length row.old) }
    ensures { (result ≡ at + length (table_run table.now c)) × (result ≤ at + 7)
        × (take result row.new ≡ take at row.old ++ table_run table.now c) }
{
    let from = 8 * c;
    for i in 0..8 {
        row[at + i] = table[from + i];
    }
    at + usize::from(table[from + 7])
}

// Writes the runs of all codes to the front of the row. The contract leaves open what the row holds after them.
pub(crate) fn lay_all(row: &mut [u8], codes: &[u8], table: &[u8])
    requires { IsTable table.now × Below 16 codes.now × (length (laid table.now codes.now) + 8 ≤ length row.old) }
    ensures { take (length (laid table.now codes.now)) row.new
        ≡ laid table.now codes.now }
{
    let mut at = 0;
    for c in codes {
        at = lay(row, at, table, usize::from(*c));
    }
}
