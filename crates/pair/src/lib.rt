// Pairs, one letter on a pair, the braid relations.
#![tactic(auto)]

ghost use Rattle.std.specs.Prelude.{◌≡◌, get_or};
ghost use Rattle.word.specs.Strands.{inverse_list};
ghost use Rattle.pair.specs.Action.{pair_of, start};
ghost use Rattle.pair.specs.PairQuestions.{zero_pair};

mod letter; // letter.rt: one letter multiplied into a pair in place
mod questions; // questions.rt: the questions about T-values and a pair

pub use letter::{multiply_columns, one_letter};
pub use questions::pair_answer;

// A pair is an 8 by 8 matrix, stored column by column, a list of eight labels, and the inverse list: for each label,
// its position in the list, counted from 1.
#[repr(C)]
#[derive(Clone, Copy)]
pub struct Pair {
    pub matrix: [u8; 64],
    pub labels: [u8; 8],
    pub positions: [u8; 8],
}

impl Pair {
    // The number of strands, which is the number of rows, of columns and of labels.
    pub const STRANDS: usize = 8;

    // The most letters that a word file may have when it is multiplied into a pair.
    pub const LETTERS: usize = word::MAX_LETTERS;

    pub fn with(matrix: [u8; 64], labels: [u8; 8]) -> Pair
        ensures { result ≡ pair_of matrix labels }
    {
        let positions = positions_of(&labels);
        Pair {
            matrix,
            labels,
            positions,
        }
    }

    // The pair of a refusal: all zeros.
    pub fn zeros() -> Pair
        ensures { result ≡ zero_pair }
    {
        Pair {
            matrix: [0; 64],
            labels: [0; 8],
            positions: [0; 8],
        }
    }

    // The starting pair is the identity matrix with the list 0 to 7.
    pub fn start() -> Pair
        ensures { result ≡ start }
    {
        let mut matrix = [0u8; 64];
        for i in 0..8 {
            matrix[9 * i] = 1;
        }
        Pair::with(matrix, [0, 1, 2, 3, 4, 5, 6, 7])
    }
}

// The inverse list: for each label 0 to 7, its position, counted from 1, or 0 for a label that is not in the list. A
// label over 7 has no position.
fn positions_of(labels: &[u8; 8]) -> [u8; 8]
    ensures { result ≡ inverse_list labels.now }
{
    let mut positions = [0u8; 8];
    for i in 0..8u8 {
        let label = labels[usize::from(i)];
        if label < 8 {
            positions[usize::from(label)] = i + 1;
        }
    }
    positions
}

// The T-value of a label, or 0 for a label past the last one.
pub fn value_of(t_values: &[u8], label: u8) -> u8
    ensures { result ≡ get_or t_values.now label 0 }
{
    t_values.get(usize::from(label)).copied().unwrap_or(0)
}
