// Key files. A key file has 83 bytes over GF(32) and 128 over GF(256). This crate has what the key reader and the key
// writer share.
#![tactic(auto)]

ghost use Rattle.std.specs.Prelude.{◌≡◌, length};
ghost use Rattle.key.specs.Keys.{whole_matrix, file_entries, starts_with_ones, zero_key};

use field::Field;
use pair::Pair;

mod width; // width.rt: what differs between the two fields

pub use width::{
    LARGE_BYTES, SMALL_BYTES, VALUES_PLACE, file_bytes, first_place, labels_place, second_place,
};

// What a key file holds: the field, the T-values, the pair Pub(S) and the matrix of Pub(S').
#[derive(Clone, Copy)]
pub struct Key {
    pub field: Field,
    pub t_values: [u8; 8],
    pub pair: Pair,
    pub second: [u8; 64],
}

// An answer and a key. On a refusal the key is all zeros.
#[derive(Clone, Copy)]
pub struct KeyRead {
    pub answer: u8,
    pub key: Key,
}

impl KeyRead {
    // A refusal: its number, and a key of zeros. The field of this key is the one with 32 elements.
    pub fn refused(answer: u8) -> KeyRead
        ensures { (result.answer ≡ answer) × (result.key ≡ zero_key) }
    {
        let key = Key {
            field: Field::Gf32,
            t_values: [0; 8],
            pair: Pair::zeros(),
            second: [0; 64],
        };
        KeyRead { answer, key }
    }
}

// Are the first two T-values 1?
pub fn starts_with_ones(ts: &[u8; 8]) -> bool
    ensures { result ≡ starts_with_ones ts.now }
{
    ts.starts_with(&[1, 1])
}

// The matrix of the 57 entries that a file holds: rows 1 to 7 whole, then the last entry of row 8, whose other entries
// are 0.
pub fn whole_matrix(all: &[u8]) -> [u8; 64]
    requires { length all.now ≡ 57 }
    ensures { result ≡ whole_matrix all.now }
{
    let mut m = [0u8; 64];
    for k in 0..56 {
        m[matrix::place(k / 8, k % 8)] = all[k];
    }
    m[matrix::place(7, 7)] = all[56];
    m
}

// The 57 entries that a key file holds of a matrix, as the key writer takes them: rows 1 to 7 whole, then the last
// entry of row 8.
pub fn file_entries(matrix: &[u8; 64]) -> [u8; 57]
    ensures { result ≡ file_entries matrix.now }
{
    let mut entries = [0u8; 57];
    for k in 0..56 {
        entries[k] = matrix::entry(matrix, k / 8, k % 8);
    }
    entries[56] = matrix::entry(matrix, 7, 7);
    entries
}
