// The key reader.
#![tactic(auto)]

ghost use Rattle.std.specs.Prelude.{◌≡◌, ◌≤◌, length};
ghost use Rattle.field.specs.Fields.{key_bytes};
ghost use Rattle.key.specs.Keys.{t_values_of, key_labels, key_field, key_parts, ReadsKey};
ghost use Rattle.key.specs.steps.Places.{file_bytes};

use field::Field;
use key::{Key, KeyRead};
use pair::Pair;

mod parts; // parts.rt: the parts of a key file, and its questions

// The key that a file holds. The caller has already unpacked the T-values and the list.
fn key_of(file: &[u8], f: Field, bits: usize, t_values: [u8; 8], labels: [u8; 8]) -> Key
    requires { (5 ≤ bits) × (bits ≤ 8) × (length file.now ≡ file_bytes bits) × (t_values ≡ t_values_of bits file.now)
        × (labels ≡ key_labels bits file.now) }
    ensures { result ≡ key_parts f bits file.now }
{
    let first = parts::matrix_at(file, key::first_place(bits), bits);
    let second = parts::matrix_at(file, key::second_place(bits), bits);
    Key {
        field: f,
        t_values,
        pair: Pair::with(first, labels),
        second,
    }
}

// Reads a key file over the field that goes with its length: questions 2 to 7, then 26 about both matrices.
fn read_over(file: &[u8], f: Field) -> KeyRead
    requires { (f ≡ key_field file.now) × (length file.now ≡ key_bytes f) }
    ensures { ReadsKey file.now result.answer result.key }
{
    let bits = field::bits_of(f);
    let numbers = parts::numbers_answer(file, bits);
    if numbers != 0 {
        return KeyRead::refused(numbers);
    }
    let t_values = parts::t_values(file, bits);
    let values = parts::t_values_answer(&t_values);
    if values != 0 {
        return KeyRead::refused(values);
    }
    let labels = parts::labels(file, bits);
    let answer = parts::list_answer(file, &labels, bits);
    if answer != 0 {
        return KeyRead::refused(answer);
    }
    let key = key_of(file, f, bits, t_values, labels);
    if !matrix_elimination::both_invertible(key.pair.matrix, key.second, f) {
        return KeyRead::refused(26);
    }
    KeyRead { answer, key }
}

// Reads a key file. The file's length names the field. A file of any other length is refused with 1.
pub fn read_key(file: &[u8]) -> KeyRead
    ensures { ReadsKey file.now result.answer result.key }
{
    match file.len() {
        key::SMALL_BYTES => read_over(file, Field::Gf32),
        key::LARGE_BYTES => read_over(file, Field::Gf256),
        _ => KeyRead::refused(1),
    }
}
