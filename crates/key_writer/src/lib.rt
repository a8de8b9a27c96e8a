// The key writer.
#![tactic(auto)]

ghost use Rattle.std.specs.Prelude.{◌≡◌, ◌&&◌};
ghost use Rattle.base.specs.Questions.{first_no};
ghost use Rattle.base.specs.Lists.{overlaid};
ghost use Rattle.field.specs.Fields.{bits};
ghost use Rattle.pair_operands.specs.steps.Fitting.{fit};
ghost use Rattle.key.specs.Keys.{key_file, key_writer_questions, WroteKey};
ghost use Rattle.key.specs.steps.Parts.{Fillable};

use field::Field;
use rows::pack_at;

mod rows; // rows.rt: rows of numbers packed into bytes

// Does every T-value and entry fit `bits` bits?
fn all_fit(ts: &[u8; 8], first: &[u8; 57], second: &[u8; 57], bits: usize) -> bool
    ensures { result ≡ (fit bits ts.now && fit bits first.now && fit bits second.now) }
{
    pair_operands::all_fit(ts, bits)
        && pair_operands::all_fit(first, bits)
        && pair_operands::all_fit(second, bits)
}

// Questions 16, 17, 4, 5, 6, 26, in this order: the number of the first question answered no, or 0 if there is none. An
// element of the field has `width` bits.
fn answer(
    room: usize,
    ts: &[u8; 8],
    labels: &[u8; 8],
    first: &[u8; 57],
    second: &[u8; 57],
    width: usize,
    f: Field,
) -> u8
    requires { width ≡ bits f }
    ensures { result ≡ first_no
        (key_writer_questions f room ts.now labels.now first.now second.now) }
{
    let size = key::file_bytes(width);
    if room < size {
        return 16;
    }
    if !all_fit(ts, first, second, width) {
        return 17;
    }
    if !pair_operands::all_nonzero(ts) {
        return 4;
    }
    if !key::starts_with_ones(ts) {
        return 5;
    }
    if !pair_operands::is_order(labels) {
        return 6;
    }
    let whole = key::whole_matrix(first);
    let other = key::whole_matrix(second);
    if !matrix_elimination::both_invertible(whole, other, f) {
        return 26;
    }
    0
}

// Writes the file to the output's first bytes: N and q, and then the packed parts, one after another.
fn fill(out: &mut [u8], ts: &[u8], labels: &[u8], first: &[u8], second: &[u8], bits: usize)
    requires { Fillable bits ts.now labels.now first.now second.now out.old }
    ensures { out.new
        ≡ overlaid (key_file bits ts.now labels.now first.now second.now)
        out.old }
{
    let size = base_rows::power(bits);
    base::put(out, &[8, (size / 256) as u8, (size % 256) as u8]);
    let matrix = pack_at(out, key::VALUES_PLACE, ts, bits);
    let labels_at = pack_at(out, matrix, first, bits);
    let after = pack_at(out, labels_at, labels, 3);
    pack_at(out, after, second, bits);
}

// Writes a key file over a field from fixed arrays: questions 16, 17, 4, 5, 6, 26. Bytes past the file do not change.
// On a refusal no byte changes.
pub fn write_key(
    t_values: &[u8; 8],
    labels: &[u8; 8],
    first: &[u8; 57],
    second: &[u8; 57],
    out: &mut [u8],
    f: Field,
) -> u8
    ensures { WroteKey f t_values.now labels.now first.now second.now
        out.old out.new result }
{
    let bits = field::bits_of(f);
    let answer = answer(out.len(), t_values, labels, first, second, bits, f);
    if answer != 0 {
        return answer;
    }
    fill(out, t_values, labels, first, second, bits);
    0
}
