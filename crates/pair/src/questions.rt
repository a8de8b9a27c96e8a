// The questions about T-values and a pair that a caller hands in.
ghost use Rattle.std.specs.Prelude.{◌≡◌, ◌^◌};
ghost use Rattle.base.specs.Questions.{first_no};
ghost use Rattle.field.specs.Fields.{operations};
ghost use Rattle.pair.specs.PairQuestions.{pair_questions};

use crate::Pair;
use field::Field;
use pair_operands::{all_fit, all_nonzero, are_inverse};

// The number of the first question answered no, or 0 if there is none: 17 for T-values, the pair's entries and the
// other entries, then 4, then 6 for the two lists. An element of the field has `bits` bits.
pub fn pair_answer(pair: Pair, t_values: &[u8; 8], others: &[u8], bits: usize, f: Field) -> u8
    requires { (operations f).size ≡ 2 ^ bits }
    ensures { result ≡ first_no (pair_questions f t_values.now pair others.now) }
{
    if !all_fit(t_values, bits) {
        return 17;
    }
    if !all_fit(&pair.matrix, bits) {
        return 17;
    }
    if !all_fit(others, bits) {
        return 17;
    }
    if !all_nonzero(t_values) {
        return 4;
    }
    if !are_inverse(&pair.labels, &pair.positions) {
        return 6;
    }
    0
}
