// The multiplier used alone, by value and on a lent pair.
#![tactic(auto)]

ghost use Rattle.std.specs.Prelude.{◌≡◌, true, ◌<◌};
ghost use Rattle.field.specs.Fields.{operations, field_of};
ghost use Rattle.word.specs.Letters.{is_letter};
ghost use Rattle.word.specs.Strands.{inverse_list, are_inverse, swapped};
ghost use Rattle.pair.specs.Action.{letter_on};
ghost use Rattle.pair.specs.steps.Columns.{taken_by};
ghost use Rattle.pair.specs.PairQuestions.{zero_pair};
ghost use Rattle.pair_multiplier.specs.Multiplier.{Multiplies};
ghost use Rattle.pair_multiplier.specs.Lent.{Lends};
ghost use Rattle.pair_multiplier.specs.steps.InversePositions.{InversePositions};

use field::{Field, bits_of, inverse, modulus_of, reciprocals};
use pair::{Pair, multiply_columns, value_of};

// What the multiplier gives. The answer is the number of the first question answered no, or 0 if there is none. On a
// refusal the pair is all zeros.
#[derive(Clone, Copy)]
pub struct Multiplied {
    pub answer: u8,
    pub pair: Pair,
}

impl Multiplied {
    // A refusal: its number, and a pair of zeros.
    fn refused(answer: u8) -> Multiplied
        ensures { (result.answer ≡ answer) × (result.pair ≡ zero_pair) }
    {
        let pair = Pair::zeros();
        Multiplied { answer, pair }
    }
}

// The reciprocal of a number, by the field's table.
fn inverse_of(a: u8, f: Field) -> u8
    ensures { result ≡ (operations f).inv a }
{
    inverse(a, reciprocals(f))
}

// The number that a letter with own column g takes. A generator takes the T-value of the label at place g. An inverse
// letter takes the reciprocal of the T-value of the label at place g + 1.
fn taken(t_values: &[u8], labels: &[u8; 8], negative: bool, g: usize, f: Field) -> u8
    requires { g < 7 }
    ensures { result ≡ taken_by (operations f).inv t_values.now labels.now negative g }
{
    if negative {
        inverse_of(value_of(t_values, labels[g + 1]), f)
    } else {
        value_of(t_values, labels[g])
    }
}

// The positions after the labels at places g and g + 1 change places. Two positions change.
fn follow(positions: &mut [u8; 8], labels: &[u8; 8], g: u8)
    requires { InversePositions labels.now positions.old × (g < 7) }
    ensures { positions.new ≡ inverse_list (swapped g labels.now) }
{
    let at = usize::from(g);
    let own = usize::from(labels[at]);
    let next = usize::from(labels[at + 1]);
    positions[next] = g + 1;
    positions[own] = g + 2;
}

// Multiplies one letter into a pair and asks no question. The pair's lists are inverse to each other.
fn after_letter(mut pair: Pair, t_values: &[u8; 8], letter: u8, f: Field) -> Pair
    requires { (are_inverse pair.labels pair.positions ≡ true) × (is_letter letter ≡ true) }
    ensures { result ≡ letter_on (operations f) t_values.now letter pair }
{
    let g = usize::from(letter % 8);
    let negative = 8 <= letter;
    let bits = bits_of(f);
    let number = taken(t_values, &pair.labels, negative, g, f);
    let constants = matrix_columns::multiples_of(number, bits, modulus_of(f));
    let mut columns = matrix_columns::columns_of(&pair.matrix);
    follow(&mut pair.positions, &pair.labels, letter % 8);
    multiply_columns(
        &mut columns,
        &mut pair.labels,
        &constants,
        0,
        bits,
        g,
        negative,
    );
    pair.matrix = matrix_columns::matrix_of(&columns);
    pair
}

// The multiplier alone: 17 for T-values and entries, then 4, 6, 12. On a refusal the pair is all zeros.
pub fn multiply(pair: Pair, t_values: &[u8; 8], letter: u8, f: Field) -> Multiplied
    ensures { Multiplies f pair t_values.now letter result.answer result.pair }
{
    let refusal = pair::pair_answer(pair, t_values, &[], bits_of(f), f);
    if refusal != 0 {
        return Multiplied::refused(refusal);
    }
    if !word::is_letter(letter) {
        return Multiplied::refused(12);
    }
    let after = after_letter(pair, t_values, letter, f);
    Multiplied {
        answer: 0,
        pair: after,
    }
}

// An answer, and the pair that goes back to the caller.
#[derive(Clone, Copy)]
pub struct Stepped {
    pub answer: u8,
    pub pair: Pair,
}

impl Stepped {
    // A refusal: its number, and the lent pair unchanged.
    fn refused(answer: u8, pair: Pair) -> Stepped
        ensures { (result.answer ≡ answer) × (result.pair ≡ pair) }
    {
        Stepped { answer, pair }
    }
}

// Multiplies the letter into the pair, over GF(256) if `large` is true and over GF(32) otherwise. On a refusal the pair
// is unchanged.
pub fn step(pair: Pair, large: bool, t_values: &[u8; 8], letter: u8) -> Stepped
    ensures { Lends (field_of large) pair t_values.now letter result.answer result.pair }
{
    let f = field::field_of(large);
    let given = multiply(pair, t_values, letter, f);
    let answer = given.answer;
    let changed = given.pair;
    if answer != 0 {
        return Stepped::refused(answer, pair);
    }
    Stepped {
        answer,
        pair: changed,
    }
}
