// The verdict, whole and in two halves. Does the matrix that the word reaches from Pub(S) equal the matrix of the
// digest's braid times the matrix of Pub(S')?
#![tactic(auto)]

ghost use Rattle.std.specs.Prelude.{◌≡◌, ◌≤◌, length};
ghost use Rattle.base.specs.Questions.{first_no};
ghost use Rattle.word.specs.Words.{codes, word_answer};
ghost use Rattle.slip_verdict.specs.Verdict.{matrix_questions, slip_questions, verdict};
ghost use Rattle.slip_verdict.specs.Halves.{half_of, zero_half, MakesHalf, signed_by, second_half_questions};

use field::Field;
use key::Key;
use pair::Pair;

// What the first half gives and the second takes: the field, T-values, the pair Pub(S), and the target, with which the
// matrix that a signature reaches is compared.
#[derive(Clone, Copy)]
pub struct Half {
    pub field: Field,
    pub t_values: [u8; 8],
    pub pair: Pair,
    pub target: [u8; 64],
}

// An answer, and beside it a half, which is all zeros on a refusal.
#[derive(Clone, Copy)]
pub struct Halved {
    pub answer: u8,
    pub half: Half,
}

impl Halved {
    // A refusal: its number, and zeros.
    fn refused(answer: u8) -> Halved
        ensures { (result.answer ≡ answer) × (result.half ≡ zero_half) }
    {
        let half = Half {
            field: Field::Gf32,
            t_values: [0; 8],
            pair: Pair::zeros(),
            target: [0; 64],
        };
        Halved { answer, half }
    }
}

// The half of a key and a digest: the target is the digest's matrix times that of Pub(S'), over the key's field.
fn half_of(held: Key, digest: &[u8]) -> Half
    requires { length digest.now ≤ 64 }
    ensures { result ≡ half_of held digest.now }
{
    let first = slip_digest_braid::digest_matrix(&held.t_values, digest, held.field);
    Half {
        field: held.field,
        t_values: held.t_values,
        pair: held.pair,
        target: matrix_product::matrix_product(&first, &held.second, held.field),
    }
}

// The answer to an accepted word under a half: 14 if the word does not reach the target from Pub(S) over the half's
// field, otherwise 0.
fn copy_answer(half: Half, word: &[u8]) -> u8
    requires { word_answer word.now ≡ 0 }
    ensures { result ≡ first_no (matrix_questions (signed_by half (codes word.now)) half.target) }
{
    let reached = pair_file::carry_file(half.pair, &half.t_values, word, half.field);
    if !base::equal(&reached.matrix, &half.target) {
        return 14;
    }
    0
}

// The first half: the key's questions, then 8; what the second half takes, or zeros.
pub fn first_half(key: &[u8], digest: &[u8]) -> Halved
    ensures { MakesHalf key.now digest.now result.answer result.half }
{
    let read = key_reader::read_key(key);
    if read.answer != 0 {
        return Halved::refused(read.answer);
    }
    if !slip_digest::is_digest(digest, read.key.field) {
        return Halved::refused(8);
    }
    Halved {
        answer: 0,
        half: half_of(read.key, digest),
    }
}

// The second half: 17, 4 and 6 of the half, 26 of both its matrices, the word's questions, and 14.
pub fn second_half(half: Half, word: &[u8]) -> u8
    ensures { result ≡ first_no (second_half_questions half word.now) }
{
    let f = half.field;
    let bits = field::bits_of(f);
    let refusal = pair::pair_answer(half.pair, &half.t_values, &half.target, bits, f);
    if refusal != 0 {
        return refusal;
    }
    if !matrix_elimination::both_invertible(half.pair.matrix, half.target, f) {
        return 26;
    }
    let read = word::read_word(word);
    if read.answer != 0 {
        return read.answer;
    }
    copy_answer(half, word)
}

// The verdict on a slip under a key that was read: the first refusal of digest and word, or what the half of key and
// digest says of the word. The half is made only for an accepted word.
pub fn judge(held: Key, digest: &[u8], word: &[u8]) -> u8
    ensures { result ≡ first_no (slip_questions held digest.now word.now) }
{
    if !slip_digest::is_digest(digest, held.field) {
        return 8;
    }
    let read = word::read_word(word);
    if read.answer != 0 {
        return read.answer;
    }
    copy_answer(half_of(held, digest), word)
}

// The verdict: the first refusal of the key, or the verdict on the slip under it.
pub fn verify(key: &[u8], digest: &[u8], word: &[u8]) -> u8
    ensures { result ≡ verdict key.now digest.now word.now }
{
    let read = key_reader::read_key(key);
    if read.answer != 0 {
        return read.answer;
    }
    judge(read.key, digest, word)
}
