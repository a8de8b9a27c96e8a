// Cloaking: does a word bring a list back?
#![tactic(auto)]

ghost use Rattle.std.specs.Prelude.{◌≡◌, false, length};
ghost use Rattle.field.specs.Fields.{operations};
ghost use Rattle.word.specs.Words.{codes, word_answer};
ghost use Rattle.slip_cloaking.specs.Cloaking.{does_come_back, is_list, Cloaks};

use field::Field;
use pair::Pair;

// An answer, and yes or no. On a refusal it is no.
#[repr(C)]
#[derive(Clone, Copy)]
pub struct Cloak {
    pub answer: u8,
    pub yes: bool,
}

impl Cloak {
    // A refusal: its number, and no.
    fn refused(answer: u8) -> Cloak
        ensures { (result.answer ≡ answer) × (result.yes ≡ false) }
    {
        Cloak { answer, yes: false }
    }
}

// Is the list 8 bytes, 0 to 7 each once?
fn is_list(labels: &[u8]) -> bool
    ensures { result ≡ is_list labels.now }
{
    labels.len() == Pair::STRANDS && pair_operands::is_order(labels)
}

// Does the identity matrix with the list, multiplied by an accepted word, come back unchanged, list included?
fn comes_back(t_values: &[u8; 8], labels: &[u8], word: &[u8], f: Field) -> bool
    requires { (length labels.now ≡ 8) × (word_answer word.now ≡ 0) }
    ensures { result ≡ does_come_back (operations f) t_values.now labels.now (codes word.now) }
{
    let mut list = [0; 8];
    list.copy_from_slice(labels);
    let before = Pair::with(Pair::start().matrix, list);
    let after = pair_file::carry_file(before, t_values, word, f);
    base::equal(&after.matrix, &before.matrix) && base::equal(&after.labels, &before.labels)
}

// Cloaking: the key's questions, then 25, then the word's questions.
pub fn cloaks(key: &[u8], labels: &[u8], word: &[u8]) -> Cloak
    ensures { Cloaks key.now labels.now word.now result.answer result.yes }
{
    let read = key_reader::read_key(key);
    if read.answer != 0 {
        return Cloak::refused(read.answer);
    }
    if !is_list(labels) {
        return Cloak::refused(25);
    }
    let found = word::read_word(word);
    if found.answer != 0 {
        return Cloak::refused(found.answer);
    }
    Cloak {
        answer: 0,
        yes: comes_back(&read.key.t_values, labels, word, read.key.field),
    }
}
