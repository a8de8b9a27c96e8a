// Counts all pairs of labels in one walk over a word. A table has a counter for each sign and each two labels in
// order. Each letter increments exactly one counter, with no branch.
ghost use Rattle.std.specs.Prelude.{◌+◌, ◌≤◌, ◌<◌, ◌≡◌, true, pos, ◌-ℤ◌, length, get_or, ◌==◌, position};
ghost use Rattle.base.specs.Lists.{every};
ghost use Rattle.word.specs.Letters.{is_letter};
ghost use Rattle.word.specs.Strands.{is_order};
ghost use Rattle.word.specs.Words.{codes, word_answer};
ghost use Rattle.word_crossing.specs.steps.Counting.{slot, OneCounted, Labelled, Table, finding};
ghost use Rattle.word_crossing.specs.steps.Halves.{Walks, Ready, FoundOf};
ghost use Rattle.word_crossing.specs.Crossings.{all_crossings};

use crate::pair_at;

// The place of a sign, 0 for a generator and 1 for an inverse, and two labels.
fn slot(sign: u8, p: u8, q: u8) -> usize
    requires { (sign < 2) × (p < 8) × (q < 8) }
    ensures { result ≡ slot sign p q }
{
    usize::from(sign) * 64 + usize::from(p) * 8 + usize::from(q)
}

// Counts one letter by its sign and the two labels that it finds. The two labels then change places.
fn letter(labels: &mut [u8; 8], counts: &mut [u32; 128], code: u8)
    requires { Labelled labels.old × Table counts.old × (is_letter code ≡ true) }
    ensures { OneCounted code labels.old counts.old labels.new counts.new }
{
    let at = (code % 8) as usize;
    let own = labels[at];
    let after = labels[at + 1];
    let k = slot(code / 8, own, after);
    counts[k] += 1;
    labels[at] = after;
    labels[at + 1] = own;
}

// What a walk leaves: a table of the word's first half, a table of its second half, and the list between the halves.
// Both tables start from the list 0 to 7, so labels of the second table are places of the list between the halves.
#[derive(Clone, Copy)]
pub(crate) struct Walked {
    pub first: [u32; 128],
    pub second: [u32; 128],
    pub middle: [u8; 8],
}

// Counts the letters of a row, in two halves side by side. A letter waits for the labels that the letters before it
// stored. The halves do not wait for each other.
fn walk(codes: &[u8]) -> Walked
    requires { (length codes.now ≤ 10000) × (every is_letter codes.now ≡ true) }
    ensures { Walks codes.now result.first result.second result.middle }
{
    let half = codes.len() / 2;
    let mut middle: [u8; 8] = [0, 1, 2, 3, 4, 5, 6, 7];
    let mut labels: [u8; 8] = [0, 1, 2, 3, 4, 5, 6, 7];
    let mut first = [0u32; 128];
    let mut second = [0u32; 128];
    for i in 0..half {
        letter(&mut middle, &mut first, codes[i]);
        letter(&mut labels, &mut second, codes[half + i]);
    }
    if half + half < codes.len() {
        letter(&mut labels, &mut second, codes[half + half]);
    }
    Walked {
        first,
        second,
        middle,
    }
}

// The walk of an accepted word.
pub(crate) fn counted(word: &[u8]) -> Walked
    requires { word_answer word.now ≡ 0 }
    ensures { Walks (codes word.now) result.first result.second result.middle }
{
    let n = word::stated(word);
    let mut row = [0u8; word::MAX_LETTERS];
    word::unpack(&word[2..], &mut row);
    walk(&row[..n])
}

// The difference of two numbers up to 40,000.
fn less(a: u32, b: u32) -> i32
    requires { (a ≤ 40000) × (b ≤ 40000) }
    ensures { result ≡ pos a -ℤ pos b }
{
    let x = a as i32;
    let y = b as i32;
    x - y
}

// The first place of a label, if the list has it.
fn found(labels: &[u8], a: u8) -> Option<usize>
    ensures { result ≡ position (λ x. x == a) labels.now }
{
    labels.iter().position(|x| *x == a)
}

// The place of a label in a list of 0 to 7, each once.
fn place_of(labels: &[u8; 8], a: u8) -> u8
    requires { (length labels.now ≡ 8) × (is_order labels.now ≡ true) × (a < 8) }
    ensures { (get_or labels.now result 0 ≡ a) × (result < 8) }
{
    found(labels, a).unwrap() as u8
}

// The letters of a sign that find two labels, either way round.
fn finding(counts: &[u32; 128], sign: u8, a: u8, b: u8) -> u32
    requires { Table counts.now × (sign < 2) × (a < 8) × (b < 8) }
    ensures { (result ≡ finding counts.now sign a b) × (result ≤ 20000) }
{
    counts[slot(sign, a, b)] + counts[slot(sign, b, a)]
}

// The generators that swap two labels less the inverses that do, of the word that was walked.
pub(crate) fn number(walked: Walked, a: u8, b: u8) -> i32
    requires { Ready walked.first walked.second walked.middle × (a < 8) × (b < 8) }
    ensures { FoundOf walked.first walked.second walked.middle a b result }
{
    let middle = walked.middle;
    let p = place_of(&middle, a);
    let q = place_of(&middle, b);
    let first = walked.first;
    let second = walked.second;
    let generators = finding(&first, 0, a, b) + finding(&second, 0, p, q);
    let inverses = finding(&first, 1, a, b) + finding(&second, 1, p, q);
    less(generators, inverses)
}

// The numbers of all pairs of an accepted word.
pub(crate) fn numbers(word: &[u8]) -> [i32; 28]
    requires { word_answer word.now ≡ 0 }
    ensures { result ≡ all_crossings (codes word.now) }
{
    let walked = counted(word);
    let mut numbers = [0i32; 28];
    for k in 0..28 {
        let two = pair_at(k);
        numbers[k] = number(walked, two.smaller, two.larger);
    }
    numbers
}
