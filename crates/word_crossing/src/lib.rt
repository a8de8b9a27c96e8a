// How often two strands cross.
#![tactic(auto)]

ghost use Rattle.std.specs.Prelude.{◌≡◌, not, ◌&&◌, ltb, eqb, pos, replicate};
ghost use Rattle.word_crossing.specs.Crossings.{Crosses, CrossesAll};
ghost use Rattle.word_crossing.specs.steps.Pairs.{pair_at};

mod walk; // walk.rt: counts all pairs in one walk

// The number of the first question answered no, 0 if there is none; and how often the two labels cross, 0 on a refusal.
#[repr(C)]
#[derive(Clone, Copy)]
pub struct Crossing {
    pub answer: u8,
    pub crossings: i32,
}

impl Crossing {
    // A refusal: its number, and 0.
    fn refused(answer: u8) -> Crossing
        ensures { (result.answer ≡ answer) × (result.crossings ≡ pos 0) }
    {
        Crossing {
            answer,
            crossings: 0,
        }
    }
}

// The word's answer; and how often the labels of each of the 28 pairs cross, zeros on a refusal.
#[derive(Clone, Copy)]
pub struct AllCrossings {
    pub answer: u8,
    pub numbers: [i32; 28],
}

impl AllCrossings {
    // A refusal: its number, and zeros.
    fn refused(answer: u8) -> AllCrossings
        ensures { (result.answer ≡ answer) × (result.numbers ≡ replicate 28 (pos 0)) }
    {
        AllCrossings {
            answer,
            numbers: [0; 28],
        }
    }
}

// Two labels, the smaller first.
#[derive(Clone, Copy)]
pub struct Two {
    pub smaller: u8,
    pub larger: u8,
}

// The labels of pair k, counted from 0, in increasing order of the pairs; past the last pair, zeros.
pub fn pair_at(k: usize) -> Two
    ensures { result ≡ pair_at k }
{
    static SMALLER: [u8; 28] = [
        0, 0, 0, 0, 0, 0, 0, 1, 1, 1, 1, 1, 1, 2, 2, 2, 2, 2, 3, 3, 3, 3, 4, 4, 4, 5, 5, 6,
    ];
    static LARGER: [u8; 28] = [
        1, 2, 3, 4, 5, 6, 7, 2, 3, 4, 5, 6, 7, 3, 4, 5, 6, 7, 4, 5, 6, 7, 5, 6, 7, 6, 7, 7,
    ];
    if 28 <= k {
        return Two {
            smaller: 0,
            larger: 0,
        };
    }
    Two {
        smaller: SMALLER[k],
        larger: LARGER[k],
    }
}

// Are the labels at most 7, and different?
fn two_labels(a: u8, b: u8) -> bool
    ensures { result ≡ (ltb a 8 && ltb b 8 && not (eqb a b)) }
{
    (a < 8) & (b < 8) & (a != b)
}

// How often two strands cross, from the starting list: the word's questions, then 27.
pub fn crossings(word: &[u8], a: u8, b: u8) -> Crossing
    ensures { Crosses word.now a b result.answer result.crossings }
{
    let w = word::read_word(word);
    let refused = w.answer;
    if refused != 0 {
        return Crossing::refused(refused);
    }
    if !two_labels(a, b) {
        return Crossing::refused(27);
    }
    let walked = walk::counted(word);
    let number = walk::number(walked, a, b);
    Crossing {
        answer: 0,
        crossings: number,
    }
}

// How often every two strands cross, from the starting list: the word's questions.
pub fn all_crossings(word: &[u8]) -> AllCrossings
    ensures { CrossesAll word.now result.answer result.numbers }
{
    let w = word::read_word(word);
    let refused = w.answer;
    if refused != 0 {
        return AllCrossings::refused(refused);
    }
    let numbers = walk::numbers(word);
    AllCrossings { answer: 0, numbers }
}
