// How words spread: how many words of a length end in a list of four labels.
#![tactic(auto)]

ghost use Rattle.std.specs.Prelude.{◌≤◌, ◌<◌, ◌≡◌, replicate};
ghost use Rattle.word_spread.specs.Spread.{is_four, max_length, Ends, EndsAll, list_at};
ghost use Rattle.word_spread.specs.steps.Counting.{all_small, all_differ, smaller, place_of};
ghost use Rattle.word_spread.specs.steps.Counting.{Counted};

mod step; // step.rt: one letter more

// The most letters of a word that is counted.
pub const MAX_LENGTH: usize = 12;

// 0, or 35; and how many words end in the list, 0 on a refusal.
#[repr(C)]
#[derive(Clone, Copy)]
pub struct Count {
    pub answer: u8,
    pub words: u32,
}

impl Count {
    // The refusal: 35, and 0.
    fn refusal() -> Count
        ensures { (result.answer ≡ 35) × (result.words ≡ 0) }
    {
        Count {
            answer: 35,
            words: 0,
        }
    }
}

// 0, or 35; and how many words end in each of the 24 lists, zeros on a refusal.
#[derive(Clone, Copy)]
pub struct AllCounts {
    pub answer: u8,
    pub numbers: [u32; 24],
}

impl AllCounts {
    // The refusal: 35, and zeros.
    fn refusal() -> AllCounts
        ensures { (result.answer ≡ 35) × (result.numbers ≡ replicate 24 0) }
    {
        AllCounts {
            answer: 35,
            numbers: [0; 24],
        }
    }
}

// Are four labels at most 3?
fn all_small(a: u8, b: u8, c: u8, d: u8) -> bool
    ensures { result ≡ all_small a b c d }
{
    (a < 4) & (b < 4) & (c < 4) & (d < 4)
}

// Are no two of four labels equal?
fn all_differ(a: u8, b: u8, c: u8, d: u8) -> bool
    ensures { result ≡ all_differ a b c d }
{
    (a != b) & (a != c) & (a != d) & (b != c) & (b != d) & (c != d)
}

// Is the list four labels, 0 to 3 each once?
fn is_four(labels: &[u8]) -> bool
    ensures { result ≡ is_four labels.now }
{
    if labels.len() != 4 {
        return false;
    }
    let a = labels[0];
    let b = labels[1];
    let c = labels[2];
    let d = labels[3];
    if !all_small(a, b, c, d) {
        return false;
    }
    all_differ(a, b, c, d)
}

// 1 if the first label is smaller, 0 otherwise.
fn smaller(a: u8, b: u8) -> usize
    ensures { result ≡ smaller a b }
{
    usize::from(a < b)
}

// The place of a list among the 24, increasing: six lists begin with each label, two of these go on with each other
// label, and the last two labels stand in order or not.
fn place(a: u8, b: u8, c: u8, d: u8) -> usize
    ensures { result ≡ place_of a b c d }
{
    let first = a as usize;
    let second = b as usize;
    6 * first + 2 * (second - smaller(a, b)) + smaller(d, c)
}

// List k of the 24, increasing.
pub fn list_at(k: usize) -> [u8; 4]
    requires { k < 24 }
    ensures { result ≡ list_at k }
{
    static LISTS: [[u8; 4]; 24] = [
        [0, 1, 2, 3],
        [0, 1, 3, 2],
        [0, 2, 1, 3],
        [0, 2, 3, 1],
        [0, 3, 1, 2],
        [0, 3, 2, 1],
        [1, 0, 2, 3],
        [1, 0, 3, 2],
        [1, 2, 0, 3],
        [1, 2, 3, 0],
        [1, 3, 0, 2],
        [1, 3, 2, 0],
        [2, 0, 1, 3],
        [2, 0, 3, 1],
        [2, 1, 0, 3],
        [2, 1, 3, 0],
        [2, 3, 0, 1],
        [2, 3, 1, 0],
        [3, 0, 1, 2],
        [3, 0, 2, 1],
        [3, 1, 0, 2],
        [3, 1, 2, 0],
        [3, 2, 0, 1],
        [3, 2, 1, 0],
    ];
    LISTS[k]
}

// How many words of a length end in each of the 24 lists: one word without letters, which ends in the first list, and
// then a letter more at each step.
fn counted(length: usize) -> [u32; 24]
    requires { length ≤ max_length }
    ensures { Counted length result }
{
    let mut counts = [0u32; 24];
    counts[0] = 1;
    for _n in 0..length {
        counts = step::step(&counts);
    }
    counts
}

// How many words of a length end in a list: 35.
pub fn words_ending(length: usize, labels: &[u8]) -> Count
    ensures { Ends length labels.now result.answer result.words }
{
    if MAX_LENGTH < length {
        return Count::refusal();
    }
    if !is_four(labels) {
        return Count::refusal();
    }
    let k = place(labels[0], labels[1], labels[2], labels[3]);
    let counts = counted(length);
    let words = counts[k];
    Count { answer: 0, words }
}

// How many words of a length end in each of the 24 lists: 35.
pub fn all_endings(length: usize) -> AllCounts
    ensures { EndsAll length result.answer result.numbers }
{
    if MAX_LENGTH < length {
        return AllCounts::refusal();
    }
    let numbers = counted(length);
    AllCounts { answer: 0, numbers }
}
