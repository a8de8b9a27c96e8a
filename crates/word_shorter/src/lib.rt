// The shorter of two word files: which file it is, and the file itself as one of two lent slices.
#![tactic(auto)]

ghost use Rattle.std.specs.Prelude.{◌≡◌};
ghost use Rattle.word_shorter.specs.Shorter.{shorter, Chose, IsThatSlice};

// Which of two word files is the shorter. `answer` is the number of the first question answered no, or 0. `which` is 1
// for the first file, 2 for the second, and 0 on a refusal.
#[repr(C)]
#[derive(Clone, Copy)]
pub struct Choice {
    pub answer: u8,
    pub which: u8,
}

impl Choice {
    // A refusal has its number and no file.
    fn refused(answer: u8) -> Choice
        ensures { (result.answer ≡ answer) × (result.which ≡ 0) }
    {
        Choice { answer, which: 0 }
    }
}

// The word's questions are put to the first file, then to the second. Then the shorter file is chosen, the first on a
// tie.
pub fn choose(a: &[u8], b: &[u8]) -> Choice
    ensures { Chose a.now b.now result.answer result.which }
{
    let first = word::read_word(a);
    if first.answer != 0 {
        return Choice::refused(first.answer);
    }
    let second = word::read_word(b);
    if second.answer != 0 {
        return Choice::refused(second.answer);
    }
    let which = if a.len() <= b.len() { 1 } else { 2 };
    Choice { answer: 0, which }
}

// The shorter file itself, the first on a tie. On a refusal it is the empty part of the first file.
pub fn shorter<'a>(a: &'a [u8], b: &'a [u8]) -> &'a [u8]
    ensures result_value { result.now ≡ shorter a.now b.now }
    ensures that_slice { IsThatSlice a.entry b.entry result }
{
    let c = choose(a, b);
    if c.which == 1 {
        return a;
    }
    if c.which == 2 {
        return b;
    }
    &a[..0]
}
