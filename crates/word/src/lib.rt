// Letters, lists of labels, word files and their reader, free reduction as a definition.
#![tactic(auto)]

ghost use Rattle.std.specs.Prelude.{◌≡◌};

mod codes; // codes.rt: unpacks codes, sixteen at a time
mod read; // read.rt: the word reader

pub use codes::{sixteen_at, unpack};
pub use read::{code_part, half, inverse, is_letter, letter_at, read_word, stated};

// The limits of a word: its letters, and the bytes of its file.
pub const MAX_LETTERS: usize = 10000;

pub const MAX_BYTES: usize = 5002;

// What the word reader returns. `answer` is the number of the first question answered no, or 0. `letters` is the number
// of letters, 0 on a refusal.
#[repr(C)]
#[derive(Clone, Copy)]
pub struct Word {
    pub answer: u8,
    pub letters: usize,
}

impl Word {
    // A refusal has its number and no letters.
    fn refused(answer: u8) -> Word
        ensures { (result.answer ≡ answer) × (result.letters ≡ 0) }
    {
        Word { answer, letters: 0 }
    }
}

// The letter at a place. `left` says whether a letter is left there. `code` is its code, or 0 if none is left.
#[derive(Clone, Copy)]
pub struct Letter {
    pub left: bool,
    pub code: u8,
}

// What a writer of words returns: its answer, and the number of bytes written, 0 on a refusal.
#[repr(C)]
#[derive(Clone, Copy)]
pub struct Written {
    pub answer: u8,
    pub bytes: usize,
}

impl Written {
    // A refusal has its number and no bytes.
    pub fn refused(answer: u8) -> Written
        ensures { (result.answer ≡ answer) × (result.bytes ≡ 0) }
    {
        Written { answer, bytes: 0 }
    }
}
