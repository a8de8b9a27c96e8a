// Taking handles out of a word file.
#![tactic(auto)]

ghost use Rattle.std.specs.Prelude.{false, ◌≡◌};
ghost use Rattle.handle_reducer.specs.Reducing.{TookHandles};

// What taking handles out returns: its answer, the number of bytes written, and whether a handle is left; 0 and no on a
// refusal.
#[repr(C)]
#[derive(Clone, Copy)]
pub struct Handles {
    pub answer: u8,
    pub bytes: usize,
    pub left: bool,
}

impl Handles {
    // A refusal has its number, no bytes, and says that no handle is left.
    fn refused(answer: u8) -> Handles
        ensures { (result.answer ≡ answer) × (result.bytes ≡ 0) × (result.left ≡ false) }
    {
        Handles {
            answer,
            bytes: 0,
            left: false,
        }
    }
}

// Takes handles out of a word, up to the limit of steps: 15, the word, then 32 of every step. It writes to the output
// only after the last step.
pub fn handle_reduce(word: &[u8], limit: u16, out: &mut [u8]) -> Handles
    ensures { TookHandles word.now limit out.old out.new result.answer result.bytes result.left }
{
    if out.len() < word::MAX_BYTES {
        return Handles::refused(15);
    }
    let w = word::read_word(word);
    if w.answer != 0 {
        return Handles::refused(w.answer);
    }
    let mut codes = [0u8; word::MAX_LETTERS];
    word::unpack(&word[2..], &mut codes);
    let last = handle_steps::reduce(&mut codes, w.letters, usize::from(limit));
    if last.answer != 0 {
        return Handles::refused(last.answer);
    }
    let n = last.letters;
    let written = word_writer::write_word(&codes[..n], out);
    Handles {
        answer: written.answer,
        bytes: written.bytes,
        left: last.left,
    }
}
