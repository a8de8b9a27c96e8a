// The rewriter: a list of moves on a word file.
#![tactic(auto)]

ghost use Rattle.move_rewriter.specs.Rewriter.{Rewrote};

use word::Written;

mod list; // list.rt: the move list, its questions and its moves

// The rewriter: 15, the word, the move list, then move by move. It writes to the output only after it has made every
// move.
pub fn rewrite(word: &[u8], moves: &[u8], out: &mut [u8]) -> Written
    ensures { Rewrote word.now moves.now out.old out.new result.answer result.bytes }
{
    if out.len() < word::MAX_BYTES {
        return Written::refused(15);
    }
    let w = word::read_word(word);
    if w.answer != 0 {
        return Written::refused(w.answer);
    }
    let listed = list::list_answer(moves);
    if listed != 0 {
        return Written::refused(listed);
    }
    let mut codes = [0u8; word::MAX_LETTERS];
    word::unpack(&word[2..], &mut codes);
    let last = list::all_moves(&mut codes, w.letters, moves);
    if last.answer != 0 {
        return Written::refused(last.answer);
    }
    let n = last.letters;
    word_writer::write_word(&codes[..n], out)
}
