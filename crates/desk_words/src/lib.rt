// A new file from files: a word shortened, rewritten, reduced or restored, or the stored form of a word. The functions
// take arrays whose sizes are given here and in `desk_line`, so a program cannot hand in a buffer of another size.
#![tactic(auto)]

ghost use Rattle.std.specs.Prelude.{◌≡◌, true, false, ◌&&◌, length, take, replicate};
ghost use Rattle.std.specs.Fn.{FnOnceReturnsAtMut};
ghost use Rattle.word_shortener.specs.Shortener.{Shortened};
ghost use Rattle.desk_words.specs.Making.{no_answer, MadeBy, Shortens, Rewrites, Reduces, EnoughToShorten};
ghost use Rattle.desk_words.specs.Making.{EnoughToRewrite, EnoughToReduce, Stores, Restores};
ghost use Rattle.desk_words.specs.Making.{EnoughToStore, EnoughToRestore};

use desk_line::Got;
use word::Written;

// The bytes to read of a move list: one more than it may hold.
pub const MOVES_ROOM: usize = 2 + 3 * 4096 + 1;

// The bytes to read of a stored form: one more than it may have.
pub const STORED_ROOM: usize = word_store::MAX_STORED + 1;

// What a verb makes: could every file be read? The answer, and the new file, the first `bytes` bytes; zeros after it.
#[derive(Clone, Copy)]
pub struct Made {
    pub read: bool,
    pub answer: u8,
    pub bytes: usize,
    pub file: [u8; word_store::MAX_STORED],
}

impl Made {
    // Stands in place of an answer if a file could not be read. No answer of the papers has this number.
    pub const NO_ANSWER: u8 = 255;

    // The answer alone, and nothing to write.
    fn bare(read: bool, answer: u8) -> Made
        ensures { (result.read ≡ read) × (result.answer ≡ answer) × (result.bytes ≡ 0)
            × (result.file ≡ replicate 5006 0) }
    {
        Made {
            read,
            answer,
            bytes: 0,
            file: [0; word_store::MAX_STORED],
        }
    }

    // A file could not be read: no answer.
    pub fn unread() -> Made
        ensures { (result.read ≡ false) × (result.answer ≡ no_answer) × (result.bytes ≡ 0)
            × (result.file ≡ replicate 5006 0) }
    {
        Made::bare(false, Made::NO_ANSWER)
    }

    // What a writer makes: it writes the new file over zeros.
    pub fn by<F: FnOnce(&mut [u8; word_store::MAX_STORED]) -> Written>(write: F) -> Made
        requires { F.IsAlwaysCallable write }
        ensures { MadeBy (FnOnceReturnsAtMut F.FnOnce write) result }
    {
        let mut file = [0u8; word_store::MAX_STORED];
        let written = write(&mut file);
        Made {
            read: true,
            answer: written.answer,
            bytes: written.bytes,
            file,
        }
    }
}

// A word made shorter by a search of `effort` steps for each letter.
fn short(word: &[u8], effort: u16) -> Made
    ensures { (result.read ≡ true)
        × Shortened effort word.now (replicate 5006 0) result.file result.answer result.bytes }
{
    Made::by(|file| word_shortener::shorten_word(word, effort, file))
}

// The word of a slip, made shorter if the slip opens. The new word is judged before it is given. No contract asks for
// this second verdict, which is proved to be 0.
fn shortened(key: &[u8], digest: &[u8], word: &[u8], effort: u16) -> Made
    ensures { Shortens effort true key.now digest.now word.now result }
{
    let answer = slip_verdict::verify(key, digest, word);
    if answer != 0 {
        return Made::bare(true, answer);
    }
    let made = short(word, effort);
    let again = slip_verdict::verify(key, digest, &made.file[..made.bytes]);
    if again != 0 {
        return Made::bare(true, again);
    }
    made
}

// Shortens the word of a slip in three files, by a search of `effort` steps for each letter. Each file is judged by its
// own bytes.
pub fn shorten(
    key: &[u8; desk_line::KEY_ROOM],
    digest: &[u8; desk_line::DIGEST_ROOM],
    word: &[u8; desk_line::WORD_ROOM],
    k: Got,
    d: Got,
    w: Got,
    n: u16,
) -> Made
    ensures shortens { Shortens n (k.read && d.read && w.read) (take k.bytes key.now)
        (take d.bytes digest.now) (take w.bytes word.now) result }
    ensures enough_to_shorten { EnoughToShorten (length key.now) (length digest.now) (length word.now) }
{
    if !desk_line::all_read(k, d, w) {
        return Made::unread();
    }
    let key = text::part(key, 0, k.bytes);
    let digest = text::part(digest, 0, d.bytes);
    let word = text::part(word, 0, w.bytes);
    shortened(key, digest, word, n)
}

// Rewrites the word in a file by the move list in another file.
pub fn rewrite(word: &[u8; desk_line::WORD_ROOM], moves: &[u8; MOVES_ROOM], w: Got, m: Got) -> Made
    ensures rewrites { Rewrites (w.read && m.read) (take w.bytes word.now) (take m.bytes moves.now) result }
    ensures enough_to_rewrite { EnoughToRewrite (length word.now) (length moves.now) }
{
    let read = w.read & m.read;
    if !read {
        return Made::unread();
    }
    let word = text::part(word, 0, w.bytes);
    let moves = text::part(moves, 0, m.bytes);
    Made::by(|file| move_rewriter::rewrite(word, moves, file))
}

// Reduces the word in a file freely.
pub fn reduce(word: &[u8; desk_line::WORD_ROOM], w: Got) -> Made
    ensures reduces { Reduces w.read (take w.bytes word.now) result }
    ensures enough_to_reduce { EnoughToReduce (length word.now) }
{
    if !w.read {
        return Made::unread();
    }
    let word = text::part(word, 0, w.bytes);
    Made::by(|file| word_reduction::free_reduce(word, file))
}

// Stores the word that a file holds.
pub fn store(word: &[u8; desk_line::WORD_ROOM], w: Got) -> Made
    ensures stores { Stores w.read (take w.bytes word.now) result }
    ensures enough_to_store { EnoughToStore (length word.now) }
{
    if !w.read {
        return Made::unread();
    }
    let word = text::part(word, 0, w.bytes);
    Made::by(|file| word_store::store(word, file))
}

// Restores the word whose stored form a file holds.
pub fn restore(form: &[u8; STORED_ROOM], f: Got) -> Made
    ensures restores { Restores f.read (take f.bytes form.now) result }
    ensures enough_to_restore { EnoughToRestore (length form.now) }
{
    if !f.read {
        return Made::unread();
    }
    let form = text::part(form, 0, f.bytes);
    Made::by(|file| word_restore::restore(form, file))
}
