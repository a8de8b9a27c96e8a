// A key shelf that a file holds: what each verb answers, and the shelf that is then to be written.
#![tactic(auto)]

ghost use Rattle.std.specs.Prelude.{◌≡◌, true, length};
ghost use Rattle.std.specs.Fn.{FnOnceReturnsAtMut};
ghost use Rattle.shelf.specs.Shelves.{empty_shelf};
ghost use Rattle.desk_shelf.specs.Serving.{is_shelf, shelf_in, digit_of, unanswered, LoadsFile};
ghost use Rattle.desk_shelf.specs.Serving.{ClearsFile, JudgesFile, StartsRound, EnoughOfShelf, EnoughToLoad};
ghost use Rattle.desk_shelf.specs.Serving.{EnoughToJudge};
ghost use Rattle.desk_shelf.specs.steps.Work.{ServedBy};

use desk_line::Got;

// The bytes to read of a shelf: one more than it has.
pub const SHELF_ROOM: usize = shelf_calls::SHELF_BYTES + 1;

// What a verb gives: could every file be read, and is the first of them a shelf? The answer, and the shelf to write.
#[derive(Clone, Copy)]
pub struct Served {
    pub read: bool,
    pub whole: bool,
    pub answer: u8,
    pub shelf: [u8; shelf_calls::SHELF_BYTES],
}

impl Served {
    // Stands in place of an answer if a file could not be read or is no shelf. No answer of the papers has this number.
    pub const NO_ANSWER: u8 = 255;

    // No answer, and nothing to write.
    fn none(read: bool, whole: bool) -> Served
        ensures { (result.read ≡ read) × (result.whole ≡ whole) × (result.answer ≡ unanswered)
            × (result.shelf ≡ empty_shelf) }
    {
        Served {
            read,
            whole,
            answer: Served::NO_ANSWER,
            shelf: [0; shelf_calls::SHELF_BYTES],
        }
    }
}

// Is the file a shelf? A file without bytes is the empty shelf.
fn is_shelf(file: &[u8]) -> bool
    ensures { result ≡ is_shelf file.now }
{
    (file.len() == 0) | (file.len() == shelf_calls::SHELF_BYTES)
}

// The number that a text of one digit writes. Any other text counts as 10.
// The result is no Option: the definition `digit_of`, which `LoadsFile` and the others pass on as a number, gives 10.
fn digit_of(text: &[u8]) -> usize
    ensures { result ≡ digit_of text.now }
{
    if text.len() != 1 {
        return 10;
    }
    let digit = text[0];
    if digit < 48 {
        return 10;
    }
    if 57 < digit {
        return 10;
    }
    (digit - 48) as usize
}

// The shelf in a file.
fn shelf_in(file: &[u8]) -> [u8; shelf_calls::SHELF_BYTES]
    requires { is_shelf file.now ≡ true }
    ensures { result ≡ shelf_in file.now }
{
    let mut shelf = [0u8; shelf_calls::SHELF_BYTES];
    base::put(&mut shelf, file);
    shelf
}

// A publisher's work on the shelf in a file.
fn worked<F: FnOnce(&mut [u8; shelf_calls::SHELF_BYTES]) -> u8>(file: &[u8], work: F) -> Served
    requires { F.IsAlwaysCallable work }
    ensures { ServedBy file.now (FnOnceReturnsAtMut F.FnOnce work) result }
{
    if !is_shelf(file) {
        return Served::none(true, false);
    }
    let mut shelf = shelf_in(file);
    let answer = work(&mut shelf);
    Served {
        read: true,
        whole: true,
        answer,
        shelf,
    }
}

// Loads the key in a file. Publisher and key number are texts.
pub fn load(
    old: &[u8; SHELF_ROOM],
    publisher: &[u8],
    number: &[u8],
    key: &[u8; desk_line::KEY_ROOM],
    s: Got,
    k: Got,
) -> Served
    ensures loads_file { LoadsFile s k old.now publisher.now number.now key.now result }
    ensures enough_to_load { EnoughToLoad (length old.now) (length key.now) }
{
    let file = text::part(old, 0, s.bytes);
    let read = s.read & k.read;
    if !read {
        return Served::none(false, is_shelf(file));
    }
    let p = digit_of(publisher);
    let n = digit_of(number);
    let key = text::part(key, 0, k.bytes);
    worked(file, |shelf| shelf_calls::load(shelf, p, n, key))
}

// Clears a number.
pub fn clear(old: &[u8; SHELF_ROOM], publisher: &[u8], number: &[u8], s: Got) -> Served
    ensures clears_file { ClearsFile s old.now publisher.now number.now result }
    ensures enough_of_shelf { EnoughOfShelf (length old.now) }
{
    let file = text::part(old, 0, s.bytes);
    if !s.read {
        return Served::none(false, is_shelf(file));
    }
    let p = digit_of(publisher);
    let n = digit_of(number);
    worked(file, |shelf| shelf_calls::clear(shelf, p, n))
}

// Starts a new round.
pub fn round(old: &[u8; SHELF_ROOM], publisher: &[u8], s: Got) -> Served
    ensures starts_round { StartsRound s old.now publisher.now result }
    ensures enough_of_shelf { EnoughOfShelf (length old.now) }
{
    let file = text::part(old, 0, s.bytes);
    if !s.read {
        return Served::none(false, is_shelf(file));
    }
    let p = digit_of(publisher);
    worked(file, |shelf| shelf_calls::round(shelf, p))
}

// Judges the digest and the signature in two files. The shelf to write has the slip's letters charged on 0 and on 14.
pub fn judge(
    old: &[u8; SHELF_ROOM],
    publisher: &[u8],
    number: &[u8],
    digest: &[u8; desk_line::DIGEST_ROOM],
    word: &[u8; desk_line::WORD_ROOM],
    s: Got,
    d: Got,
    w: Got,
) -> Served
    ensures judges_file { JudgesFile s d w old.now publisher.now number.now digest.now
        word.now result }
    ensures enough_to_judge { EnoughToJudge (length old.now) (length digest.now) (length word.now) }
{
    let file = text::part(old, 0, s.bytes);
    if !desk_line::all_read(s, d, w) {
        return Served::none(false, is_shelf(file));
    }
    let p = digit_of(publisher);
    let n = digit_of(number);
    let digest = text::part(digest, 0, d.bytes);
    let word = text::part(word, 0, w.bytes);
    worked(file, |shelf| shelf_calls::judge(shelf, p, n, digest, word))
}
