// The calls of the key shelf: load a key, clear a number, judge a slip, start a new round.
#![tactic(auto)]

ghost use Rattle.std.specs.Prelude.{◌+◌, ◌≤◌, ◌≡◌, true, length};
ghost use Rattle.base.specs.Digits.{part};
ghost use Rattle.shelf.specs.Shelves.{file_room, slot_bytes, shelf_bytes, is_publisher, slot_with, file_in, replaced};
ghost use Rattle.shelf.specs.Calls.{load, clear, judge, round, Serves};
ghost use Rattle.shelf_calls.specs.steps.Chip.{OnChip};
ghost use Rattle.shelf_calls.specs.steps.Slots.{SlotFound};

use key::Key;

// The bytes of a slot: 1 for a key file's length, and 128 for the file.
const SLOT_BYTES: usize = 1 + 128;

// The bytes of a shelf: eight slots, and 4 for the letters charged.
pub const SHELF_BYTES: usize = 1036;

fn is_publisher(publisher: usize) -> bool
    ensures { result ≡ is_publisher publisher }
{
    publisher == 1 || publisher == 2
}

// The place where the slot of a publisher and a key number begins, if there is such a slot.
fn slot_place(publisher: usize, number: usize) -> Option<usize>
    ensures { SlotFound publisher number result }
{
    if is_publisher(publisher) && number <= 3 {
        return Some(SLOT_BYTES * (4 * (publisher - 1) + number));
    }
    None
}

// Puts a file into the slot that begins at a place, with zeros after the file.
fn hold(shelf: &mut [u8], at: usize, file: &[u8])
    requires { (at + slot_bytes ≤ length shelf.old) × (length file.now ≤ file_room) }
    ensures { shelf.new ≡ replaced at (slot_with file.now) shelf.old }
{
    let mut slot = [0u8; SLOT_BYTES];
    slot[0] = file.len() as u8;
    base::put(&mut slot[1..], file);
    shelf_charges::replace(shelf, at, &slot);
}

// The file in the slot that begins at a place.
fn file_at(shelf: &[u8], at: usize) -> &[u8]
    requires { at + slot_bytes ≤ length shelf.now }
    ensures { result.now ≡ file_in (part at slot_bytes shelf.now) }
{
    text::part(&shelf[at..at + SLOT_BYTES], 1, usize::from(shelf[at]))
}

// Loads a key under a publisher's number, in place of the key there: 30, then the key's questions.
pub fn load(shelf: &mut [u8; SHELF_BYTES], publisher: usize, number: usize, key: &[u8]) -> u8
    ensures { Serves publisher (load number key.now) shelf.old shelf.new result }
{
    let Some(at) = slot_place(publisher, number) else {
        return 30;
    };
    let read = key_reader::read_key(key);
    if read.answer != 0 {
        return read.answer;
    }
    hold(shelf, at, key);
    0
}

// Clears a publisher's number: 30. A number that holds no key may be cleared too.
pub fn clear(shelf: &mut [u8; SHELF_BYTES], publisher: usize, number: usize) -> u8
    ensures { Serves publisher (clear number) shelf.old shelf.new result }
{
    let Some(at) = slot_place(publisher, number) else {
        return 30;
    };
    hold(shelf, at, &[]);
    0
}

// Judges a slip under the key that was read: 8, the word's questions, 36, and the verdict of an admitted slip, whose
// letters are charged. No verdict is worked out for a slip that gets 36.
fn judge_under(shelf: &mut [u8], publisher: usize, key: Key, digest: &[u8], word: &[u8]) -> u8
    requires { (shelf_bytes ≤ length shelf.old) × (is_publisher publisher ≡ true) }
    ensures { OnChip publisher key digest.now word.now shelf.old shelf.new result }
{
    if !slip_digest::is_digest(digest, key.field) {
        return 8;
    }
    let read = word::read_word(word);
    if read.answer != 0 {
        return read.answer;
    }
    if !shelf_charges::is_admitted(shelf, publisher, read.letters) {
        return 36;
    }
    shelf_charges::charge(shelf, publisher, read.letters);
    slip_verdict::judge(key, digest, word)
}

// Judges a slip by the key under a publisher's number: 30, 31, then the slip's questions, with 36 before the verdict.
// On 0 and on 14 the slip's letters are charged to the publisher. On every other answer the shelf is unchanged.
pub fn judge(
    shelf: &mut [u8; SHELF_BYTES],
    publisher: usize,
    number: usize,
    digest: &[u8],
    word: &[u8],
) -> u8
    ensures { Serves publisher (judge number digest.now word.now) shelf.old
        shelf.new result }
{
    let Some(at) = slot_place(publisher, number) else {
        return 30;
    };
    let file = file_at(shelf, at);
    if file.is_empty() {
        return 31;
    }
    let read = key_reader::read_key(file);
    if read.answer != 0 {
        return read.answer;
    }
    judge_under(shelf, publisher, read.key, digest, word)
}

// Starts a new round, for both publishers: 30.
pub fn round(shelf: &mut [u8; SHELF_BYTES], publisher: usize) -> u8
    ensures { Serves publisher round shelf.old shelf.new result }
{
    if !is_publisher(publisher) {
        return 30;
    }
    shelf_charges::start_round(shelf);
    0
}
