// One move of a word, by its kind. Each function asks the kind's questions in the paper's order and then makes the
// move. On a refusal the word is unchanged.
ghost use Rattle.std.specs.Prelude.{◌<◌, ◌≡◌, ◌&&◌, eqb};
ghost use Rattle.word.specs.Letters.{is_inverse, far, neighbours, same_sign};
ghost use Rattle.word.specs.Cancellation.{removal};
ghost use Rattle.move_kinds.specs.Kinds.{exchange, braiding, insertion, move};
ghost use Rattle.move_kinds.specs.steps.Leaving.{Makes, Holds};

use crate::Change;
use crate::shift::{insert_two, remove_two};

fn is_inverse(c: u8) -> bool
    ensures { result ≡ is_inverse c }
{
    (8..=14).contains(&c)
}

// Do the generators differ by at least 2?
fn are_far(c: u8, d: u8) -> bool
    ensures { result ≡ far c d }
{
    2 <= (c % 8).abs_diff(d % 8)
}

// Do the generators differ by 1?
fn are_neighbours(c: u8, d: u8) -> bool
    ensures { result ≡ neighbours c d }
{
    (c % 8).abs_diff(d % 8) == 1
}

// Are both letters inverses, or neither?
fn same_sign(c: u8, d: u8) -> bool
    ensures { result ≡ same_sign c d }
{
    is_inverse(c) == is_inverse(d)
}

// Are the three letters j k j, where the generators differ by 1 and the signs agree?
fn is_braid(j: u8, k: u8, l: u8) -> bool
    ensures { result ≡ neighbours j k && same_sign j k && eqb l j }
{
    are_neighbours(j, k) && same_sign(j, k) && l == j
}

// Kind 1 removes a letter and the inverse right after it.
fn try_remove(codes: &mut [u8], n: usize, place: usize) -> Change
    requires { Holds n codes.old × (place < 65536) }
    ensures { Makes (removal place) n codes.old codes.new result.answer result.letters }
{
    if n < place + 2 {
        return Change::refused(22, n);
    }
    if codes[place + 1] != word::inverse(codes[place]) {
        return Change::refused(23, n);
    }
    remove_two(codes, n, place);
    Change {
        answer: 0,
        letters: n - 2,
    }
}

// Kind 2 swaps two adjacent letters whose generators differ by at least 2.
fn try_swap(codes: &mut [u8], n: usize, place: usize) -> Change
    requires { Holds n codes.old × (place < 65536) }
    ensures { Makes (exchange place) n codes.old codes.new result.answer result.letters }
{
    if n < place + 2 {
        return Change::refused(22, n);
    }
    let c = codes[place];
    let d = codes[place + 1];
    if !are_far(c, d) {
        return Change::refused(23, n);
    }
    codes[place] = d;
    codes[place + 1] = c;
    Change {
        answer: 0,
        letters: n,
    }
}

// Kind 3 turns j k j into k j k, where the generators differ by 1 and all three signs agree.
fn try_braid(codes: &mut [u8], n: usize, place: usize) -> Change
    requires { Holds n codes.old × (place < 65536) }
    ensures { Makes (braiding place) n codes.old codes.new result.answer result.letters }
{
    if n < place + 3 {
        return Change::refused(22, n);
    }
    let j = codes[place];
    let k = codes[place + 1];
    if !is_braid(j, k, codes[place + 2]) {
        return Change::refused(23, n);
    }
    codes[place] = k;
    codes[place + 1] = j;
    codes[place + 2] = k;
    Change {
        answer: 0,
        letters: n,
    }
}

// Kind 16 + c inserts the letter c and then its inverse before the place.
fn try_insert(codes: &mut [u8], n: usize, place: usize, c: u8) -> Change
    requires { Holds n codes.old × (place < 65536) }
    ensures { Makes (insertion c place) n codes.old codes.new result.answer result.letters }
{
    if n < place {
        return Change::refused(22, n);
    }
    if word::MAX_LETTERS < n + 2 {
        return Change::refused(24, n);
    }
    insert_two(codes, n, place, c, word::inverse(c));
    Change {
        answer: 0,
        letters: n + 2,
    }
}

// Makes the move of a kind at a place. Removals and insertions are tested first because they are the most frequent
// moves.
pub fn one_move(codes: &mut [u8], n: usize, kind: u8, place: usize) -> Change
    requires { Holds n codes.old × (place < 65536) }
    ensures { Makes (move kind place) n codes.old codes.new result.answer result.letters }
{
    if kind == 1 {
        return try_remove(codes, n, place);
    }
    if 16 <= kind {
        let c = kind - 16;
        if word::is_letter(c) {
            return try_insert(codes, n, place, c);
        }
        return Change::refused(21, n);
    }
    if kind == 2 {
        return try_swap(codes, n, place);
    }
    if kind == 3 {
        return try_braid(codes, n, place);
    }
    Change::refused(21, n)
}
