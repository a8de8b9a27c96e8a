// Writes a new file by a verb: shorten, rewrite, reduce, handles, store, restore, to-y or from-y. `desk_words`,
// `desk_handles` and `desk_dialect` decide what is written. The first argument is the verb. The second argument is a
// temporary name beside the new file. The file is written under this name, and gets its own name when it is complete.
// For each word, the program then prints a line with its answer. If the answer is 0, a second line has the sizes. Its
// test run: under the plain key a slip that opens, with a letter and its inverse put into its word, one that does not,
// and one without a digest.
#![tactic(auto)]

ghost use Rattle.std.specs.Prelude.{◌<◌};
ghost use Rattle.io.specs.Counts.{IsPrefixLen};

use desk_io::NAME_ROOM;
use desk_words::Made;
use std::rt::{Env, Files};

// What a file holds: a word, or a word's stored form.
#[derive(Clone, Copy)]
enum Form {
    Word,
    Stored,
}

impl Form {
    // The number of letters of a word's file, or the number that a stored form states.
    fn letters(self, file: &[u8]) -> usize {
        match self {
            Form::Stored if 2 <= file.len() => base::two_bytes(file, 0),
            _ => word::read_word(file).letters,
        }
    }
}

// Prints how many letters and bytes the old file has and how many the new file has, without a line end.
fn sizes(rt: &impl Print, old: &[u8], from: Form, new: &[u8], to: Form) {
    print::text(rt, b"letters");
    print::number(rt, from.letters(old));
    print::text(rt, b" to");
    print::number(rt, to.letters(new));
    print::text(rt, b", bytes");
    print::number(rt, old.len());
    print::text(rt, b" to");
    print::number(rt, new.len());
}

// If the answer is 0, writes what was made to the file that argument `new` names. Then prints the answer, or that there
// is none, or that the file was not written. Returns whether a file was written.
fn placed(rt: &(impl Files + Env + Print + Eprint), made: Made, new: usize, alone: bool) -> bool
    requires { IsPrefixLen made.bytes made.file }
{
    if !made.read {
        print::text(rt, b"no answer\n");
        return false;
    }
    if made.answer == 0 && !desk_put::put_at(rt, 2, new, &made.file[..made.bytes], alone) {
        print::text(rt, b"not written\n");
        return false;
    }
    desk_put::tell(rt, made.answer);
    made.answer == 0
}

// Writes what was made and prints the answer, as `placed` does. If a file was written, also prints the line of sizes.
fn end(
    rt: &(impl Files + Env + Print + Eprint),
    made: Made,
    old: &[u8],
    from: Form,
    new: usize,
    to: Form,
    alone: bool,
)
    requires { IsPrefixLen made.bytes made.file }
{
    if placed(rt, made, new, alone) {
        sizes(rt, old, from, &made.file[..made.bytes], to);
        print::text(rt, b"\n");
    }
}

// The number that an argument writes, 0 to 65,535.
fn number_at(rt: &impl Env, at: usize) -> Option<u16> {
    let mut room = [0u8; NAME_ROOM];
    desk_number::number_of(desk_io::argument_or_empty(rt, at, &mut room))
}

// One slip: key, digest, signature and new signature are the four arguments from a place on.
fn slip(rt: &(impl Files + Env + Print + Eprint), at: usize, alone: bool, effort: u16)
    requires { at < 18446744073709551613 }
{
    let mut key = [0u8; desk_line::KEY_ROOM];
    let mut digest = [0u8; desk_line::DIGEST_ROOM];
    let mut word = [0u8; desk_line::WORD_ROOM];
    let k = desk_io::file(rt, at, &mut key);
    let d = desk_io::file(rt, at + 1, &mut digest);
    let w = desk_io::file(rt, at + 2, &mut word);
    let made = desk_words::shorten(&key, &digest, &word, k, d, w, effort);
    let old = text::part(&word, 0, w.bytes);
    end(rt, made, old, Form::Word, at + 3, Form::Word, alone);
}

// Shortens slips: a name beside the new files, the effort, then key, digest, signature and new signature of each slip.
// Only for a single slip, waits until the new file has reached the device.
fn shorten(rt: &(impl Files + Env + Print + Eprint), arguments: usize, effort: u16) {
    let n = arguments / 4;
    for i in 1..n {
        slip(rt, 4 * i, n == 2, effort);
    }
}

// Rewrites a word: a name beside the new file, the word, the move list, the new word.
fn rewrite(rt: &(impl Files + Env + Print + Eprint)) {
    let mut word = [0u8; desk_line::WORD_ROOM];
    let mut moves = [0u8; desk_words::MOVES_ROOM];
    let w = desk_io::file(rt, 3, &mut word);
    let m = desk_io::file(rt, 4, &mut moves);
    let made = desk_words::rewrite(&word, &moves, w, m);
    let old = text::part(&word, 0, w.bytes);
    end(rt, made, old, Form::Word, 5, Form::Word, true);
}

// Reduces a word freely: a name beside the new file, the word, the new word.
fn reduce(rt: &(impl Files + Env + Print + Eprint)) {
    let mut word = [0u8; desk_line::WORD_ROOM];
    let w = desk_io::file(rt, 3, &mut word);
    let made = desk_words::reduce(&word, w);
    let old = text::part(&word, 0, w.bytes);
    end(rt, made, old, Form::Word, 4, Form::Word, true);
}

// Writes what taking handles out made and prints the answer, as `end` does. The line of sizes also says whether a
// handle is left.
fn end_handles(rt: &(impl Files + Env + Print + Eprint), made: Made, left: bool, old: &[u8])
    requires { IsPrefixLen made.bytes made.file }
{
    if placed(rt, made, 5, true) {
        sizes(rt, old, Form::Word, &made.file[..made.bytes], Form::Word);
        print::choice(rt, left, b", handles left: yes\n", b", handles left: no\n");
    }
}

// Takes handles out of a word in at most `limit` steps.
fn steps(rt: &(impl Files + Env + Print + Eprint), limit: u16) {
    let mut word = [0u8; desk_line::WORD_ROOM];
    let w = desk_io::file(rt, 3, &mut word);
    let taken = desk_handles::take_handles(&word, limit, w);
    end_handles(rt, taken.made, taken.left, text::part(&word, 0, w.bytes));
}

// Takes handles out of a word: a name beside the new file, the word, the greatest number of steps, the new word.
fn handles(rt: &(impl Files + Env + Print + Eprint)) {
    match number_at(rt, 4) {
        Some(limit) => steps(rt, limit),
        None => desk_io::misused(rt, b"handles takes at most 65535 steps, in decimal\n"),
    }
}

// Stores a word: a name beside the new file, the word, its stored form.
fn store(rt: &(impl Files + Env + Print + Eprint)) {
    let mut word = [0u8; desk_line::WORD_ROOM];
    let w = desk_io::file(rt, 3, &mut word);
    let made = desk_words::store(&word, w);
    let old = text::part(&word, 0, w.bytes);
    end(rt, made, old, Form::Word, 4, Form::Stored, true);
}

// Restores a word: a name beside the new file, the stored form, the word.
fn restore(rt: &(impl Files + Env + Print + Eprint)) {
    let mut form = [0u8; desk_words::STORED_ROOM];
    let f = desk_io::file(rt, 3, &mut form);
    let made = desk_words::restore(&form, f);
    let old = text::part(&form, 0, f.bytes);
    end(rt, made, old, Form::Stored, 4, Form::Word, true);
}

// Turns a word into the other dialect, to Y if `way` is true: a name beside the new file, the word, the parts of 7, the
// new word. Parts that are longer than the buffer count as empty.
fn convert(rt: &(impl Files + Env + Print + Eprint), way: bool) {
    let mut word = [0u8; desk_line::WORD_ROOM];
    let w = desk_io::file(rt, 3, &mut word);
    let mut room = [0u8; NAME_ROOM];
    let parts = desk_io::argument_or_empty(rt, 4, &mut room);
    let made = desk_dialect::convert(way, parts, &word, w);
    let old = text::part(&word, 0, w.bytes);
    end(rt, made, old, Form::Word, 5, Form::Word, true);
}

// The verb decides how many arguments must follow. For `shorten`, each slip has four of them.
fn main(rt: HostRuntime) {
    let rt = &rt;
    let mut room = [0u8; NAME_ROOM];
    let verb = desk_io::argument_or_empty(rt, 1, &mut room);
    let n = desk_io::arg_count(rt);
    match (verb, number_at(rt, 3)) {
        (b"shorten", Some(effort)) if 7 < n && n % 4 == 0 => shorten(rt, n, effort),
        (b"rewrite", _) if n == 6 => rewrite(rt),
        (b"reduce", _) if n == 5 => reduce(rt),
        (b"handles", _) if n == 6 => handles(rt),
        (b"store", _) if n == 5 => store(rt),
        (b"restore", _) if n == 5 => restore(rt),
        (b"to-y", _) if n == 6 => convert(rt, true),
        (b"from-y", _) if n == 6 => convert(rt, false),
        _ => desk_io::misused(
            rt,
            b"new_word takes a verb and, after a name beside the new file, the verb's files: shorten EFFORT KEY DIGEST \
             SIGNATURE NEW, rewrite WORD MOVES NEW, reduce WORD NEW, handles WORD LIMIT NEW, store WORD NEW, restore \
             STORED NEW, to-y WORD PARTS NEW or from-y WORD PARTS NEW\n",
        ),
    }
}
