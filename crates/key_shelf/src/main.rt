// Works on a key shelf in a file by a verb: load, clear, judge or round. `desk_shelf` decides what is answered, and
// which shelf is written. The arguments are the verb, a name beside the new file's place, the old file, the new file
// and the publisher. Load, clear and judge take the key number and their files too. Its test run: publisher 2 holds the
// plain key under number 3, and b7, 128 times, is judged by it as a signature of 32 zero bytes.
#![tactic(auto)]

use desk_io::NAME_ROOM;
use desk_line::Got;
use desk_shelf::Served;
use std::rt::{Env, Files};

// Is the shelf written? After judging, if a verdict changed it; after any other work, if the work was accepted.
fn is_written(judges: bool, answer: u8, same: bool) -> bool {
    match answer {
        0 => !judges || !same,
        14 => judges && !same,
        _ => false,
    }
}

// Writes the shelf to the new file, if it is to be written, and then prints the answer. If a file could not be read, is
// no shelf or could not be written, prints this instead.
fn end(
    rt: &(impl Files + Env + Print + Eprint),
    served: Served,
    old: &[u8; desk_shelf::SHELF_ROOM],
    judges: bool,
) {
    if !served.read {
        print::text(rt, b"no answer\n");
        return;
    }
    if !served.whole {
        print::text(rt, b"no shelf\n");
        return;
    }
    let same = &old[..desk_shelf::SHELF_ROOM - 1] == served.shelf.as_slice();
    if is_written(judges, served.answer, same) && !desk_put::put_at(rt, 2, 4, &served.shelf, true) {
        print::text(rt, b"not written\n");
        return;
    }
    desk_put::tell(rt, served.answer);
}

// Does a verb's work on the old shelf, for the publisher and the key number that the arguments write, and ends. A
// number that is missing, which only a new round may leave out, counts as empty.
fn work<F: FnOnce(&[u8; desk_shelf::SHELF_ROOM], &[u8], &[u8], Got) -> Served>(
    rt: &(impl Files + Env + Print + Eprint),
    judges: bool,
    serve: F,
)
    requires { F.IsAlwaysCallable serve }
{
    let mut old = [0u8; desk_shelf::SHELF_ROOM];
    let s = desk_io::file(rt, 3, &mut old);
    let mut first = [0u8; NAME_ROOM];
    let publisher = desk_io::argument_or_empty(rt, 5, &mut first);
    let mut second = [0u8; NAME_ROOM];
    let number = desk_io::argument_or_empty(rt, 6, &mut second);
    let served = serve(&old, publisher, number, s);
    end(rt, served, &old, judges);
}

// Loads a key.
fn load(rt: &(impl Files + Env + Print + Eprint)) {
    work(rt, false, |old, publisher, number, s| {
        let mut key = [0u8; desk_line::KEY_ROOM];
        let k = desk_io::file(rt, 7, &mut key);
        desk_shelf::load(old, publisher, number, &key, s, k)
    });
}

// Judges a slip: digest and signature.
fn judge(rt: &(impl Files + Env + Print + Eprint)) {
    work(rt, true, |old, publisher, number, s| {
        let mut digest = [0u8; desk_line::DIGEST_ROOM];
        let d = desk_io::file(rt, 7, &mut digest);
        let mut word = [0u8; desk_line::WORD_ROOM];
        let w = desk_io::file(rt, 8, &mut word);
        desk_shelf::judge(old, publisher, number, &digest, &word, s, d, w)
    });
}

// The verb decides how many arguments must follow.
fn main(rt: HostRuntime) {
    let rt = &rt;
    let mut room = [0u8; NAME_ROOM];
    let verb = desk_io::argument_or_empty(rt, 1, &mut room);
    match (verb, desk_io::arg_count(rt)) {
        (b"load", 8) => load(rt),
        (b"clear", 7) => work(rt, false, desk_shelf::clear),
        (b"round", 6) => work(
            rt,
            false,
            |old, publisher, _, s| desk_shelf::round(old, publisher, s),
        ),
        (b"judge", 9) => judge(rt),
        _ => desk_io::misused(
            rt,
            b"key_shelf takes load, clear, judge or round, a name beside the new file, the old shelf, the new one and a \
             publisher; all but round take a key number too, then KEY to load, none to clear, DIGEST SIGNATURE to \
             judge\n",
        ),
    }
}
