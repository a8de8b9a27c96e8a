// Judges a slip, on standard input or in files, or several copies of a slip in files. Its test run: an accepted slip
// under the plain key.
#![tactic(auto)]

use slip_verdict::Halved;
use std::io::Input;
use std::rt::{Env, Files};

// Judges a slip on standard input: key, digest and signature end to end.
fn judge_input(rt: &(impl Input + Print + Eprint)) {
    let mut input = [0u8; desk_slip::INPUT_ROOM];
    let mut from = rt.reader();
    let got = desk_io::fill(rt, &mut from, b"standard input", &mut input);
    desk_io::tell(rt, desk_slip::input_line(&input, got));
}

// Judges a slip in three files, whose names are the arguments: key, digest, signature.
fn judge_files(rt: &(impl Files + Env + Print + Eprint)) {
    let mut key = [0u8; desk_line::KEY_ROOM];
    let mut digest = [0u8; desk_line::DIGEST_ROOM];
    let mut word = [0u8; desk_line::WORD_ROOM];
    let k = desk_io::file(rt, 1, &mut key);
    let d = desk_io::file(rt, 2, &mut digest);
    let w = desk_io::file(rt, 3, &mut word);
    desk_io::tell(rt, desk_slip::files_line(&key, &digest, &word, k, d, w));
}

// Judges a copy of a slip. Argument i names the file of its signature.
fn judge_copy(rt: &(impl Files + Env + Print + Eprint), made: Halved, i: usize) {
    let mut word = [0u8; desk_line::WORD_ROOM];
    let w = desk_io::file(rt, i, &mut word);
    desk_io::tell(rt, desk_slip::copy_line(made, &word, w));
}

// Judges copies of a slip: key and digest are read once, then n - 3 signatures. Each gets a line. If key or digest
// could not be read, there is no line.
fn judge_copies(rt: &(impl Files + Env + Print + Eprint), n: usize) {
    let mut key = [0u8; desk_line::KEY_ROOM];
    let mut digest = [0u8; desk_line::DIGEST_ROOM];
    let k = desk_io::file(rt, 1, &mut key);
    let d = desk_io::file(rt, 2, &mut digest);
    let first = desk_slip::first_half(&key, &digest, k, d);
    if !first.read {
        return;
    }
    for i in 3..n {
        judge_copy(rt, first.made, i);
    }
}

// Without arguments the program judges the slip on standard input, with three names the slip in these files, and with
// more names the copies of a slip.
fn main(rt: HostRuntime) {
    let rt = &rt;
    match desk_io::arg_count(rt) {
        0 | 1 => judge_input(rt),
        2 | 3 => desk_io::misused(
            rt,
            b"desk takes names of files, key, digest and one or more signatures, or none\n",
        ),
        4 => judge_files(rt),
        n => judge_copies(rt, n),
    }
}
