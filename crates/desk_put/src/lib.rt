// Puts a new file in its place. The file is written under a temporary name beside its place, and gets its own name when
// it is complete.
#![tactic(auto)]

ghost use Rattle.std.specs.Prelude.{◌≤◌, length, IfSome};

use desk_io::NAME_ROOM;
use std::fs;
use std::fs::{OpenFile, OpenOptions};
use std::io::{Error, Write};
use std::rt::{Env, Files};

// Writes the bytes to a new file. If it is the only new file, waits until they have reached the device.
fn saved<F: Write + OpenFile>(file: &mut F, bytes: &[u8], alone: bool) -> Result<(), Error> {
    file.write_all(bytes)?;
    if alone { file.sync_all() } else { Ok(()) }
}

// Writes the bytes to a new file at `beside`, and closes it. If a write or the wait for the device fails, no file is
// left there. Whether closing fails, std does not say.
fn written(rt: &impl Files, beside: &str, bytes: &[u8], alone: bool) -> Result<(), Error> {
    let mut file = OpenOptions::new()
        .write(true)
        .create_new(true)
        .open(rt, beside)?;
    let done = saved(&mut file, bytes, alone);
    drop(file);
    if done.is_err() {
        let _ = fs::remove_file(rt, beside);
    }
    done
}

// Gives the file at `beside` the name `new`. If that fails, the file at `beside` is removed.
fn renamed(rt: &impl Files, beside: &str, new: &str) -> Result<(), Error> {
    let done = fs::rename(rt, beside, new);
    if done.is_err() {
        let _ = fs::remove_file(rt, beside);
    }
    done
}

// Writes the bytes to a new file at `beside`, and then gives it the name `new`.
fn placed(
    rt: &impl Files,
    beside: &[u8],
    new: &[u8],
    bytes: &[u8],
    alone: bool,
) -> Result<(), Error> {
    let beside = desk_io::path(beside)?;
    let new = desk_io::path(new)?;
    written(rt, beside, bytes, alone)?;
    renamed(rt, beside, new)
}

// Writes the bytes to a new file at `beside`, and then gives it the name `new`. If a step fails, `new` is unchanged and
// the file at `beside` is removed. If a file stood at `beside` before, it stays, and no file is made.
fn put(rt: &(impl Files + Eprint), beside: &[u8], new: &[u8], bytes: &[u8], alone: bool) -> bool {
    match placed(rt, beside, new, bytes, alone) {
        Ok(()) => true,
        Err(why) => {
            desk_io::report(rt, new, why);
            false
        }
    }
}

// The name of a file, argument i, which is written to the front of a buffer. If that fails, a line on standard error
// says so.
fn name<'a>(rt: &(impl Env + Eprint), i: usize, buf: &'a mut [u8]) -> Option<&'a [u8]>
    ensures { IfSome result (λ name. length name.now ≤ length buf.old) }
{
    match desk_io::argument(rt, i, buf) {
        Ok(n) => Some(&buf[..n]),
        Err(why) => {
            desk_io::report(rt, b"name of a file", why);
            None
        }
    }
}

// Writes a new file like `put`. Both names are given by their places among the arguments.
pub fn put_at(
    rt: &(impl Files + Env + Eprint),
    beside: usize,
    new: usize,
    bytes: &[u8],
    alone: bool,
) -> bool {
    let mut first = [0u8; NAME_ROOM];
    let Some(beside) = name(rt, beside, &mut first) else {
        return false;
    };
    let mut second = [0u8; NAME_ROOM];
    let Some(new) = name(rt, new, &mut second) else {
        return false;
    };
    put(rt, beside, new, bytes, alone)
}

// The line of an answer.
pub fn tell(rt: &(impl Print + Eprint), answer: u8) {
    desk_io::tell(rt, desk_line::answer_line(answer));
}
