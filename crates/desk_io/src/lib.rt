// Reads files and writes lines. It decides nothing about the bytes.
#![tactic(auto)]

ghost use Rattle.std.specs.Prelude.{◌≤◌, ◌≡◌, pos, false, length, Some, IfOk, IsUtf8, MatchResult};
ghost use Rattle.std.specs.IoError.{raw_os_error};
ghost use Rattle.io.specs.Counts.{IsPrefixLen};
ghost use Rattle.desk_line.specs.Desk.{GotOf};

use desk_line::{Got, Line};
use std::env::FillError;
use std::fmt;
use std::fs::OpenOptions;
use std::io::{Error, Read};
use std::rt::{Env, Files};
use std::str::from_utf8;

// The bytes of a buffer that holds a program's argument. It holds every path that the system takes.
pub const NAME_ROOM: usize = 4096;

// The system's numbers of three errors: an argument that is missing, one that is longer than its buffer, and a path
// that is not UTF-8.
const MISSING: i32 = 22;

const TOO_LONG: i32 = 36;

const NOT_UTF_8: i32 = 84;

// Bytes as text. What is not UTF-8 among them is shown by U+FFFD.
#[derive(Drop)]
struct Shown<'a>(&'a [u8]);

impl fmt::Display for Shown<'_> {
    fn fmt<W: fmt::Write>(&self, f: &mut fmt::Formatter<W>) -> fmt::Result {
        for chunk in self.0.utf8_chunks() {
            f.write_str(chunk.valid())?;
            if !chunk.invalid().is_empty() {
                f.write_str("\u{FFFD}")?;
            }
        }
        Ok(())
    }
}

// The text of an error, without its number.
fn reason(text: &str) -> &str {
    match text.rsplit_once(" (os error ") {
        Some((words, _)) => words,
        None => text,
    }
}

// Reports on standard error what failed, and why.
pub fn report(rt: &impl Eprint, what: &[u8], why: Error) {
    let text = fmt::InlineText::<256>::of(why);
    let what = Shown(what);
    let why = reason(text.as_str());
    let _ = eprintln!(rt; "{what}: {why}");
}

// Writes bytes to standard output, or reports on standard error that it cannot.
pub fn say(rt: &(impl Print + Eprint), bytes: &[u8]) {
    if let Err(why) = rt.write_all(bytes) {
        report(rt, b"standard output", why);
    }
}

// Writes a line.
pub fn tell(rt: &(impl Print + Eprint), line: Line)
    requires { IsPrefixLen line.bytes line.text }
{
    say(rt, &line.text[..line.bytes]);
}

// Reports on standard error that a file could not be read, and returns what such a reading gives.
fn unread(rt: &impl Eprint, path: &[u8], why: Error) -> Got
    ensures { (result.read ≡ false) × (result.bytes ≡ 0) }
{
    report(rt, path, why);
    Got::unread()
}

// Reads into `buf` until the buffer is full, the input ends or a read fails. Returns how many bytes there are, and the
// error of a read that failed.
fn read_into(from: &mut impl Read, buf: &mut [u8]) -> (usize, Result<(), Error>)
    ensures { IsPrefixLen result.0 buf.new }
{
    let mut n = 0;
    // No count of elements: the place moves on by what each read gives.
    while n < buf.len() {
        match from.read(&mut buf[n..]) {
            Ok(0) => break,
            Ok(more) => n += more,
            Err(why) => return (n, Err(why)),
        }
    }
    (n, Ok(()))
}

// Reads an open file into `buf`, until the buffer is full or the file ends.
pub fn fill(rt: &impl Eprint, from: &mut impl Read, path: &[u8], buf: &mut [u8]) -> Got
    ensures { GotOf (length buf.new) result }
{
    match read_into(from, buf) {
        (bytes, Ok(())) => Got { read: true, bytes },
        (_, Err(why)) => unread(rt, path, why),
    }
}

// Reads into `buf` until the buffer is full, the input ends or a read fails, and returns how many bytes there are.
pub fn read_full(from: &mut impl Read, buf: &mut [u8]) -> usize
    ensures { IsPrefixLen result buf.new }
{
    let (n, _) = read_into(from, buf);
    n
}

// Says on standard error which arguments a program takes.
pub fn misused(rt: &impl Eprint, takes: &[u8]) {
    let takes = Shown(takes);
    let _ = eprint!(rt; "{takes}");
}

// How many arguments the program has, its own name among them.
pub fn arg_count(rt: &impl Env) -> usize {
    for i in 0..usize::MAX {
        if let Err(FillError::NotPresent) = rt.arg(i, &mut []) {
            return i;
        }
    }
    usize::MAX
}

// Writes argument i to the front of a buffer, and returns its length. If it is missing or longer than the buffer, an
// error says so.
pub fn argument(rt: &impl Env, i: usize, buf: &mut [u8]) -> Result<usize, Error>
    ensures { IfOk result (λ n. IsPrefixLen n buf.new) }
{
    rt.arg(i, buf).map_err(|why| {
        Error::from_raw_os_error(match why {
            FillError::NotPresent => MISSING,
            FillError::TooLong => TOO_LONG,
        })
    })
}

// Argument i, which is written to the front of a buffer. It is empty if the argument is missing or longer than the
// buffer.
pub fn argument_or_empty<'a>(rt: &impl Env, i: usize, buf: &'a mut [u8]) -> &'a [u8]
    ensures { length result.now ≤ length buf.old }
{
    match argument(rt, i, buf) {
        Ok(n) => &buf[..n],
        Err(_) => &[],
    }
}

// The path that a name's bytes write. A name that is not UTF-8 is an error, since no path of std is.
pub fn path(name: &[u8]) -> Result<&str, Error>
    ensures { MatchResult result (λ text. text.now ≡ name.now)
        (λ why. ¬ (IsUtf8 name.now) × (raw_os_error why ≡ Some (pos 84))) }
{
    from_utf8(name).map_err(|_| Error::from_raw_os_error(NOT_UTF_8))
}

// Opens a file for reading.
fn opened<R: Files>(rt: &R, name: &[u8]) -> Result<R::File, Error> {
    let path = path(name)?;
    OpenOptions::new().read(true).open(rt, path)
}

// Reads a file. If it cannot be opened or read, a line on standard error says so.
fn named(rt: &(impl Files + Eprint), name: &[u8], buf: &mut [u8]) -> Got
    ensures { GotOf (length buf.new) result }
{
    match opened(rt, name) {
        Ok(mut from) => fill(rt, &mut from, name, buf),
        Err(why) => unread(rt, name, why),
    }
}

// Reads the file that argument i names. If it cannot be opened or read, a line on standard error says so.
pub fn file(rt: &(impl Files + Env + Eprint), i: usize, buf: &mut [u8]) -> Got
    ensures { GotOf (length buf.new) result }
{
    let mut name = [0u8; NAME_ROOM];
    match argument(rt, i, &mut name) {
        Ok(n) => named(rt, &name[..n], buf),
        Err(why) => unread(rt, b"name of a file", why),
    }
}
