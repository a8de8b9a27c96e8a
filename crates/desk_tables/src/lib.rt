// Reads a word or a length, and writes the text of its crossings or of how words spread. `desk_crossings` and
// `desk_spread` decide what is written, also if an input could not be read.
#![tactic(auto)]

ghost use Rattle.io.specs.Counts.{IsPrefixLen};

use desk_io::NAME_ROOM;
use desk_line::Got;
use desk_text::Text;
use std::io::Input;
use std::rt::{Env, Files};

// Writes a text of several lines.
fn tell_text(rt: &(impl Print + Eprint), t: Text)
    requires { IsPrefixLen t.bytes t.text }
{
    desk_io::say(rt, &t.text[..t.bytes]);
}

// Lists the crossings of the word on standard input.
fn crossings_input(rt: &(impl Input + Print + Eprint)) {
    let mut input = [0u8; desk_crossings::WORD_ROOM];
    let mut from = rt.reader();
    let got: Got = desk_io::fill(rt, &mut from, b"standard input", &mut input);
    tell_text(rt, desk_crossings::word_text(&input, got));
}

// Lists the crossings of the word in the file that the argument names.
fn crossings_file(rt: &(impl Files + Env + Print + Eprint)) {
    let mut input = [0u8; desk_crossings::WORD_ROOM];
    let got: Got = desk_io::file(rt, 1, &mut input);
    tell_text(rt, desk_crossings::word_text(&input, got));
}

// The program that lists crossings. Without arguments it takes the word on standard input, and with a name the word in
// that file.
pub fn crossings(rt: &(impl Files + Env + Input + Print + Eprint)) {
    match desk_io::arg_count(rt) {
        0 | 1 => crossings_input(rt),
        2 => crossings_file(rt),
        _ => desk_io::misused(
            rt,
            b"crossings takes the name of a file, the word, or none\n",
        ),
    }
}

// How words of the usual length spread.
fn spread_usual(rt: &(impl Print + Eprint)) {
    tell_text(rt, desk_spread::usual_text());
}

// How words of the length that the argument writes spread. An argument that is longer than the buffer counts as empty.
fn spread_length(rt: &(impl Env + Print + Eprint)) {
    let mut room = [0u8; NAME_ROOM];
    let argument = desk_io::argument_or_empty(rt, 1, &mut room);
    tell_text(rt, desk_spread::argument_text(argument));
}

// The program that prints how words spread. Without an argument it takes words of the usual length, and with a length
// words of that length.
pub fn spread(rt: &(impl Env + Print + Eprint)) {
    match desk_io::arg_count(rt) {
        0 | 1 => spread_usual(rt),
        2 => spread_length(rt),
        _ => desk_io::misused(rt, b"spread takes a length, 0 to 12, or none\n"),
    }
}
