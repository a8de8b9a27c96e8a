// The line that the desk writes for an answer, what reading a file gives, and how much of a file to read.
#![tactic(auto)]

ghost use Rattle.std.specs.Prelude.{◌≡◌, false, ◌&&◌, replicate};
ghost use Rattle.desk_line.specs.Desk.{answer_line, no_answer_line, Tells};

// The bytes to read of a key, a digest and a signature: one more than the longest has, so that a file that is too long
// is noticed. `desk_slip` proves that this is enough, and that one byte less is not.
pub const KEY_ROOM: usize = 129;

pub const DIGEST_ROOM: usize = 65;

pub const WORD_ROOM: usize = 5003;

// A line of text: the first `bytes` bytes; zeros after it.
#[derive(Clone, Copy)]
pub struct Line {
    pub text: [u8; 11],
    pub bytes: usize,
}

impl Line {
    // No line.
    pub fn none() -> Line
        ensures { (result.bytes ≡ 0) × (result.text ≡ replicate 11 0) }
    {
        Line {
            text: [0; 11],
            bytes: 0,
        }
    }

    // "no answer", a line end.
    pub fn no_answer() -> Line
        ensures { Tells no_answer_line result.bytes result.text }
    {
        Line {
            text: *b"no answer\n\0",
            bytes: 10,
        }
    }
}

// "answer ", the decimal number, a line end.
pub fn answer_line(answer: u8) -> Line
    ensures { Tells (answer_line answer) result.bytes result.text }
{
    let mut text = *b"answer \0\0\0\0";
    let bytes = text::decimal(&mut text, 7, u32::from(answer), b'\n');
    Line { text, bytes }
}

// What reading a file gave: could the file be read, and how many bytes of its buffer were filled?
#[derive(Clone, Copy)]
pub struct Got {
    pub read: bool,
    pub bytes: usize,
}

impl Got {
    // The file could not be read.
    pub fn unread() -> Got
        ensures { (result.read ≡ false) × (result.bytes ≡ 0) }
    {
        Got {
            read: false,
            bytes: 0,
        }
    }
}

pub fn all_read(k: Got, d: Got, w: Got) -> bool
    ensures { result ≡ k.read && d.read && w.read }
{
    k.read && d.read && w.read
}
