// Texts of several lines: a buffer that starts with a text, and the desk program's line as such a text.
#![tactic(auto)]

ghost use Rattle.std.specs.Prelude.{◌≡◌, replicate};
ghost use Rattle.text.specs.Texts.{TellsIn};
ghost use Rattle.desk_line.specs.Desk.{answer_line};
ghost use Rattle.desk_text.specs.Room.{text_size};

// The most bytes of a text: 24 lines of 19.
pub const TEXT: usize = 456;

// A text: the first `bytes` bytes; zeros after it.
#[derive(Clone, Copy)]
pub struct Text {
    pub text: [u8; TEXT],
    pub bytes: usize,
}

impl Text {
    // No text.
    pub fn none() -> Text
        ensures { (result.bytes ≡ 0) × (result.text ≡ replicate text_size 0) }
    {
        Text {
            text: [0; TEXT],
            bytes: 0,
        }
    }
}

// The desk program's line of an answer, as a text.
pub fn answer_text(answer: u8) -> Text
    ensures { TellsIn text_size (answer_line answer) result.bytes result.text }
{
    let line = desk_line::answer_line(answer);
    let bytes = line.bytes;
    let mut text = [0u8; TEXT];
    base::put(&mut text, &line.text[..bytes]);
    Text { text, bytes }
}
