// The reader of words that keeps its place. Past the last letter it says that none is left, and stays. Functions over a
// plain slice and a number do the work. The functions over the reader only take it apart, call one of the plain
// functions, and put a reader together again.
#![tactic(auto)]

ghost use Rattle.std.specs.Prelude.{◌<◌, ◌≡◌, length};
ghost use Rattle.word.specs.Words.{codes, LetterAt};
ghost use Rattle.word_reader.specs.Reader.{opened, read_at, place_behind};

use word::Letter;

// `file` is an accepted word file, or the empty part of a refused one, which has no letters.
#[derive(Clone, Copy)]
pub struct WordReader<'a> {
    pub(crate) file: &'a [u8],
    pub(crate) at: usize,
}

// The number of codes of a file: as many as it states, or all its half bytes if there are fewer.
fn count(file: &[u8]) -> usize
    ensures { (result ≡ length (codes file.now)) × (result < 65536) }
{
    if file.len() < 2 {
        return 0;
    }
    let n = word::stated(file);
    let bytes = file.len() - 2;
    if bytes < (n + 1) / 2 {
        return 2 * bytes;
    }
    n
}

// The file itself if it is an accepted word, otherwise its empty part.
fn kept(file: &[u8]) -> &[u8]
    ensures { result.now ≡ opened file.now }
{
    let w = word::read_word(file);
    if w.answer == 0 {
        return file;
    }
    &file[..0]
}

// The letter at a place of a file. The file is not tested again.
fn letter_of(file: &[u8], at: usize) -> Letter
    ensures { result ≡ read_at file.now at }
{
    let n = count(file);
    if n <= at {
        return Letter {
            left: false,
            code: 0,
        };
    }
    let part = &file[2..];
    let code = word::half(part, at);
    Letter { left: true, code }
}

// The place after one move: past the last letter the reader stays.
fn next_place(file: &[u8], at: usize) -> usize
    ensures { result ≡ place_behind file.now at }
{
    let n = count(file);
    if at < n { at + 1 } else { at }
}

// Opens a reader at the first letter of a word file. On a refusal the reader has no letters; `word::read_word` gives
// the answer's number.
pub fn open<'a>(file: &'a [u8]) -> WordReader<'a>
    ensures { (result.file.now ≡ opened file.now) × (result.at ≡ 0) }
{
    WordReader {
        file: kept(file),
        at: 0,
    }
}

// Reads the next letter. Past the last letter it says that none is left.
pub fn next<'a>(r: WordReader<'a>) -> Letter
    ensures { result ≡ read_at r.entry.file.now r.entry.at }
{
    letter_of(r.file, r.at)
}

// The reader moved on by one letter. Past the last letter it stays.
pub fn moved_on<'a>(r: WordReader<'a>) -> WordReader<'a>
    ensures { (result.file ≡ r.entry.file) × (result.at ≡ place_behind r.entry.file.now r.entry.at) }
{
    let at = next_place(r.file, r.at);
    WordReader { file: r.file, at }
}

// The second letter, read through the reader. The parameter is a plain slice, so a caller needs to know nothing of
// readers.
pub fn second(file: &[u8]) -> Letter
    ensures { LetterAt file.now 1 result.left result.code }
{
    next(moved_on(open(file)))
}
