// The exports. Each is thin and has the contract of the function that it calls. The header states the functions in C. A
// slice passes as a pointer and a length, a fixed array as a pointer, a struct by value in C's layout.
#![tactic(auto)]

ghost use Rattle.std.specs.Prelude.{◌≡◌};
ghost use Rattle.base.specs.Questions.{first_no};
ghost use Rattle.field.specs.Fields.{operations, field_of};
ghost use Rattle.field.specs.Elements.{product_questions, reciprocal_questions, Gives};
ghost use Rattle.word.specs.Words.{codes, Read, WroteWord};
ghost use Rattle.pair.specs.Action.{start};
ghost use Rattle.pair_multiplier.specs.Lent.{Lends};
ghost use Rattle.key.specs.Keys.{file_entries, ReadsKey, WroteKey};
ghost use Rattle.slip_verdict.specs.Verdict.{verdict};
ghost use Rattle.slip_verdict.specs.Halves.{MakesHalf, second_half_questions};
ghost use Rattle.slip_cloaking.specs.Cloaking.{Cloaks};
ghost use Rattle.move_rewriter.specs.Rewriter.{Rewrote};
ghost use Rattle.handle_reducer.specs.Reducing.{TookHandles};
ghost use Rattle.walnut.specs.Exported.{version, key_from, half_from};
ghost use Rattle.word_reduction.specs.Reducer.{WroteReduced};
ghost use Rattle.word_stored.specs.Stored.{WroteStored, WroteRestored};
ghost use Rattle.word_dialect.specs.Dialect.{to_y, from_y, WroteConverted};
ghost use Rattle.word_replacement.specs.Replacement.{ReplacedPair};
ghost use Rattle.slip_digest.specs.Digest.{WroteEncoded};
ghost use Rattle.word_crossing.specs.Crossings.{Crosses};
ghost use Rattle.word_spread.specs.Spread.{Ends};
ghost use Rattle.word_shorter.specs.Shorter.{Chose};
ghost use Rattle.word_shortener.specs.Shortener.{Shortened};
ghost use Rattle.shelf.specs.Calls.{load, clear, judge, round, Serves};

use field::Element;
use handle_reducer::Handles;
use pair::Pair;
use slip_cloaking::Cloak;
use slip_verdict::Half;
use word::{Word, Written};
use word_crossing::Crossing;
use word_shorter::Choice;
use word_spread::Count;

// What the key reader gives: its answer, whether the key's field is the larger one, the T-values, the pair Pub(S) and
// the matrix of Pub(S'). On a refusal `large` is false, and all numbers but the answer are zero.
#[repr(C)]
#[derive(Clone, Copy)]
pub struct KeyForC {
    pub answer: u8,
    pub large: bool,
    pub t_values: [u8; 8],
    pub pair: Pair,
    pub second: [u8; 64],
}

// What the first half gives and the second takes: whether the field is the larger one, the T-values, the pair Pub(S)
// and the target, with which the matrix that a signature reaches is compared.
#[repr(C)]
#[derive(Clone, Copy)]
pub struct HalfForC {
    pub large: bool,
    pub t_values: [u8; 8],
    pub pair: Pair,
    pub target: [u8; 64],
}

// An answer, and beside it a half. On a refusal the half's `large` is false, and all its numbers are zero.
#[repr(C)]
#[derive(Clone, Copy)]
pub struct HalvedForC {
    pub answer: u8,
    pub half: HalfForC,
}

// The version of the library as one number: 10,000 for each major version, 100 for each minor one, 1 for each patch.
#[unsafe(no_mangle)]
pub extern "C" fn walnut_version() -> u32
    ensures { result ≡ version }
{
    10101
}

#[unsafe(no_mangle)]
pub extern "C" fn walnut_product(large: bool, a: u8, b: u8) -> Element
    ensures { Gives (product_questions (field_of large) a b) ((operations (field_of large)).mul a b) result.answer
        result.value }
{
    field::product(a, b, field::field_of(large))
}

#[unsafe(no_mangle)]
pub extern "C" fn walnut_reciprocal(large: bool, a: u8) -> Element
    ensures { Gives (reciprocal_questions (field_of large) a) ((operations (field_of large)).inv a) result.answer
        result.value }
{
    field::reciprocal(a, field::field_of(large))
}

#[unsafe(no_mangle)]
pub extern "C" fn walnut_start() -> Pair
    ensures { result ≡ start }
{
    Pair::start()
}

// The caller lends its pair, and one letter changes it. On a refusal the pair is unchanged.
#[unsafe(no_mangle)]
pub extern "C" fn walnut_multiply(
    pair: &mut Pair,
    large: bool,
    t_values: &[u8; 8],
    letter: u8,
) -> u8
    ensures { Lends (field_of large) pair.old t_values.now letter result pair.new }
{
    let stepped = pair_multiplier::step(*pair, large, t_values, letter);
    *pair = stepped.pair;
    stepped.answer
}

#[unsafe(no_mangle)]
pub extern "C" fn walnut_read_key(file: &[u8]) -> KeyForC
    ensures { ReadsKey file.now result.answer (key_from result.large result.t_values result.pair result.second) }
{
    let read = key_reader::read_key(file);
    // The proof does not close without these two: Rattle covers no array field of a C struct made of a field straight.
    let t_values = read.key.t_values;
    let second = read.key.second;
    KeyForC {
        answer: read.answer,
        large: field::is_large(read.key.field),
        t_values,
        pair: read.key.pair,
        second,
    }
}

// The 57 entries of a matrix, in the order in which the key writer takes them.
#[unsafe(no_mangle)]
pub extern "C" fn walnut_file_entries(matrix: &[u8; 64], entries: &mut [u8; 57])
    ensures { entries.new ≡ file_entries matrix.now }
{
    *entries = key::file_entries(matrix);
}

#[unsafe(no_mangle)]
pub extern "C" fn walnut_write_key(
    large: bool,
    t_values: &[u8; 8],
    labels: &[u8; 8],
    first: &[u8; 57],
    second: &[u8; 57],
    out: &mut [u8],
) -> u8
    ensures { WroteKey (field_of large) t_values.now labels.now first.now
        second.now out.old out.new result }
{
    key_writer::write_key(t_values, labels, first, second, out, field::field_of(large))
}

#[unsafe(no_mangle)]
pub extern "C" fn walnut_read_word(file: &[u8]) -> Word
    ensures { Read file.now result.answer result.letters }
{
    word::read_word(file)
}

#[unsafe(no_mangle)]
pub extern "C" fn walnut_write_word(codes: &[u8], out: &mut [u8]) -> Written
    ensures { WroteWord codes.now out.old out.new result.answer result.bytes }
{
    word_writer::write_word(codes, out)
}

#[unsafe(no_mangle)]
pub extern "C" fn walnut_encode_digest(digest: &[u8], out: &mut [u8]) -> Written
    ensures { WroteEncoded digest.now out.old out.new result.answer result.bytes }
{
    slip_encoder::encode(digest, out)
}

#[unsafe(no_mangle)]
pub extern "C" fn walnut_free_reduce(word: &[u8], out: &mut [u8]) -> Written
    ensures { WroteReduced word.now out.old out.new result.answer result.bytes }
{
    word_reduction::free_reduce(word, out)
}

#[unsafe(no_mangle)]
pub extern "C" fn walnut_store(word: &[u8], out: &mut [u8]) -> Written
    ensures { WroteStored word.now out.old out.new result.answer result.bytes }
{
    word_store::store(word, out)
}

#[unsafe(no_mangle)]
pub extern "C" fn walnut_restore(stored: &[u8], out: &mut [u8]) -> Written
    ensures { WroteRestored stored.now out.old out.new result.answer result.bytes }
{
    word_restore::restore(stored, out)
}

#[unsafe(no_mangle)]
pub extern "C" fn walnut_to_y(word: &[u8], parts: &[u8], out: &mut [u8]) -> Written
    ensures { WroteConverted to_y word.now parts.now out.old out.new
        result.answer result.bytes }
{
    word_dialect::to_y(word, parts, out)
}

#[unsafe(no_mangle)]
pub extern "C" fn walnut_from_y(word: &[u8], parts: &[u8], out: &mut [u8]) -> Written
    ensures { WroteConverted from_y word.now parts.now out.old out.new
        result.answer result.bytes }
{
    word_dialect::from_y(word, parts, out)
}

#[unsafe(no_mangle)]
pub extern "C" fn walnut_replace_pair(word: &[u8], place: usize, out: &mut [u8]) -> Written
    ensures { ReplacedPair word.now place out.old out.new result.answer result.bytes }
{
    word_replacement::replace_pair(word, place, out)
}

#[unsafe(no_mangle)]
pub extern "C" fn walnut_rewrite(word: &[u8], moves: &[u8], out: &mut [u8]) -> Written
    ensures { Rewrote word.now moves.now out.old out.new result.answer result.bytes }
{
    move_rewriter::rewrite(word, moves, out)
}

#[unsafe(no_mangle)]
pub extern "C" fn walnut_handle_reduce(word: &[u8], limit: u16, out: &mut [u8]) -> Handles
    ensures { TookHandles word.now limit out.old out.new result.answer result.bytes result.left }
{
    handle_reducer::handle_reduce(word, limit, out)
}

#[unsafe(no_mangle)]
pub extern "C" fn walnut_shorter(a: &[u8], b: &[u8]) -> Choice
    ensures { Chose a.now b.now result.answer result.which }
{
    word_shorter::choose(a, b)
}

#[unsafe(no_mangle)]
pub extern "C" fn walnut_shorten(word: &[u8], effort: u16, out: &mut [u8]) -> Written
    ensures { Shortened effort word.now out.old out.new result.answer result.bytes }
{
    word_shortener::shorten_word(word, effort, out)
}

#[unsafe(no_mangle)]
pub extern "C" fn walnut_verify(key: &[u8], digest: &[u8], word: &[u8]) -> u8
    ensures { result ≡ verdict key.now digest.now word.now }
{
    slip_verdict::verify(key, digest, word)
}

// The verdict's first half: what every signature of the digest is judged by.
#[unsafe(no_mangle)]
pub extern "C" fn walnut_first_half(key: &[u8], digest: &[u8]) -> HalvedForC
    ensures { MakesHalf key.now digest.now result.answer
        (half_from result.half.large result.half.t_values result.half.pair result.half.target) }
{
    let made = slip_verdict::first_half(key, digest);
    // The proof does not close without these two: Rattle covers no array field of a C struct made of a field straight.
    let t_values = made.half.t_values;
    let target = made.half.target;
    let half = HalfForC {
        large: field::is_large(made.half.field),
        t_values,
        pair: made.half.pair,
        target,
    };
    HalvedForC {
        answer: made.answer,
        half,
    }
}

// The verdict's second half. The caller may have made the half by itself.
#[unsafe(no_mangle)]
pub extern "C" fn walnut_second_half(half: HalfForC, word: &[u8]) -> u8
    ensures { result
        ≡ first_no
        (second_half_questions (half_from half.large half.t_values half.pair half.target)
        word.now) }
{
    // The proof does not close without these two: Rattle covers no field made of an array field of a C struct straight.
    let t_values = half.t_values;
    let target = half.target;
    let held = Half {
        field: field::field_of(half.large),
        t_values,
        pair: half.pair,
        target,
    };
    slip_verdict::second_half(held, word)
}

#[unsafe(no_mangle)]
pub extern "C" fn walnut_cloaks(key: &[u8], labels: &[u8], word: &[u8]) -> Cloak
    ensures { Cloaks key.now labels.now word.now result.answer result.yes }
{
    slip_cloaking::cloaks(key, labels, word)
}

#[unsafe(no_mangle)]
pub extern "C" fn walnut_crossings(word: &[u8], a: u8, b: u8) -> Crossing
    ensures { Crosses word.now a b result.answer result.crossings }
{
    word_crossing::crossings(word, a, b)
}

#[unsafe(no_mangle)]
pub extern "C" fn walnut_words_ending(length: usize, labels: &[u8]) -> Count
    ensures { Ends length labels.now result.answer result.words }
{
    word_spread::words_ending(length, labels)
}

// The caller lends its key shelf, and the key takes its place there. On a refusal the shelf is unchanged.
#[unsafe(no_mangle)]
pub extern "C" fn walnut_shelf_load(
    shelf: &mut [u8; shelf_calls::SHELF_BYTES],
    publisher: usize,
    number: usize,
    key: &[u8],
) -> u8
    ensures { Serves publisher (load number key.now) shelf.old shelf.new result }
{
    shelf_calls::load(shelf, publisher, number, key)
}

#[unsafe(no_mangle)]
pub extern "C" fn walnut_shelf_clear(
    shelf: &mut [u8; shelf_calls::SHELF_BYTES],
    publisher: usize,
    number: usize,
) -> u8
    ensures { Serves publisher (clear number) shelf.old shelf.new result }
{
    shelf_calls::clear(shelf, publisher, number)
}

// The verdict by the key that the shelf holds, or 36 if the slip is not admitted. On 0 and on 14 the slip's letters are
// charged to the publisher.
#[unsafe(no_mangle)]
pub extern "C" fn walnut_shelf_judge(
    shelf: &mut [u8; shelf_calls::SHELF_BYTES],
    publisher: usize,
    number: usize,
    digest: &[u8],
    word: &[u8],
) -> u8
    ensures { Serves publisher (judge number digest.now word.now) shelf.old
        shelf.new result }
{
    shelf_calls::judge(shelf, publisher, number, digest, word)
}

// A new round, for both publishers.
#[unsafe(no_mangle)]
pub extern "C" fn walnut_shelf_round(
    shelf: &mut [u8; shelf_calls::SHELF_BYTES],
    publisher: usize,
) -> u8
    ensures { Serves publisher round shelf.old shelf.new result }
{
    shelf_calls::round(shelf, publisher)
}
