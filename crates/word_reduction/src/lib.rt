// Free reduction of a word file. If a letter is the inverse of the last letter on the stack, the two cancel. Otherwise
// the letter stays. The stack always holds the freely reduced word of the letters pushed so far.
#![tactic(auto)]

ghost use Rattle.std.specs.Prelude.{◌+◌, ◌-◌, ◌*◌, ◌/◌, ◌≤◌, ◌<◌, ◌≡◌, true, ◌&&◌, [], ◌∷◌, ◌++◌, ltb, eqb, length};
ghost use Rattle.std.specs.Prelude.{take, get_or};
ghost use Rattle.base.specs.Lists.{every};
ghost use Rattle.base.specs.Digits.{halves};
ghost use Rattle.word.specs.Letters.{is_letter, inverse};
ghost use Rattle.word.specs.Reduction.{reduced, Irreducible};
ghost use Rattle.word_reduction.specs.Reducer.{WroteReduced};
ghost use Rattle.word_reduction.specs.steps.Stack.{MayCome, Pushed};

use word::{MAX_BYTES, MAX_LETTERS, Written, inverse, read_word, sixteen_at, unpack};
use word_writer::write_word;

// Is the letter the inverse of the last of the n codes on the stack?
fn cancels(stack: &[u8], n: usize, c: u8) -> bool
    requires { n ≤ length stack.now }
    ensures { result ≡ ltb 0 n && eqb c (inverse (get_or stack.now (n - 1) 0)) }
{
    if n == 0 {
        return false;
    }
    let last = stack[n - 1];
    let other = inverse(last);
    c == other
}

// Pushes a letter onto a stack of n codes. Returns how many codes the stack then has. The codes after them do not
// change.
// The stack and its count are no struct with methods: with the count behind a reference a letter took 1.9 ns, not 1.1.
pub fn push(stack: &mut [u8], n: usize, c: u8) -> usize
    requires { (n < length stack.old) × Irreducible (take n stack.old) × (every is_letter (take n stack.old) ≡ true) }
    ensures { Pushed n (c ∷ []) stack.old stack.new result }
{
    if cancels(stack, n, c) {
        return n - 1;
    }
    stack[n] = c;
    n + 1
}

// Pushes codes one by one onto a stack of n codes. Returns how many codes the stack then has.
fn pushes(stack: &mut [u8], n: usize, codes: &[u8]) -> usize
    requires { MayCome n stack.old codes.now }
    ensures { (result ≤ n + length codes.now)
        × (take result stack.new ≡ reduced (take n stack.old ++ codes.now)) }
{
    let mut count = n;
    for c in codes {
        count = push(stack, count, *c);
    }
    count
}

// Pushes half bytes onto an empty stack, sixteen at a time, as long as sixteen of the first n are left. Returns how
// many codes the stack then has.
fn cancel_words(part: &[u8], n: usize, stack: &mut [u8]) -> usize
    requires { (n ≤ 2 * length part.now) × (n ≤ length stack.old)
        × (every is_letter (take n (halves part.now)) ≡ true) }
    ensures { (result ≤ 2 * (n / 16 * 8))
        × (take result stack.new ≡ reduced (halves (take (n / 16 * 8) part.now))) }
{
    let mut count = 0;
    for k in 0..n / 16 {
        count = pushes(stack, count, &sixteen_at(part, 8 * k));
    }
    count
}

// Pushes the first n half bytes onto an empty stack. Returns how many codes the stack then has.
fn cancel(part: &[u8], n: usize, stack: &mut [u8]) -> usize
    requires { (n ≤ 2 * length part.now) × (n ≤ length stack.old)
        × (every is_letter (take n (halves part.now)) ≡ true) }
    ensures { (result ≤ n) × (take result stack.new ≡ reduced (take n (halves part.now))) }
{
    let count = cancel_words(part, n, stack);
    let done = n / 16 * 8;
    let end = (n + 1) / 2;
    let mut last = [0u8; 16];
    unpack(&part[done..end], &mut last);
    let left = n - 2 * done;
    pushes(stack, count, &last[..left])
}

// Free reduction: 15, then the word. It writes the freely reduced word to the output.
pub fn free_reduce(word: &[u8], out: &mut [u8]) -> Written
    ensures { WroteReduced word.now out.old out.new result.answer result.bytes }
{
    if out.len() < MAX_BYTES {
        return Written::refused(15);
    }
    let w = read_word(word);
    let answer = w.answer;
    if answer != 0 {
        return Written::refused(answer);
    }
    let letters = w.letters;
    let part = &word[2..];
    let mut stack = [0u8; MAX_LETTERS];
    let n = cancel(part, letters, &mut stack);
    write_word(&stack[..n], out)
}
