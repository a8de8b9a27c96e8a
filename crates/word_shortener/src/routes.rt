// The two ways to a shorter word. The word is the first n codes of a row.
ghost use Rattle.std.specs.Prelude.{◌≤◌, ◌≡◌, true, length, take};
ghost use Rattle.base.specs.Lists.{every};
ghost use Rattle.word.specs.Letters.{is_letter};
ghost use Rattle.word_shortener.specs.steps.Routes.{ShortWord, SecondWay, BothWays};

use arc_search::search;
use handle_steps::reduce;
use swap_cancel::swap_cancel;

// The most steps of handle reduction.
const STEPS: usize = 65535;

// Lays arcs anew, and then swaps and cancels.
fn by_arcs(codes: &mut [u8], n: usize, effort: u16) -> usize
    requires { (n ≤ 10000) × (n ≤ length codes.old) × (every is_letter (take n codes.old) ≡ true) }
    ensures { ShortWord n (take n codes.old) codes.new result }
{
    let m = search(codes, n, effort);
    swap_cancel(codes, m)
}

// Takes handles out, swaps and cancels, and lays arcs anew. None if handle reduction is refused.
fn by_handles(codes: &mut [u8], n: usize, effort: u16) -> Option<usize>
    requires { (n ≤ 10000) × (10000 ≤ length codes.old) × (every is_letter (take n codes.old) ≡ true) }
    ensures { SecondWay (take n codes.old) codes.new result }
{
    let h = reduce(codes, n, STEPS);
    if h.answer != 0 {
        return None;
    }
    let m = swap_cancel(codes, h.letters);
    Some(by_arcs(codes, m, effort))
}

// Shortens the word of a row: the shorter of both ways, and the first on a tie. `copy` has the same word, and is
// working memory.
pub(crate) fn shorten_codes(codes: &mut [u8], copy: &mut [u8], n: usize, effort: u16) -> usize
    requires { (n ≤ 10000) × (n ≤ length codes.old) × (10000 ≤ length copy.old)
        × (every is_letter (take n codes.old) ≡ true) × (take n copy.old ≡ take n codes.old) }
    ensures { BothWays effort (take n codes.old) codes.new result }
{
    let few = swap_cancel(codes, n);
    if effort == 0 {
        return few;
    }
    let first = by_arcs(codes, few, effort);
    let Some(second) = by_handles(copy, n, effort) else {
        return first;
    };
    if second < first {
        codes[..second].copy_from_slice(&copy[..second]);
        return second;
    }
    first
}
