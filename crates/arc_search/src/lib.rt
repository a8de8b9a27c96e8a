// The search for a shorter word: a fixed generator draws places, and the arc at each is laid anew.
#![tactic(auto)]

ghost use Rattle.std.specs.Prelude.{◌+◌, ◌≤◌, ◌<◌, length};
ghost use Rattle.arc_search.specs.Search.{Searched};

use arc_plan::find_plan;
use arc_reach::longest;
use arc_relay::relay;

// The most letters of an arc: 256 to each side of its place.
const PART: usize = 512;

// The next number of the generator.
fn next(seed: usize) -> usize
    requires { seed < 2147483647 }
    ensures { result < 2147483647 }
{
    seed * 48271 % 2147483647
}

// What a number decides: the place of a letter, whether the arc goes over or under, the end at which the plan begins,
// and the side taken at a tie.
#[derive(Clone, Copy)]
struct Choice {
    place: usize,
    under: bool,
    from_end: bool,
    coin: bool,
}

// What the number drawn decides in a word of n codes.
fn decided(drawn: usize, n: usize) -> Choice
    requires { 0 < n }
    ensures { result.place < n }
{
    let rest = drawn / n;
    Choice {
        place: drawn % n,
        under: rest % 2 == 1,
        from_end: rest / 2 % 2 == 1,
        coin: rest / 4 % 2 == 1,
    }
}

// One step: the longest arc through the letter at the place drawn is laid anew.
fn one_step(
    codes: &mut [u8],
    n: usize,
    drawn: usize,
    plan: &mut [u8; PART],
    out: &mut [u8; PART],
) -> usize
    requires { (0 < n) × (n ≤ length codes.old) × (n ≤ 10000) }
    ensures { Searched n codes.old codes.new result }
{
    let choice = decided(drawn, n);
    let arc = longest(codes, n, choice.place, choice.under);
    let b = arc.begin;
    let e = arc.end;
    find_plan(
        &codes[b..e],
        plan,
        arc.from,
        arc.to,
        choice.from_end,
        choice.coin,
    );
    relay(codes, n, b, e, arc.from, choice.under, plan, out)
}

// The search. It makes `effort` steps for each letter that the word has at the start.
pub fn search(codes: &mut [u8], n: usize, effort: u16) -> usize
    requires { (n ≤ length codes.old) × (n ≤ 10000) }
    ensures { Searched n codes.old codes.new result }
{
    let mut plan = [0u8; PART];
    let mut out = [0u8; PART];
    let mut count = n;
    let mut drawn = 1;
    for _ in 0..n * usize::from(effort) {
        if count == 0 {
            break;
        }
        drawn = next(drawn);
        count = one_step(codes, count, drawn, &mut plan, &mut out);
    }
    count
}
