// The longest arc through a letter. Its strand goes over all others, or under all others, backward and forward.
#![tactic(auto)]

ghost use Rattle.std.specs.Prelude.{◌+◌, ◌≤◌, ◌<◌, length, IfSome};
ghost use Rattle.arc_reach.specs.steps.Reaching.{ArcAround};

// Where an arc begins or ends: the place in the word, and the place of the strand.
#[derive(Clone, Copy)]
struct Reach {
    pub at: usize,
    pub strand: u8,
}

// The letters from place `begin` to place `end` - 1 of a word. The strand goes from place `from` to place `to`.
#[derive(Clone, Copy)]
pub struct Arc {
    pub begin: usize,
    pub end: usize,
    pub from: u8,
    pub to: u8,
}

// The place of the strand after a letter. None if the letter is the strand's own and has the wrong sign.
// `then_some` in place of the inner branches makes shortening 2 % slower.
fn after(c: u8, x: u8, under: bool) -> Option<u8>
    requires { x ≤ 7 }
    ensures { IfSome result (λ y. y ≤ 7) }
{
    let g = c % 8;
    let right = (8 <= c) == under;
    if g == x {
        if right && x < 7 {
            return Some(x + 1);
        }
        return None;
    }
    if g + 1 == x {
        if right {
            return None;
        }
        return Some(x - 1);
    }
    Some(x)
}

// Goes back from place k, over at most 256 letters. The strand stands at place x before letter k.
fn back(codes: &[u8], k: usize, x: u8, under: bool) -> Reach
    requires { (k ≤ length codes.now) × (k < 65536) × (x ≤ 7) }
    ensures { (result.at ≤ k) × (k ≤ result.at + 256) × (result.strand ≤ 7) }
{
    let low = k.saturating_sub(256);
    let mut strand = x;
    for at in (low..k).rev() {
        let Some(y) = after(codes[at], strand, !under) else {
            return Reach { at: at + 1, strand };
        };
        strand = y;
    }
    Reach { at: low, strand }
}

// Goes forward from place k of a word of n codes, over at most 256 letters.
fn on(codes: &[u8], n: usize, k: usize, x: u8, under: bool) -> Reach
    requires { (k ≤ n) × (n ≤ length codes.now) × (n < 65536) × (x ≤ 7) }
    ensures { (k ≤ result.at) × (result.at ≤ k + 256) × (result.at ≤ n) × (result.strand ≤ 7) }
{
    let high = n.min(k + 256);
    let mut strand = x;
    for at in k..high {
        let Some(y) = after(codes[at], strand, under) else {
            return Reach { at, strand };
        };
        strand = y;
    }
    Reach { at: high, strand }
}

// The place of the strand before its own letter c.
fn before(c: u8, under: bool) -> u8
    ensures { result ≤ 7 }
{
    if (8 <= c) == under {
        return c % 8;
    }
    (c % 8 + 1) % 8
}

// The longest arc through the letter at place k of a word of n codes, with at most 256 letters to each side.
pub fn longest(codes: &[u8], n: usize, k: usize, under: bool) -> Arc
    requires { (k < n) × (n ≤ length codes.now) × (n ≤ 10000) }
    ensures { ArcAround n k result }
{
    let x = before(codes[k], under);
    let start = back(codes, k, x, under);
    let end = on(codes, n, k, x, under);
    Arc {
        begin: start.at,
        end: end.at,
        from: start.strand,
        to: end.strand,
    }
}
