// The first pass: letters that cancel are marked. For each generator `last` has the place after
// its latest letter that is not marked, or 0 if there is none.
// An `Option<u16>` would take four bytes for each entry in place of two, and memory is fixed.
ghost use Rattle.std.specs.Prelude.{◌+◌, ◌-◌, ◌%◌, ◌≤◌, ◌<◌, ◌≡◌, true, length, take, get_or};
ghost use Rattle.base.specs.Lists.{every};
ghost use Rattle.word.specs.Letters.{is_letter};
ghost use Rattle.swap_cancel.specs.SwapCancel.{swap_cancelled};
ghost use Rattle.swap_cancel.specs.steps.Marking.{kept, Marked, OneRead, PartnerOrNone};

use word::{MAX_LETTERS, inverse};

// The code that marks a letter. It is no letter.
// A mark is a code, and not an `Option`: the caller lends the row of codes, and memory is fixed.
const MARK: u8 = 15;

// The place of the letter that cancels with c.
fn partner(codes: &[u8], last: &[u16], c: u8) -> Option<usize>
    requires { (length last.now ≡ 10) × (get_or last.now (c % 8 + 1) 0 ≤ length codes.now) }
    ensures { PartnerOrNone codes.now last.now c result }
{
    let g = usize::from(c % 8);
    let own = last[g + 1];
    if own <= last[g] {
        return None;
    }
    if own <= last[g + 2] {
        return None;
    }
    let at = usize::from(own) - 1;
    if codes[at] != inverse(c) {
        return None;
    }
    Some(at)
}

// Marks the letter at place k and its partner. Keeps the letter if it has none.
fn mark_or_keep(
    codes: &mut [u8],
    n: usize,
    k: usize,
    with: Option<usize>,
    before: &mut [u16],
    last: &mut [u16],
)
    requires { Marked n codes.old before.old last.old k × (k < n)
        × PartnerOrNone codes.old last.old (get_or codes.old k 0) with }
    ensures { Marked n codes.new before.new last.new (k + 1)
        × OneRead codes.old codes.new k }
{
    let g = usize::from(codes[k] % 8);
    match with {
        None => {
            before[k] = last[g + 1];
            last[g + 1] = (k + 1) as u16;
        }
        Some(at) => {
            codes[at] = MARK;
            codes[k] = MARK;
            last[g + 1] = before[at];
        }
    }
}

// Reads the letter at place k.
fn read_one(codes: &mut [u8], n: usize, k: usize, before: &mut [u16], last: &mut [u16])
    requires { Marked n codes.old before.old last.old k × (k < n) }
    ensures { Marked n codes.new before.new last.new (k + 1)
        × OneRead codes.old codes.new k }
{
    let with = partner(codes, last, codes[k]);
    mark_or_keep(codes, n, k, with, before, last);
}

// Marks all letters of a word that cancel.
pub(crate) fn mark_all(codes: &mut [u8], n: usize)
    requires { (n ≤ 10000) × (n ≤ length codes.old) × (every is_letter (take n codes.old) ≡ true) }
    ensures { kept (take n codes.new) ≡ swap_cancelled (take n codes.old) }
{
    let mut before = [0u16; MAX_LETTERS];
    let mut last = [0u16; 10];
    for k in 0..n {
        read_one(codes, n, k, &mut before, &mut last);
    }
}
