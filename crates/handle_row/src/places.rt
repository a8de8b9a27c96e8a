// The latest place of each generator before the gap. The tables hold each place plus 1, so that 0 means none. For each
// place a second table has the latest place before it that has the same generator.
// An `Option<u16>` would take four bytes for each entry in place of two, and memory is fixed.
ghost use Rattle.std.specs.Prelude.{◌+◌, ◌≤◌, ◌<◌, ◌≡◌, length, MatchOption};
ghost use Rattle.handle_row.specs.steps.Gaps.{letter_slot, Tables, beginning, Reads, Open, LetterKept};

use word::inverse;

// The slot of a letter: i for b_i and for its inverse.
fn slot_of(c: u8) -> usize
    ensures { (result ≡ letter_slot c) × (result < 9) }
{
    usize::from(c % 8) + 1
}

// Does a handle end with the first code after the gap? Gives the place where it begins.
pub fn begins(row: &[u8], latest: &[u16], left: usize, right: usize) -> Option<usize>
    requires { Reads row.now latest.now left right }
    ensures { MatchOption result (beginning row.now left right ≡ 0) (λ at. beginning row.now left right ≡ at + 1) }
{
    let c = row[right];
    let s = slot_of(c);
    let own = usize::from(latest[s]);
    let less = usize::from(latest[s - 1]);
    if own <= less || row[own - 1] != inverse(c) {
        return None;
    }
    Some(own - 1)
}

// The first code after the gap moves before the gap.
pub fn keep(row: &mut [u8], latest: &mut [u16], before: &mut [u16], left: usize, right: usize)
    requires { Open row.old before.old left right × Tables row.old latest.old before.old left }
    ensures { LetterKept row.old row.new latest.new before.new left right }
{
    let c = row[right];
    let s = slot_of(c);
    before[left] = latest[s];
    latest[s] = (left + 1) as u16;
    row[left] = c;
}

// The codes before the gap are cut to the first `from`. The tables go back, letter by letter, to those of these codes.
pub fn cut(row: &[u8], latest: &mut [u16], before: &[u16], from: usize, left: usize)
    requires { (from ≤ left) × (left ≤ length row.now) × (length before.now ≡ length row.now)
        × Tables row.now latest.old before.now left }
    ensures { Tables row.now latest.new before.now from }
{
    for k in (from..left).rev() {
        let s = slot_of(row[k]);
        latest[s] = before[k];
    }
}
