// An arc of a strand laid anew in a word, at any place and by any plan. The word is the first n codes of a row.
#![tactic(auto)]

ghost use Rattle.std.specs.Prelude.{◌+◌, ◌-◌, ◌≤◌, ◌<◌, ◌≡◌, true, ◌++◌, length, take, drop};
ghost use Rattle.arc_relay.specs.Relay.{Relayed};
ghost use Rattle.arc_relay.specs.steps.Places.{Fits};

use arc_laying::lay;

// Replaces the first `old` codes of a part by new codes, at most as many. The codes after them move up. Nothing moves
// if there are as many new codes, which is the most frequent case.
fn replace(part: &mut [u8], old: usize, new: &[u8])
    requires { (length new.now ≤ old) × (old ≤ length part.old) }
    ensures { take (length part.old - (old - length new.now)) part.new
        ≡ new.now ++ drop old part.old }
{
    let m = new.len();
    part[..m].copy_from_slice(new);
    if m < old {
        part.copy_within(old.., m);
    }
}

// Are b and e places of a word of n codes in the row, is p a place of the strand, and is there room for the part?
fn fits(n: usize, b: usize, e: usize, p: u8, row: usize, room: usize) -> bool
    ensures { result ≡ true → Fits n b e p row room }
{
    b <= e && e <= n && n <= row && p <= 7 && room <= 65535 && e - b <= room
}

// Lays the letters at places b to e - 1 anew, if they are an arc. Returns how many letters the word then has.
fn relay_inside(
    codes: &mut [u8],
    n: usize,
    b: usize,
    e: usize,
    p: u8,
    under: bool,
    plan: &[u8],
    out: &mut [u8],
) -> usize
    requires { Fits n b e p (length codes.old) (length out.old) × (e - b ≤ length plan.now) }
    ensures { Relayed n b e p under plan.now codes.old codes.new result }
{
    let Some(m) = lay(&codes[b..e], p, under, plan, out) else {
        return n;
    };
    replace(&mut codes[b..n], e - b, &out[..m]);
    n - (e - b - m)
}

// Lays the letters at places b to e - 1 anew, if they are an arc of the strand that begins at place p. The plan has the
// strand's place at each letter. `out` is working memory. Returns how many letters the word then has.
pub fn relay(
    codes: &mut [u8],
    n: usize,
    b: usize,
    e: usize,
    p: u8,
    under: bool,
    plan: &[u8],
    out: &mut [u8],
) -> usize
    ensures { Relayed n b e p under plan.now codes.old codes.new result }
{
    if !fits(n, b, e, p, codes.len(), out.len()) || plan.len() < e - b {
        return n;
    }
    relay_inside(codes, n, b, e, p, under, plan, out)
}
