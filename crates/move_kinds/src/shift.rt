// Removes two letters from a word, or inserts two. The word is the first n codes of a row.
ghost use Rattle.std.specs.Prelude.{◌+◌, ◌-◌, ◌≤◌, ◌≡◌, length, take, drop};
ghost use Rattle.base.specs.Lists.{overlaid};
ghost use Rattle.word.specs.Cancellation.{removal};
ghost use Rattle.move_kinds.specs.steps.Leaving.{insert_two};

// Moves the codes after the first two to the front. The last two codes do not change. This loop becomes a `memmove`;
// `copy_within` towards the front does not, and took twice as long.
fn move_up(part: &mut [u8])
    requires { 2 ≤ length part.old }
    ensures { part.new ≡ overlaid (drop 2 part.old) part.old }
{
    for k in 0..part.len() - 2 {
        part[k] = part[k + 2];
    }
}

// Removes the two letters at a place.
pub(crate) fn remove_two(codes: &mut [u8], n: usize, place: usize)
    requires { (place + 2 ≤ n) × (n ≤ length codes.old) }
    ensures { take (n - 2) codes.new ≡ (removal place (take n codes.old)).word }
{
    move_up(&mut codes[place..n]);
}

// Inserts two letters before a place.
pub(crate) fn insert_two(codes: &mut [u8], n: usize, place: usize, c: u8, d: u8)
    requires { (place ≤ n) × (n + 2 ≤ length codes.old) }
    ensures { take (n + 2) codes.new ≡ insert_two c d place (take n codes.old) }
{
    codes.copy_within(place..n, place + 2);
    codes[place] = c;
    codes[place + 1] = d;
}
