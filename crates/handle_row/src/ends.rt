// Writes what replaces the letters between a handle's ends. It is written from the last letter to the first, right
// before the codes after the gap. So it never overwrites a letter that is still to be read.
ghost use Rattle.std.specs.Prelude.{◌*◌, ◌≤◌, ◌<◌, ◌≡◌, length, take};
ghost use Rattle.braid_handles.specs.Handles.{conjugated_letter, conjugated};
ghost use Rattle.handle_row.specs.steps.Gaps.{RoomFor, Replaces, Conjugates};

use word::inverse;

// How many letters replace d in a handle that begins with a.
fn size_of(a: u8, d: u8) -> usize
    ensures { (result ≡ length (conjugated_letter a d)) × (result ≤ 3) }
{
    if d % 8 == a % 8 + 1 {
        return 3;
    }
    1
}

// How many letters replace those of a part in a handle that begins with a.
pub fn grown(part: &[u8], a: u8) -> usize
    requires { length part.now ≤ 10001 }
    ensures { (result ≡ length (conjugated a part.now)) × (result ≤ 3 * length part.now) }
{
    part.iter().map(|d| size_of(a, *d)).sum()
}

// Writes what replaces d right before place `at`. Returns the place where it begins.
fn replace(part: &mut [u8], at: usize, a: u8, d: u8) -> usize
    requires { RoomFor part.old at a d }
    ensures { Replaces part.old part.new at a d result }
{
    if d % 8 == a % 8 + 1 {
        let next = a + 1;
        let other = inverse(next);
        let from = at - 3;
        part[from] = other;
        part[from + 1] = d - 1;
        part[from + 2] = next;
        return from;
    }
    part[at - 1] = d;
    at - 1
}

// Writes what replaces the first n codes of a part to the part's end. Returns the place where it begins.
pub fn conjugate(part: &mut [u8], n: usize, a: u8) -> usize
    requires { (a < 16) × (n ≤ length part.old) × (length (conjugated a (take n part.old)) ≤ length part.old) }
    ensures { Conjugates part.old part.new n a result }
{
    let mut at = part.len();
    for k in (0..n).rev() {
        let d = part[k];
        at = replace(part, at, a, d);
    }
    at
}
