// A cheapest plan for an arc. A plan has the strand's place at each letter of the part. The strand gives way only where
// it stands between the two strands that a letter crosses. It goes to the side from which fewer steps are to come. The
// first pass finds these sides, and the second pass goes the other way and writes the plan.
#![tactic(auto)]

ghost use Rattle.std.specs.Prelude.{◌≤◌, ◌<◌, length, IfSome};
ghost use Rattle.std.specs.Iterator.{IsFinite};
ghost use Rattle.arc_plan.specs.steps.Planning.{Planned};

// What the first pass writes for the strand's own letter.
const OWN: u8 = 16;

// The place between the two strands that the letter crosses. None if the letter is the strand's own.
fn gap(c: u8, x: u8) -> Option<u8>
    requires { x ≤ 7 }
    ensures { IfSome result (λ g. (0 < g) × (g ≤ 7)) }
{
    let g = c % 8;
    if x < g {
        return Some(g);
    }
    if g + 1 < x {
        return Some(g + 1);
    }
    None
}

// The place of the strand after a letter, in either direction.
fn moved(c: u8, x: u8) -> u8
    requires { x ≤ 7 }
    ensures { result ≤ 7 }
{
    let g = c % 8;
    if g == x {
        return (x + 1) % 8;
    }
    if g + 1 == x {
        return x - 1;
    }
    x
}

// The steps from each place to place x.
fn distances(x: u8) -> [u8; 9] {
    let mut steps = [0; 9];
    for z in 0..8u8 {
        steps[usize::from(z)] = z.abs_diff(x);
    }
    steps
}

// The gap of a letter, and the side to which the strand gives way: twice the gap, and 1 more for the left side. Also
// stores the number of steps still to come from the gap. The answer is `OWN` for the strand's own letter. It is a
// number, because the second pass reads it in the byte of the plan in which it then writes a place.
fn side(c: u8, x: u8, coin: bool, steps: &mut [u8; 9]) -> u8
    requires { x ≤ 7 }
{
    let Some(g) = gap(c, x) else {
        return OWN;
    };
    let i = usize::from(g);
    let left = steps[i - 1];
    let right = steps[i + 1];
    if left < right || (left == right && coin) {
        steps[i] = left % 16 + 1;
        return 2 * g + 1;
    }
    steps[i] = right % 16 + 1;
    2 * g
}

// The first pass, from the end at which the strand stands at place `far`. It writes a side for each letter.
// One loop over any zip of the letters and the plan makes shortening 5 % slower.
fn sides(part: &[u8], plan: &mut [u8], far: u8, last_first: bool, coin: bool)
    requires { (length part.now ≤ length plan.old) × (far ≤ 7) }
    ensures { Planned (length part.now) plan.old plan.new }
{
    let mut steps = distances(far);
    let mut x = far;
    if last_first {
        for i in (0..part.len()).rev() {
            plan[i] = side(part[i], x, coin, &mut steps);
            x = moved(part[i], x);
        }
    } else {
        for i in 0..part.len() {
            plan[i] = side(part[i], x, coin, &mut steps);
            x = moved(part[i], x);
        }
    }
}

// The place of the strand after it gives way, if it stands in the gap.
fn given_way(side: u8, x: u8) -> u8
    requires { x ≤ 7 }
    ensures { result ≤ 7 }
{
    if side / 2 != x {
        return x;
    }
    if side % 2 == 1 {
        return (x + 7) % 8;
    }
    (x + 1) % 8
}

// The second pass, from the end at which the strand stands at place `near`. It goes over the bytes of the plan, and
// turns each side into a place.
fn places<'a, I: Iterator<Item = &'a mut u8>>(plan: I, near: u8)
    requires can_next { I.can_next plan × IsFinite (I.remaining plan) }
    requires start { near ≤ 7 }
{
    let mut x = near;
    for place in plan {
        x = given_way(*place, x);
        *place = x;
    }
}

// Writes a cheapest plan for a part in which the strand goes from place p to place y. The plan may be found from either
// end. At a tie between two sides, the coin decides.
pub fn find_plan(part: &[u8], plan: &mut [u8], p: u8, y: u8, from_end: bool, coin: bool)
    requires { (length part.now ≤ length plan.old) × (p ≤ 7) × (y ≤ 7) }
    ensures { Planned (length part.now) plan.old plan.new }
{
    let plan = &mut plan[..part.len()];
    if from_end {
        sides(part, plan, p, false, coin);
        places(plan.iter_mut().rev(), y);
    } else {
        sides(part, plan, y, true, coin);
        places(plan.iter_mut(), p);
    }
}
