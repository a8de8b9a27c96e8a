// One letter and the strand of an arc. The strand stands at a place of 0 to 7.
#![tactic(auto)]

ghost use Rattle.std.specs.Prelude.{◌≤◌, ◌<◌, ◌≡◌, [], ◌∷◌, IfSome};
ghost use Rattle.braid_arcs.specs.Arcs.{rightward, leftward, beside, Arc};
ghost use Rattle.arc_strand.specs.steps.Strand.{IsOther};

// The letter by which the strand steps from place x to the next.
pub fn rightward(under: bool, x: u8) -> u8
    requires { x < 7 }
    ensures { result ≡ rightward under x }
{
    if under { x + 8 } else { x }
}

// The letter by which the strand steps back to place x from the next. It is the inverse of the letter to the right.
pub fn leftward(under: bool, x: u8) -> u8
    requires { x < 7 }
    ensures { result ≡ leftward under x }
{
    rightward(!under, x)
}

// The place of the strand after its own letter c. None if c is not the strand's letter, or has the wrong sign.
pub fn passed(c: u8, x: u8, under: bool) -> Option<u8>
    requires { x ≤ 7 }
    ensures { IfSome result (λ y. Arc under x (c ∷ []) y []) }
{
    if x < 7 && c == rightward(under, x) {
        return Some(x + 1);
    }
    if 0 < x && c == leftward(under, x - 1) {
        return Some(x - 1);
    }
    None
}

// The letter c of two other strands, as it would be with the strand at place 0. None if c is no such letter.
pub fn other(c: u8, x: u8) -> Option<u8>
    requires { x ≤ 7 }
    ensures { IfSome result (IsOther x c) }
{
    let g = c % 8;
    if c >= 16 || g == 7 {
        return None;
    }
    if x < g {
        return Some(c);
    }
    if g + 1 < x {
        return Some(c + 1);
    }
    None
}

// The letter d of two other strands, with the strand at place x.
pub fn beside(d: u8, x: u8) -> u8
    requires { 0 < d }
    ensures { result ≡ beside d x }
{
    if x <= d % 8 {
        return d;
    }
    d - 1
}
