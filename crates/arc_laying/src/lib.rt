// The new part of an arc, letter by letter. Each turn reads a letter of the old part, writes a letter of the new part,
// or does both.
#![tactic(auto)]

ghost use Rattle.std.specs.Prelude.{◌+◌, ◌≤◌, ◌<◌, ◌≡◌, length, take, get_or, IfSome};
ghost use Rattle.braid_arcs.specs.Arcs.{Relaid};
ghost use Rattle.arc_strand.specs.steps.Strand.{IsOther};
ghost use Rattle.word.specs.Letters.{generator};
ghost use Rattle.arc_laying.specs.Plans.{Plan};
ghost use Rattle.arc_laying.specs.steps.Laying.{BeforeTurn, AfterTurn, Follows, Unfinished, GoesOn};

use arc_strand::{beside, leftward, other, passed, rightward};

// How many letters of the old part are read, how many letters of the new part are written, and where the strand stands
// in each part.
#[derive(Clone, Copy)]
pub(crate) struct Laying {
    read: usize,
    written: usize,
    old: u8,
    new: u8,
}

// Writes one step of the strand towards place t. None if the new part gets too long, or if t is no place.
fn stepped(part: &[u8], p: u8, under: bool, out: &mut [u8], s: Laying, t: u8) -> Option<Laying>
    requires { BeforeTurn under p part.now out.old s × (s.new ≡ t → ⊥) }
    ensures { IfSome result (λ r. AfterTurn under p part.now out.new s r × (r.read ≡ s.read)) }
{
    if s.written == part.len() || 7 < t {
        return None;
    }
    let written = s.written + 1;
    if s.new < t {
        out[s.written] = rightward(under, s.new);
        return Some(Laying {
            written,
            new: s.new + 1,
            ..s
        });
    }
    out[s.written] = leftward(under, s.new - 1);
    Some(Laying {
        written,
        new: s.new - 1,
        ..s
    })
}

// Reads and writes the next letter of the old part, which is a letter of two other strands. With the strand at place 0
// it would be the letter d. None if the new part gets too long, or if the strand stands between these two strands.
fn crossed(part: &[u8], p: u8, under: bool, out: &mut [u8], s: Laying, d: u8) -> Option<Laying>
    requires { BeforeTurn under p part.now out.old s
        × (s.read < length part.now) × IsOther s.old (get_or part.now s.read 0) d }
    ensures { IfSome result (λ r. AfterTurn under p part.now out.new s r × (r.read ≤ s.read + 1)
        × (s.new ≡ generator d → ⊥)) }
{
    if s.written == part.len() || s.new == d % 8 {
        return None;
    }
    out[s.written] = beside(d, s.new);
    Some(Laying {
        read: s.read + 1,
        written: s.written + 1,
        ..s
    })
}

// One turn. None if the part is no arc, or if the plan is no plan for it.
fn turn(part: &[u8], p: u8, under: bool, plan: &[u8], out: &mut [u8], s: Laying) -> Option<Laying>
    requires { BeforeTurn under p part.now out.old s
        × (length part.now ≤ length plan.now) × Unfinished (length part.now) s }
    ensures { IfSome result (λ r. AfterTurn under p part.now out.new s r
        × Follows under p part.now plan.now s r) }
{
    if s.read == part.len() {
        return stepped(part, p, under, out, s, s.old);
    }
    let c = part[s.read];
    if let Some(old) = passed(c, s.old, under) {
        return Some(Laying {
            read: s.read + 1,
            old,
            ..s
        });
    }
    let d = other(c, s.old)?;
    let t = plan[s.read];
    if s.new == t {
        return crossed(part, p, under, out, s, d);
    }
    stepped(part, p, under, out, s, t)
}

// Is there a turn to make?
fn goes_on(n: usize, s: Laying) -> bool
    ensures { GoesOn n s result }
{
    s.read != n || s.new != s.old
}

// Lays an arc anew. At each letter of two other strands, the strand stands at the place that the plan has for this
// letter. Returns the number of letters of the new part. None if the part is no arc, if the plan is no plan for it, or
// if the new part gets too long.
pub fn lay(part: &[u8], p: u8, under: bool, plan: &[u8], out: &mut [u8]) -> Option<usize>
    requires { (p ≤ 7) × (length part.now ≤ length plan.now) × (length part.now ≤ length out.old) }
    ensures { IfSome result (λ m. (m ≤ length part.now) × Relaid under p part.now (take m out.new)
        × Plan under p part.now plan.now) }
{
    let mut s = Laying {
        read: 0,
        written: 0,
        old: p,
        new: p,
    };
    while goes_on(part.len(), s) {
        s = turn(part, p, under, plan, out, s)?;
    }
    Some(s.written)
}
