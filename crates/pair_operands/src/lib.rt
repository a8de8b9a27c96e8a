// Tests of T-values, entries and labels.
#![tactic(auto)]

ghost use Rattle.std.specs.Prelude.{◌≡◌, length};
ghost use Rattle.word.specs.Strands.{is_order, are_inverse};
ghost use Rattle.pair_operands.specs.Operands.{nonzero};
ghost use Rattle.pair_operands.specs.steps.Fitting.{fit};

// Does every number fit `bits` bits? Every byte fits eight bits or more. The loop never ends early, so the compiled
// code tests many bytes at once; `all` of an iterator does not.
pub fn all_fit(xs: &[u8], bits: usize) -> bool
    ensures { result ≡ fit bits xs.now }
{
    if 8 <= bits {
        return true;
    }
    let limit: u8 = 1 << bits;
    let mut fits = true;
    for x in xs {
        fits &= *x < limit;
    }
    fits
}

// Is no number zero? This loop never ends early either.
pub fn all_nonzero(xs: &[u8]) -> bool
    ensures { result ≡ nonzero xs.now }
{
    let mut other = true;
    for x in xs {
        other &= *x != 0;
    }
    other
}

// Byte a of this number counts label a: each of the labels 0 to 7 occurs once.
const ONCE_EACH: u64 = 0x0101_0101_0101_0101;

// Is the list 0 to 7, each once? One number of 64 bits counts all labels, each in its own byte.
pub fn is_order(labels: &[u8]) -> bool
    requires { length labels.now ≡ 8 }
    ensures { result ≡ is_order labels.now }
{
    let mut counts: u64 = 0;
    for &label in labels {
        if 8 <= label {
            return false;
        }
        counts += 1 << (8 * label);
    }
    counts == ONCE_EACH
}

// Are a list and its positions inverse to each other? The test goes place by place: each label is below 8, and its
// position is where it stands, counted from 1. Then no two labels are equal, so they are 0 to 7, each once.
pub fn are_inverse(labels: &[u8], positions: &[u8]) -> bool
    requires { (length labels.now ≡ 8) × (length positions.now ≡ 8) }
    ensures { result ≡ are_inverse labels.now positions.now }
{
    for (i, &label) in labels.iter().enumerate() {
        if 8 <= label {
            return false;
        }
        let position = positions[usize::from(label)];
        if usize::from(position) != i + 1 {
            return false;
        }
    }
    true
}
