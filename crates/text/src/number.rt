// Writes numbers in decimal behind a text.
ghost use Rattle.std.specs.Prelude.{◌+◌, ◌≤◌, ◌≡◌, [], ◌∷◌, ◌++◌, length};
ghost use Rattle.base.specs.steps.Laying.{Laid};
ghost use Rattle.base.specs.Digits.{digits};
ghost use Rattle.text.specs.Decimal.{places, shown, decimal, signed_text};

// How many digits a number has.
fn places(n: u32) -> usize
    ensures { result ≡ places n }
{
    n.max(1).ilog10() as usize + 1
}

// Writes the last digits of a number, as many as `part` has places, as the bytes that show them.
fn spell(part: &mut [u8], n: u32)
    ensures { part.new ≡ shown (digits 10 (length part.old) n) }
{
    base::spell(part, 10, u64::from(n));
    for digit in part {
        *digit += b'0';
    }
}

// Writes a number in decimal, and the byte `then`, behind the first `at` bytes of a text. Returns the place after them.
pub fn decimal(text: &mut [u8], at: usize, n: u32, then: u8) -> usize
    requires { at + (length (decimal n) + 1) ≤ length text.old }
    ensures { Laid at (decimal n ++ (then ∷ [])) text.old text.new result }
{
    let end = at + places(n);
    spell(&mut text[at..end], n);
    text[end] = then;
    end + 1
}

// Writes an integer in decimal and the byte `then`, like `decimal`. An integer below zero has a minus sign in front.
pub fn signed(text: &mut [u8], at: usize, n: i32, then: u8) -> usize
    requires { at + (length (signed_text n) + 1) ≤ length text.old }
    ensures { Laid at (signed_text n ++ (then ∷ [])) text.old text.new result }
{
    let size = n.unsigned_abs();
    if 0 <= n {
        return decimal(text, at, size, then);
    }
    text[at] = b'-';
    decimal(text, at + 1, size, then)
}
