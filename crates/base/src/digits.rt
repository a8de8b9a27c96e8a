// The number that digits to a base write, and the digits of a number.
ghost use Rattle.std.specs.Prelude.{◌≡◌, ◌^◌, ◌≤◌, ◌<◌, length};
ghost use Rattle.base.specs.Digits.{value, digits};
ghost use Rattle.base.specs.Packing.{Below};

// The number that the digits write to the base.
pub fn number(src: &[u8], base: u64) -> u64
    requires { Below base src.now × (base ^ length src.now ≤ 2 ^ 64) }
    ensures { result ≡ value base src.now }
{
    let mut v: u64 = 0;
    for digit in src {
        v = v * base + u64::from(*digit);
    }
    v
}

// Writes the last digits of a number to the base, as many as `dst` has places.
pub fn spell(dst: &mut [u8], base: u64, number: u64)
    requires { (0 < base) × (base ≤ 256) }
    ensures { dst.new ≡ digits base (length dst.old) number }
{
    let mut v = number;
    for i in (0..dst.len()).rev() {
        dst[i] = (v % base) as u8;
        v /= base;
    }
}
