// The second pass: the letters that are not marked move up.
ghost use Rattle.std.specs.Prelude.{◌≤◌, ◌<◌, ◌≡◌, length, take};
ghost use Rattle.swap_cancel.specs.steps.Marking.{kept, Packed};

use word::is_letter;

// Puts a code behind the first n codes. A mark is left out. Returns the new number of codes.
fn settle(codes: &mut [u8], n: usize, c: u8) -> usize
    requires { n < length codes.old }
    ensures { Packed n c codes.old codes.new result }
{
    if !is_letter(c) {
        return n;
    }
    codes[n] = c;
    n + 1
}

// Takes the marks out of the first n codes. Returns how many letters the word then has.
pub(crate) fn pack_kept(codes: &mut [u8], n: usize) -> usize
    requires { n ≤ length codes.old }
    ensures { (result ≤ n) × (take result codes.new ≡ kept (take n codes.old)) }
{
    let mut count = 0;
    for k in 0..n {
        let c = codes[k];
        count = settle(codes, count, c);
    }
    count
}
