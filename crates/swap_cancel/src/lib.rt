// Swap and cancel: a letter and its inverse go if every letter between them is far from them. One pass marks the
// letters that cancel, and a second pass takes the marks out.
#![tactic(auto)]

ghost use Rattle.std.specs.Prelude.{◌≤◌, ◌≡◌, true, length, take};
ghost use Rattle.base.specs.Lists.{every};
ghost use Rattle.word.specs.Letters.{is_letter};
ghost use Rattle.swap_cancel.specs.SwapCancel.{Cancelled};

use marking::mark_all;
use packing::pack_kept;

mod marking; // marking.rt: letters that cancel are marked
mod packing; // packing.rt: the marks are taken out

// Swaps and cancels letters of a word, which is the first n codes of a row. Returns how many letters the word then has.
pub fn swap_cancel(codes: &mut [u8], n: usize) -> usize
    requires { (n ≤ 10000) × (n ≤ length codes.old) × (every is_letter (take n codes.old) ≡ true) }
    ensures { Cancelled n codes.old codes.new result }
{
    mark_all(codes, n);
    pack_kept(codes, n)
}
