// The working memory of handle reduction: a row of codes with a gap, and where each generator last occurs before it.
#![tactic(auto)]

mod around; // around.rt: a word laid at the row's end, and gathered around the gap
mod ends; // ends.rt: writes what replaces the letters between a handle's ends
mod places; // places.rt: the latest place of each generator

pub use around::{gather, lay};
pub use ends::{conjugate, grown};
pub use places::{begins, cut, keep};

// One place more than the longest word has letters, so that the gap always has a place. In a row without this place,
// what replaces the letters of b1 b3 b2 b1⁻¹ would overwrite the b3 that is still to be read.
pub const ROOM: usize = 10001;

// The slot of b_i and of its inverse is i. No letter has slot 0. Slot 8 is that of codes 7 and 15, which are no
// letters.
pub const SLOTS: usize = 9;
