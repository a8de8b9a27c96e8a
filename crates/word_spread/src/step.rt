// One letter more: from the number of words that end in each of the 24 lists to the numbers of the words with one more
// letter.
ghost use Rattle.std.specs.Prelude.{◌<◌};
ghost use Rattle.word_spread.specs.steps.Counting.{Few, MoreAt, OneMore};

// How many words with one more letter end in list k. Such a word without its last letter ends in the list that this
// letter turns into list k. A letter swaps two places, so this list is also the list that the letter makes of list k. A
// letter and its inverse swap the same places, so each of the three lists counts twice. A row has for each of the 24
// lists, in order, the place of the list that b1, b2 or b3 makes of it.
fn more_at(counts: &[u32; 24], k: usize) -> u32
    requires { Few counts.now × (k < 24) }
    ensures { MoreAt counts.now k result }
{
    static BY_B1: [usize; 24] = [
        6, 7, 12, 13, 18, 19, 0, 1, 14, 15, 20, 21, 2, 3, 8, 9, 22, 23, 4, 5, 10, 11, 16, 17,
    ];
    static BY_B2: [usize; 24] = [
        2, 4, 0, 5, 1, 3, 8, 10, 6, 11, 7, 9, 14, 16, 12, 17, 13, 15, 20, 22, 18, 23, 19, 21,
    ];
    static BY_B3: [usize; 24] = [
        1, 0, 3, 2, 5, 4, 7, 6, 9, 8, 11, 10, 13, 12, 15, 14, 17, 16, 19, 18, 21, 20, 23, 22,
    ];
    2 * (counts[BY_B1[k]] + counts[BY_B2[k]] + counts[BY_B3[k]])
}

// The numbers of all 24 lists.
pub(crate) fn step(counts: &[u32; 24]) -> [u32; 24]
    requires { Few counts.now }
    ensures { OneMore counts.now result }
{
    let mut more = [0u32; 24];
    for k in 0..24 {
        more[k] = more_at(counts, k);
    }
    more
}
