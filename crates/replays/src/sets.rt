// What the programs of third and fourth order and of the true transposes do before and after a call. Words 5, 7 and 8 of a record say how its
// set is made.
use crate::records::{wide, word_of};
use crate::steps::count_of;
use crate::values::{fill, fill_bytes, mix_bytes, mix_floats};

// The set before the call: made from the seed, or as the call before left it. The work slice has bytes of the same seed.
pub fn prepare(r: &[u8], set: &mut [f64], work: &mut [u8]) {
    fill_bytes(work, word_of(r, 7));
    if count_of(r, 5) == 1 {
        fill(set, word_of(r, 7), word_of(r, 8));
    }
}

// What the call gave: the number of its answer, and the checksums of the set and of the work slice.
pub fn outcome(answer: u8, set: &[f64], work: &[u8]) -> [u64; 3] {
    [wide(answer), mix_floats(set, 0), mix_bytes(work, 0)]
}
