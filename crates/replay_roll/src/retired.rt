// Calls of retire_all, recorded from the sentences of document 02, A.12.
use capi_roll::gf_retire_all;
use replays::Tally;
use replays::steps::{count_of, size};
use replays::values::{bytes, mix_bytes};

// Slot k, 9 where there is none.
fn slot(slots: &[usize], k: usize) -> u64 {
    slots.get(k).map_or(9, |x| *x as u64)
}

// The record r, with room for its slices.
fn compare(t: Tally, r: &[u8], lent: &mut [u8], slots: &mut [usize]) -> Tally {
    let set = size(replays::records::word_of(r, 6), 4294967295) as u32;
    bytes(r, 72, lent);
    let a = u64::from(gf_retire_all(lent, count_of(r, 5), set, slots));
    let got = [a, mix_bytes(lent, 0), slot(slots, 0), slot(slots, 1)];
    t.compared(r, a, &got)
}

// The record r. The slots hold 9 before the call.
pub fn step(t: Tally, r: &[u8]) -> Tally {
    let mut lent = [0u8; 16384];
    let mut slots = [9usize; 2];
    let a = size(replays::records::word_of(r, 8), 16384);
    let b = size(replays::records::word_of(r, 7), 2);
    compare(t, r, &mut lent[0..a], &mut slots[0..b])
}
