// Sets of third order without drift and alike, recorded from the sentence that they are asked for in.
use capi_acoustic::{gf_perm_trans_symmetrize_compact_fc3, gf_perm_trans_symmetrize_fc3};
use replays::Tally;
use replays::records::{wide, word_of};
use replays::shift_tables::shift_tables_of;
use replays::steps::{count_of, part, plus};
use replays::values::{fill, fill_bytes, integers, mix_bytes, mix_floats};
use tables::shift_tables::ShiftTables;

// A compact set. The answer's number.
fn compact(r: &[u8], set: &mut [f64], done: &mut [u8], drift: &mut [f64], t: ShiftTables) -> u8 {
    let level = count_of(r, 6);
    gf_perm_trans_symmetrize_compact_fc3(
        set,
        t.p2s,
        t.s2pp,
        t.nsym_list,
        t.perms,
        done,
        drift,
        t.n_satom,
        t.n_patom,
        t.num_trans,
        level,
    )
}

// The call that the record names. The answer's number. The full one has no marks. There is room for 160 entries of the tables.
fn call(r: &[u8], set: &mut [f64], done: &mut [u8], drift: &mut [f64]) -> u8 {
    if count_of(r, 5) == 0 {
        return gf_perm_trans_symmetrize_fc3(set, drift, count_of(r, 12), count_of(r, 6));
    }
    let mut all = [0i64; 160];
    integers(r, 19, &mut all);
    compact(r, set, done, drift, shift_tables_of(r, 12, 15, &all))
}

// The record r, whose set and work slices are made from its seed.
pub fn step(t: Tally, r: &[u8]) -> Tally {
    let mut set = [0.0f64; 3500];
    let mut done = [0u8; 140];
    let mut drift = [0.0f64; 500];
    let set = part(r, 9, &mut set);
    let done = part(r, 10, &mut done);
    let drift = part(r, 11, &mut drift);
    let seed = word_of(r, 7);
    fill(set, seed, word_of(r, 8));
    fill_bytes(done, seed);
    fill(drift, plus(seed, 1), word_of(r, 8));
    let a = wide(call(r, set, done, drift));
    let got = [
        a,
        mix_floats(set, 0),
        mix_bytes(done, 0),
        mix_floats(drift, 0),
    ];
    t.compared(r, a, &got)
}
