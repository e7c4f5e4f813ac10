// What the Rust answered for distribute_fc2.
use capi_fc2::gf_distribute_fc2;
use replays::Tally;
use replays::records::{wide, word_of};
use replays::steps::{count_of, part, plus, table};
use replays::values::{fill, fill_integers, integers, mix_floats, mix_integers};

// The call on the tables of the record. The answer's number.
fn call(r: &[u8], set: &mut [f64], reverse: &mut [i64], r_carts: &[f64], all: &[i64]) -> u64 {
    let num_pos = count_of(r, 10);
    let num_first = count_of(r, 11);
    let num_rot = count_of(r, 12);
    let atom_list = table(r, 13, 0, all);
    let fc_indices = table(r, 13, 1, all);
    let permutations = table(r, 13, 2, all);
    let map_atoms = table(r, 13, 3, all);
    let map_syms = table(r, 13, 4, all);
    wide(gf_distribute_fc2(
        set,
        atom_list,
        fc_indices,
        r_carts,
        permutations,
        map_atoms,
        map_syms,
        reverse,
        num_pos,
        num_first,
        num_rot,
    ))
}

// The record r, with room for its set. There is room for 2,560 entries of its tables. The other slices are made from the record's seed and the
// next two.
pub fn step(t: Tally, r: &[u8], set: &mut [f64]) -> Tally {
    let mut all = [0i64; 2560];
    let mut reverse = [0i64; 64];
    let mut r_carts = [0.0f64; 64];
    integers(r, 18, &mut all);
    let set = part(r, 7, set);
    let reverse = part(r, 8, &mut reverse);
    let r_carts = part(r, 9, &mut r_carts);
    let seed = word_of(r, 4);
    fill(set, seed, word_of(r, 5));
    fill_integers(reverse, plus(seed, 1));
    fill(r_carts, plus(seed, 2), word_of(r, 6));
    let a = call(r, set, reverse, r_carts, &all);
    let got = [a, mix_floats(set, 0), mix_integers(reverse, 0)];
    t.compared(r, a, &got)
}
