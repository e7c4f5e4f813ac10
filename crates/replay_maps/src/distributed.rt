// What the Rust answered for distribute_fc3 and distribute_fc4.
use capi_fc3::gf_distribute_fc3;
use capi_fc4::gf_distribute_fc4;
use replays::Tally;
use replays::records::{wide, word_of};
use replays::steps::{count_of, part, plus};
use replays::values::{fill, integers, mix_floats};

// The call that the record names. The answer's number.
fn call(r: &[u8], set: &mut [f64], atom_mapping: &[i64], rot_cart: &[f64]) -> u64 {
    let target = count_of(r, 7);
    let source = count_of(r, 8);
    let n = count_of(r, 9);
    let num_first = count_of(r, 10);
    if count_of(r, 3) == 3 {
        return wide(gf_distribute_fc3(set, target, source, atom_mapping, n, rot_cart, num_first));
    }
    wide(gf_distribute_fc4(set, target, source, atom_mapping, n, rot_cart, num_first))
}

// The record r, with room for its set. The map is read, the set and the rotation are made from the record's seed and the next.
pub fn step(t: Tally, r: &[u8], set: &mut [f64]) -> Tally {
    let mut atom_mapping = [0i64; 16];
    let mut rot_cart = [0.0f64; 16];
    let set = part(r, 6, set);
    let atom_mapping = part(r, 11, &mut atom_mapping);
    let rot_cart = part(r, 12, &mut rot_cart);
    let seed = word_of(r, 4);
    integers(r, 14, atom_mapping);
    fill(set, seed, word_of(r, 5));
    fill(rot_cart, plus(seed, 1), word_of(r, 13));
    let a = call(r, set, atom_mapping, rot_cart);
    t.compared(r, a, &[a, mix_floats(set, 0)])
}
