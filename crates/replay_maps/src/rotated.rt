// What the Rust answered for rotate_delta_fc2s and rotate_delta_fc3s.
use capi_fc3::gf_rotate_delta_fc2s;
use capi_fc4::gf_rotate_delta_fc3s;
use replays::Tally;
use replays::records::{wide, word_of};
use replays::steps::{count_of, part, plus};
use replays::values::{fill, integers, mix_floats};

// The call that the record names. The answer's number.
fn call(
    r: &[u8],
    set: &mut [f64],
    rot_delta: &mut [f64],
    delta: &[f64],
    inv_u: &[f64],
    site_sym_cart: &[f64],
    rot_map_syms: &[i64],
) -> u64 {
    let num_atom = count_of(r, 14);
    let num_site_sym = count_of(r, 15);
    let num_disp = count_of(r, 16);
    if count_of(r, 4) == 2 {
        return wide(gf_rotate_delta_fc2s(
            set,
            delta,
            inv_u,
            site_sym_cart,
            rot_map_syms,
            rot_delta,
            num_atom,
            num_site_sym,
            num_disp,
        ));
    }
    wide(gf_rotate_delta_fc3s(
        set,
        delta,
        inv_u,
        site_sym_cart,
        rot_map_syms,
        rot_delta,
        num_atom,
        num_site_sym,
        num_disp,
    ))
}

// The record r, with room for its set and its work slice. The map is read, the other slices are made from the record's seed and the next four.
pub fn step(t: Tally, r: &[u8], set: &mut [f64], work: &mut [f64]) -> Tally {
    let mut delta = [0.0f64; 4096];
    let mut inv_u = [0.0f64; 128];
    let mut site_sym_cart = [0.0f64; 128];
    let mut rot_map_syms = [0i64; 128];
    let set = part(r, 8, set);
    let delta = part(r, 9, &mut delta);
    let inv_u = part(r, 10, &mut inv_u);
    let site_sym_cart = part(r, 11, &mut site_sym_cart);
    let rot_map_syms = part(r, 12, &mut rot_map_syms);
    let rot_delta = part(r, 13, work);
    let seed = word_of(r, 5);
    fill(delta, seed, word_of(r, 6));
    fill(inv_u, plus(seed, 1), word_of(r, 7));
    fill(site_sym_cart, plus(seed, 2), word_of(r, 7));
    fill(set, plus(seed, 3), word_of(r, 6));
    fill(rot_delta, plus(seed, 4), word_of(r, 6));
    integers(r, 17, rot_map_syms);
    let a = call(r, set, rot_delta, delta, inv_u, site_sym_cart, rot_map_syms);
    let got = [a, mix_floats(set, 0), mix_floats(rot_delta, 0)];
    t.compared(r, a, &got)
}
