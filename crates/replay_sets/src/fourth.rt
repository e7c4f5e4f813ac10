// What the Rust answered for the symmetrizers and the transpose of fourth order.
use capi_fc4::{
    gf_set_permutation_symmetry_compact_fc4, gf_set_permutation_symmetry_fc4,
    gf_transpose_compact_fc4,
};
use replays::records::{integer, word_of};
use replays::shift_tables::shift_tables_of;
use replays::steps::count_of;
use replays::values::integers;
use tables::shift_tables::ShiftTables;

// The compact call that the record names. The answer's number.
fn compact(r: &[u8], set: &mut [f64], done: &mut [u8], t: ShiftTables) -> u8 {
    if count_of(r, 4) == 4 {
        return gf_set_permutation_symmetry_compact_fc4(
            set,
            t.p2s,
            t.s2pp,
            t.nsym_list,
            t.perms,
            done,
            t.n_satom,
            t.n_patom,
            t.num_trans,
        );
    }
    let t_type = integer(word_of(r, 6));
    gf_transpose_compact_fc4(
        set,
        t.p2s,
        t.s2pp,
        t.nsym_list,
        t.perms,
        done,
        t.n_satom,
        t.n_patom,
        t.num_trans,
        t_type,
    )
}

// The call that the record names. The answer's number. There is room for 256 entries of perms and 65 of each other table.
pub fn call(r: &[u8], set: &mut [f64], done: &mut [u8]) -> u8 {
    if count_of(r, 4) == 3 {
        return gf_set_permutation_symmetry_fc4(set, done, count_of(r, 11));
    }
    let mut all = [0i64; 451];
    integers(r, 18, &mut all);
    compact(r, set, done, shift_tables_of(r, 11, 14, &all))
}
