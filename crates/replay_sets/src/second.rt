// What the Rust answered for the symmetrizers and the exchange of legs of second order.
use capi_fc2::{
    gf_perm_trans_symmetrize_compact_fc, gf_perm_trans_symmetrize_fc,
    gf_set_index_permutation_symmetry_compact_fc,
};
use replays::shift_tables::shift_tables_of;
use replays::steps::count_of;
use replays::values::integers;
use tables::shift_tables::ShiftTables;

// The compact call that the record names. The answer's number. Word 6 is the level, or 1 for a transpose.
fn compact(r: &[u8], set: &mut [f64], done: &mut [u8], t: ShiftTables) -> u8 {
    let level = count_of(r, 6);
    if count_of(r, 4) == 1 {
        return gf_perm_trans_symmetrize_compact_fc(
            set,
            t.p2s,
            t.s2pp,
            t.nsym_list,
            t.perms,
            done,
            t.n_satom,
            t.n_patom,
            t.num_trans,
            level,
        );
    }
    gf_set_index_permutation_symmetry_compact_fc(
        set,
        t.p2s,
        t.s2pp,
        t.nsym_list,
        t.perms,
        done,
        t.n_satom,
        t.n_patom,
        t.num_trans,
        level == 1,
    )
}

// The call that the record names. The answer's number. The full one has no work slice. There is room for 640 entries of the tables.
pub fn call(r: &[u8], set: &mut [f64], done: &mut [u8]) -> u8 {
    if count_of(r, 4) == 0 {
        return gf_perm_trans_symmetrize_fc(set, count_of(r, 11), count_of(r, 6));
    }
    let mut all = [0i64; 640];
    integers(r, 18, &mut all);
    compact(r, set, done, shift_tables_of(r, 11, 14, &all))
}
