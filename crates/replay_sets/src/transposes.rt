// The true transposes of all orders and the swaps of pairs of fourth, recorded from their definition.
use capi_fc2::gf_true_transpose_compact_fc2;
use capi_fc3::gf_true_transpose_compact_fc3;
use capi_fc4::{gf_swap_pairs_compact_fc4, gf_true_transpose_compact_fc4};
use replays::records::{integer, word_of};
use replays::shift_tables::shift_tables_of;
use replays::steps::count_of;
use replays::values::integers;
use tables::shift_tables::ShiftTables;

// A swap of two legs, which stand in the place of a type: the first and eight times the second. The answer's number.
fn swap(r: &[u8], set: &mut [f64], done: &mut [u8], t: ShiftTables) -> u8 {
    let legs = count_of(r, 6);
    gf_swap_pairs_compact_fc4(
        set,
        t.p2s,
        t.s2pp,
        t.nsym_list,
        t.perms,
        done,
        t.n_satom,
        t.n_patom,
        t.num_trans,
        legs % 8,
        legs / 8,
    )
}

// The call that the record names: 2 to 4 is a true transpose of that order, and those of third and fourth have a type, word 6; 5 is a swap. The
// answer's number.
fn compact(r: &[u8], set: &mut [f64], done: &mut [u8], t: ShiftTables) -> u8 {
    let t_type = integer(word_of(r, 6));
    match count_of(r, 4) {
        2 => gf_true_transpose_compact_fc2(
            set,
            t.p2s,
            t.s2pp,
            t.nsym_list,
            t.perms,
            done,
            t.n_satom,
            t.n_patom,
            t.num_trans,
        ),
        3 => gf_true_transpose_compact_fc3(
            set,
            t.p2s,
            t.s2pp,
            t.nsym_list,
            t.perms,
            done,
            t.n_satom,
            t.n_patom,
            t.num_trans,
            t_type,
        ),
        5 => swap(r, set, done, t),
        _ => gf_true_transpose_compact_fc4(
            set,
            t.p2s,
            t.s2pp,
            t.nsym_list,
            t.perms,
            done,
            t.n_satom,
            t.n_patom,
            t.num_trans,
            t_type,
        ),
    }
}

// The same, with the tables of the record. There is room for 256 entries of perms and 65 of each other table.
pub fn call(r: &[u8], set: &mut [f64], done: &mut [u8]) -> u8 {
    let mut all = [0i64; 451];
    integers(r, 18, &mut all);
    compact(r, set, done, shift_tables_of(r, 11, 14, &all))
}
