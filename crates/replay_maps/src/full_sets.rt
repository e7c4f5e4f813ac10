// Compact sets of second, third and fourth order read out to full ones, recorded from document 01's read-out.
use capi_reports::full::{gf_compact_to_full_fc2, gf_compact_to_full_fc3, gf_compact_to_full_fc4};
use replays::Tally;
use replays::records::{wide, word_of};
use replays::shift_tables::shift_tables_of;
use replays::steps::{count_of, part};
use replays::values::{fill, integers, mix_floats};
use tables::shift_tables::ShiftTables;

// The call of the order that the record names. The answer's number.
fn read_out(r: &[u8], full: &mut [f64], set: &[f64], t: ShiftTables) -> u8 {
    match count_of(r, 3) {
        2 => gf_compact_to_full_fc2(
            full,
            set,
            t.p2s,
            t.s2pp,
            t.nsym_list,
            t.perms,
            t.n_satom,
            t.n_patom,
            t.num_trans,
        ),
        3 => gf_compact_to_full_fc3(
            full,
            set,
            t.p2s,
            t.s2pp,
            t.nsym_list,
            t.perms,
            t.n_satom,
            t.n_patom,
            t.num_trans,
        ),
        _ => gf_compact_to_full_fc4(
            full,
            set,
            t.p2s,
            t.s2pp,
            t.nsym_list,
            t.perms,
            t.n_satom,
            t.n_patom,
            t.num_trans,
        ),
    }
}

// The call of the record. The answer's number. There is room for 256 entries of perms and 65 of each other table.
fn call(r: &[u8], full: &mut [f64], set: &[f64]) -> u64 {
    let mut all = [0i64; 451];
    integers(r, 16, &mut all);
    wide(read_out(r, full, set, shift_tables_of(r, 9, 12, &all)))
}

// The record r, with room for its sets, which are made from two seeds.
pub fn step(t: Tally, r: &[u8], full: &mut [f64], set: &mut [f64]) -> Tally {
    let full = part(r, 7, full);
    let set = part(r, 8, set);
    fill(full, word_of(r, 5), word_of(r, 6));
    fill(set, word_of(r, 4), word_of(r, 6));
    let a = call(r, full, set);
    t.compared(r, a, &[a, mix_floats(full, 0)])
}
