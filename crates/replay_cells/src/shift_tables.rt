// Verdicts on shift tables.
use capi_cells::capi_explaining::gf_explain_shift_tables;
use capi_cells::gf_check_shift_tables;
use replays::Tally;
use replays::records::{wide, word_of};
use replays::shift_tables::shift_tables_of;
use replays::steps::{count_of, part, size};
use replays::values::{integers, mix_slots};
use tables::shift_tables::ShiftTables;

// The verdict of the guard of compact calls, for a set and a work slice of second order.
fn judge(r: &[u8], t: ShiftTables) -> u64 {
    let limit = size(word_of(r, 5), 1024);
    let a = shifts::judge_compact(limit, 1, count_of(r, 6), 1, count_of(r, 7), &t);
    wide(tables::number(a))
}

// The verdict on the tables alone, through its C name.
fn check(t: ShiftTables) -> u64 {
    wide(gf_check_shift_tables(
        t.p2s,
        t.s2pp,
        t.nsym_list,
        t.perms,
        t.n_satom,
        t.n_patom,
        t.num_trans,
    ))
}

// Why the tables are refused, in slots that hold 7 before: the answer's number.
fn explain(t: ShiftTables, place: &mut [usize]) -> u64 {
    wide(gf_explain_shift_tables(
        t.p2s,
        t.s2pp,
        t.nsym_list,
        t.perms,
        place,
        t.n_satom,
        t.n_patom,
        t.num_trans,
    ))
}

// What the calls gave: the numbers of the three answers, and the checksum of the slots.
fn verdicts(r: &[u8], t: ShiftTables, place: &mut [usize]) -> [u64; 4] {
    let a = judge(r, t);
    let b = check(t);
    let e = explain(t, place);
    [a, b, e, mix_slots(place, 0)]
}

// The record r. There is room for 256 entries of perms and 65 of each other table.
pub fn step(t: Tally, r: &[u8]) -> Tally {
    let mut all = [0i64; 451];
    let mut place = [7usize; 6];
    integers(r, 16, &mut all);
    let got = verdicts(r, shift_tables_of(r, 9, 12, &all), part(r, 8, &mut place));
    t.compared(r, got[0], &got)
}
