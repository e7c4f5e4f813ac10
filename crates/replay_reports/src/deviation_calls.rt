// The difference reports, the drift reports over legs, and the difference between two sets. Each gives the answer's number.
use capi_deviations::by_legs::{
    gf_drift_report_compact_fc3, gf_drift_report_compact_fc4, gf_drift_report_fc4,
};
use capi_deviations::by_orders::{
    gf_difference_report_compact_fc2, gf_difference_report_compact_fc3,
    gf_difference_report_compact_fc4, gf_difference_report_fc2, gf_difference_report_fc3,
    gf_difference_report_fc4,
};
use capi_deviations::gf_set_difference;
use replays::records::word_of;
use replays::steps::count_of;
use tables::shift_tables::ShiftTables;

// A compact set.
fn compact(r: &[u8], fc: &[f64], t: ShiftTables, place: &mut [usize], value: &mut [f64]) -> u8 {
    match word_of(r, 4) {
        22 => gf_difference_report_compact_fc2(
            fc,
            t.p2s,
            t.s2pp,
            t.nsym_list,
            t.perms,
            value,
            place,
            t.n_satom,
            t.n_patom,
            t.num_trans,
        ),
        23 => gf_difference_report_compact_fc3(
            fc,
            t.p2s,
            t.s2pp,
            t.nsym_list,
            t.perms,
            value,
            place,
            t.n_satom,
            t.n_patom,
            t.num_trans,
        ),
        24 => gf_difference_report_compact_fc4(
            fc,
            t.p2s,
            t.s2pp,
            t.nsym_list,
            t.perms,
            value,
            place,
            t.n_satom,
            t.n_patom,
            t.num_trans,
        ),
        63 => gf_drift_report_compact_fc3(
            fc,
            t.p2s,
            t.s2pp,
            t.nsym_list,
            t.perms,
            value,
            place,
            t.n_satom,
            t.n_patom,
            t.num_trans,
        ),
        _ => gf_drift_report_compact_fc4(
            fc,
            t.p2s,
            t.s2pp,
            t.nsym_list,
            t.perms,
            value,
            place,
            t.n_satom,
            t.n_patom,
            t.num_trans,
        ),
    }
}

// A full one.
fn full(r: &[u8], fc: &[f64], place: &mut [usize], value: &mut [f64]) -> u8 {
    let n = count_of(r, 5);
    match word_of(r, 4) {
        32 => gf_difference_report_fc2(fc, value, place, n),
        33 => gf_difference_report_fc3(fc, value, place, n),
        34 => gf_difference_report_fc4(fc, value, place, n),
        _ => gf_drift_report_fc4(fc, value, place, n),
    }
}

// The call that the record names.
pub fn call(
    r: &[u8],
    fc: &[f64],
    other: &[f64],
    t: ShiftTables,
    place: &mut [usize],
    value: &mut [f64],
) -> u8 {
    let k = word_of(r, 4);
    if k == 20 {
        return gf_set_difference(fc, other, value, place);
    }
    if k % 20 < 10 {
        return compact(r, fc, t, place, value);
    }
    full(r, fc, place, value)
}
