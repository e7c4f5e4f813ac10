// The audits, the comparison of two sets, and the drift reports that have slots of their own. Each gives the answer's number.
use capi_fc2::gf_drift_report;
use capi_reports::auditing::{
    gf_audit_compact_fc2, gf_audit_compact_fc3, gf_audit_compact_fc4, gf_audit_fc2, gf_audit_fc3,
    gf_audit_fc4, gf_same_set,
};
use capi_reports::drifts::{gf_drift_report_compact_fc2, gf_drift_report_fc3};
use replays::records::word_of;
use replays::steps::count_of;
use tables::shift_tables::ShiftTables;

// A compact set: the audit of the order that the record names, or its drift.
fn compact(r: &[u8], fc: &[f64], t: ShiftTables, place: &mut [usize], numbers: &mut [f64]) -> u8 {
    match word_of(r, 4) {
        2 => gf_audit_compact_fc2(
            fc,
            t.p2s,
            t.s2pp,
            t.nsym_list,
            t.perms,
            place,
            numbers,
            t.n_satom,
            t.n_patom,
            t.num_trans,
        ),
        3 => gf_audit_compact_fc3(
            fc,
            t.p2s,
            t.s2pp,
            t.nsym_list,
            t.perms,
            place,
            numbers,
            t.n_satom,
            t.n_patom,
            t.num_trans,
        ),
        4 => gf_audit_compact_fc4(
            fc,
            t.p2s,
            t.s2pp,
            t.nsym_list,
            t.perms,
            place,
            numbers,
            t.n_satom,
            t.n_patom,
            t.num_trans,
        ),
        _ => gf_drift_report_compact_fc2(
            fc,
            t.p2s,
            t.s2pp,
            t.nsym_list,
            t.perms,
            numbers,
            place,
            t.n_satom,
            t.n_patom,
            t.num_trans,
        ),
    }
}

// The audit of a full set or its drift.
fn full(r: &[u8], fc: &[f64], place: &mut [usize], numbers: &mut [f64]) -> u8 {
    let n = count_of(r, 5);
    match word_of(r, 4) {
        12 => gf_audit_fc2(fc, place, numbers, n),
        13 => gf_audit_fc3(fc, place, numbers, n),
        14 => gf_audit_fc4(fc, place, numbers, n),
        15 => gf_drift_report_fc3(fc, numbers, place, n),
        _ => gf_drift_report(fc, numbers, place, n),
    }
}

// The call that the record names.
pub fn call(
    r: &[u8],
    fc: &[f64],
    other: &[f64],
    t: ShiftTables,
    place: &mut [usize],
    numbers: &mut [f64],
) -> u8 {
    match word_of(r, 4) {
        0 => gf_same_set(fc, other, place, numbers),
        1..=9 => compact(r, fc, t, place, numbers),
        _ => full(r, fc, place, numbers),
    }
}
