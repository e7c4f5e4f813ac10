// The crystal reports. The operations stand after the tables, the matrices after the operations. Each gives the answer's number.
use capi_deviations::by_crystal::{
    gf_crystal_report_compact_fc2, gf_crystal_report_compact_fc3, gf_crystal_report_compact_fc4,
    gf_crystal_report_fc2, gf_crystal_report_fc3, gf_crystal_report_fc4,
};
use replays::records::word_of;
use replays::steps::count_of;
use tables::shift_tables::ShiftTables;

// A compact set.
fn compact(
    r: &[u8],
    fc: &[f64],
    t: ShiftTables,
    maps: &[i64],
    m: &[f64],
    place: &mut [usize],
    value: &mut [f64],
) -> u8 {
    let n = count_of(r, 21);
    match word_of(r, 4) {
        42 => gf_crystal_report_compact_fc2(
            fc,
            t.p2s,
            t.s2pp,
            t.nsym_list,
            t.perms,
            m,
            maps,
            value,
            place,
            t.n_satom,
            t.n_patom,
            t.num_trans,
            n,
        ),
        43 => gf_crystal_report_compact_fc3(
            fc,
            t.p2s,
            t.s2pp,
            t.nsym_list,
            t.perms,
            m,
            maps,
            value,
            place,
            t.n_satom,
            t.n_patom,
            t.num_trans,
            n,
        ),
        _ => gf_crystal_report_compact_fc4(
            fc,
            t.p2s,
            t.s2pp,
            t.nsym_list,
            t.perms,
            m,
            maps,
            value,
            place,
            t.n_satom,
            t.n_patom,
            t.num_trans,
            n,
        ),
    }
}

// A full one.
fn full(
    r: &[u8],
    fc: &[f64],
    maps: &[i64],
    m: &[f64],
    place: &mut [usize],
    value: &mut [f64],
) -> u8 {
    let s = count_of(r, 5);
    let n = count_of(r, 21);
    match word_of(r, 4) {
        52 => gf_crystal_report_fc2(fc, m, maps, value, place, s, n),
        53 => gf_crystal_report_fc3(fc, m, maps, value, place, s, n),
        _ => gf_crystal_report_fc4(fc, m, maps, value, place, s, n),
    }
}

// The call that the record names.
pub fn call(
    r: &[u8],
    fc: &[f64],
    t: ShiftTables,
    maps: &[i64],
    m: &[f64],
    place: &mut [usize],
    value: &mut [f64],
) -> u8 {
    if word_of(r, 4) < 50 {
        return compact(r, fc, t, maps, m, place, value);
    }
    full(r, fc, maps, m, place, value)
}
