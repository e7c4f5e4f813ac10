// C names of the drift reports of compact sets and of third order. A slice is passed as a pointer and its length; include/gullyfork.h says the rest.
ghost use Rattle.std.specs.Prelude.{◌≡◌, length};
ghost use Rattle.tables.specs.Compact.{shift_tables};
ghost use Rattle.capi_reports.specs.Drifts.{compact_drift_call, leg_reported, leg_slots_fit, leg_drift_call};

use crate::auditing::{wrong_slots, wrong_slots_full};
use capi_fc2::{report, slots_fit};
use drift::third::LegReport;
use tables::Refusal;
use tables::limits::{LIMIT2, LIMIT3};
use tables::shift_tables::ShiftTables;

// The drift of each row sum and of each column sum of the full set that a compact set reads out to: 65 still, 66 worst, 67 no number, or the number of
// the refusal. The slots are those of gf_drift_report.
#[unsafe(no_mangle)]
pub extern "C" fn gf_drift_report_compact_fc2(
    fc: &[f64],
    p2s: &[i64],
    s2pp: &[i64],
    nsym_list: &[i64],
    perms: &[i64],
    value: &mut [f64],
    place: &mut [usize],
    n_satom: usize,
    n_patom: usize,
    num_trans: usize,
) -> u8
    ensures { (result, value.new, place.new) ≡ compact_drift_call fc.now (shift_tables p2s.now s2pp.now nsym_list.now perms.now n_satom n_patom num_trans) value.old place.old }
{
    if slots_fit(value.len(), place.len()) {
        let tables = ShiftTables {
            p2s,
            s2pp,
            nsym_list,
            perms,
            n_satom,
            n_patom,
            num_trans,
        };
        let a = drift::compact::drift_report_compact_fc2(fc, &tables);
        return report(a, value, place);
    }
    wrong_slots(LIMIT2, n_satom, n_patom, num_trans)
}

// One slot for the value, six for the place.
fn leg_slots_fit(len_value: usize, len_place: usize) -> bool
    ensures { result ≡ leg_slots_fit len_value len_place }
{
    len_value == 1 && len_place == 6
}

// Puts a drift's answer into the slots: its value, and its place, the leg that is summed over, two atoms and three directions. A refusal leaves them.
fn leg_report(a: Result<LegReport, Refusal>, value: &mut [f64], place: &mut [usize]) -> u8
    requires { (length value.old ≡ 1) × (length place.old ≡ 6) }
    ensures { (result, value.new, place.new) ≡ leg_reported a value.old place.old }
{
    match a {
        Ok(q) => {
            let d = q.drift;
            value[0] = reports::value(d);
            place[0] = q.leg;
            place[1] = q.first;
            place[2] = q.second;
            place[3] = q.k;
            place[4] = q.l;
            place[5] = q.m;
            65 + reports::number(d)
        }
        Err(r) => u8::from(r),
    }
}

// The drift of the sums over each leg of a full set of third order: 65 still, 66 worst, 67 no number, or the number of the refusal.
#[unsafe(no_mangle)]
pub extern "C" fn gf_drift_report_fc3(
    fc: &[f64],
    value: &mut [f64],
    place: &mut [usize],
    num_atom: usize,
) -> u8
    ensures { (result, value.new, place.new) ≡ leg_drift_call fc.now num_atom value.old place.old }
{
    if leg_slots_fit(value.len(), place.len()) {
        let a = drift::third::drift_report_fc3(fc, num_atom);
        return leg_report(a, value, place);
    }
    wrong_slots_full(LIMIT3, num_atom)
}
