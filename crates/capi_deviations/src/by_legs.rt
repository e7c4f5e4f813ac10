// C names of the drift reports of third and fourth order, read out: how far the sums over each leg are from zero. 65 still, 66 worst, 67 no number, or the
// number of the refusal. The place is the number of a line of sums, which counts the legs from the last one and then the atoms of the other legs, and the
// position of the directions in a block.
ghost use Rattle.std.specs.Prelude.{◌≡◌, [], ◌∷◌};
ghost use Rattle.tables.specs.Limits.{limit3, limit4};
ghost use Rattle.tables.specs.Conditions.{any_above};
ghost use Rattle.tables.specs.Compact.{shift_tables};
ghost use Rattle.legs.specs.Legs.{leg_report_compact, leg_report_full};
ghost use Rattle.capi_deviations.specs.Slots.{report_call};

use crate::{put, slots_fit};
use capi_reports::auditing::{wrong_slots, wrong_slots_full};
use tables::limits::{LIMIT3, LIMIT4};
use tables::shift_tables::ShiftTables;

// The sums over each leg of the full set that a compact set reads out to.
#[unsafe(no_mangle)]
pub extern "C" fn gf_drift_report_compact_fc3(
    fc: &[f64],
    p2s: &[i64],
    s2pp: &[i64],
    nsym_list: &[i64],
    perms: &[i64],
    value: &mut [f64],
    place: &mut [usize],
    n_satom: usize,
    n_patom: usize,
    num_trans: usize,
) -> u8
    ensures { (result, value.new, place.new) ≡ report_call (any_above limit3 (n_satom ∷ (n_patom ∷ (num_trans ∷ [])))) 27 (leg_report_compact limit3 2 fc.now (shift_tables p2s.now s2pp.now nsym_list.now perms.now n_satom n_patom num_trans)) value.old place.old }
{
    if slots_fit(value.len(), place.len()) {
        let tables = ShiftTables {
            p2s,
            s2pp,
            nsym_list,
            perms,
            n_satom,
            n_patom,
            num_trans,
        };
        let r = legs::third::drift_report_compact_fc3(fc, &tables);
        return put(r, 27, value, place);
    }
    wrong_slots(LIMIT3, n_satom, n_patom, num_trans)
}

// The sums over each leg of the full set that a compact set reads out to.
#[unsafe(no_mangle)]
pub extern "C" fn gf_drift_report_compact_fc4(
    fc: &[f64],
    p2s: &[i64],
    s2pp: &[i64],
    nsym_list: &[i64],
    perms: &[i64],
    value: &mut [f64],
    place: &mut [usize],
    n_satom: usize,
    n_patom: usize,
    num_trans: usize,
) -> u8
    ensures { (result, value.new, place.new) ≡ report_call (any_above limit4 (n_satom ∷ (n_patom ∷ (num_trans ∷ [])))) 81 (leg_report_compact limit4 3 fc.now (shift_tables p2s.now s2pp.now nsym_list.now perms.now n_satom n_patom num_trans)) value.old place.old }
{
    if slots_fit(value.len(), place.len()) {
        let tables = ShiftTables {
            p2s,
            s2pp,
            nsym_list,
            perms,
            n_satom,
            n_patom,
            num_trans,
        };
        let r = legs::fourth::drift_report_compact_fc4(fc, &tables);
        return put(r, 81, value, place);
    }
    wrong_slots(LIMIT4, n_satom, n_patom, num_trans)
}

// The same of a full set.
#[unsafe(no_mangle)]
pub extern "C" fn gf_drift_report_fc4(
    fc: &[f64],
    value: &mut [f64],
    place: &mut [usize],
    num_atom: usize,
) -> u8
    ensures { (result, value.new, place.new) ≡ report_call (any_above limit4 (num_atom ∷ [])) 81 (leg_report_full limit4 3 fc.now num_atom) value.old place.old }
{
    if slots_fit(value.len(), place.len()) {
        let r = legs::fourth::drift_report_fc4(fc, num_atom);
        return put(r, 81, value, place);
    }
    wrong_slots_full(LIMIT4, num_atom)
}
