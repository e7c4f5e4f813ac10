// C names of the difference reports: how far the numbers differ that the permutations of the same legs read out. 65 still, 66 worst, 67 no number, or the
// number of the refusal. The place is an address and the number of the permutation that reads the other number.
ghost use Rattle.std.specs.Prelude.{◌≡◌, [], ◌∷◌};
ghost use Rattle.tables.specs.Limits.{limit2, limit3, limit4};
ghost use Rattle.tables.specs.Conditions.{any_above};
ghost use Rattle.tables.specs.Compact.{shift_tables};
ghost use Rattle.places.specs.Permutations.{perms2, perms3, perms4};
ghost use Rattle.differences.specs.Difference.{difference_report_compact, difference_report_full};
ghost use Rattle.capi_deviations.specs.Slots.{report_call};

use crate::{put, slots_fit};
use capi_reports::auditing::{wrong_slots, wrong_slots_full};
use tables::limits::{LIMIT2, LIMIT3, LIMIT4};
use tables::shift_tables::ShiftTables;

// Both permutations of any two legs of a compact set.
#[unsafe(no_mangle)]
pub extern "C" fn gf_difference_report_compact_fc2(
    fc: &[f64],
    p2s: &[i64],
    s2pp: &[i64],
    nsym_list: &[i64],
    perms: &[i64],
    value: &mut [f64],
    place: &mut [usize],
    n_satom: usize,
    n_patom: usize,
    num_trans: usize,
) -> u8
    ensures { (result, value.new, place.new) ≡ report_call (any_above limit2 (n_satom ∷ (n_patom ∷ (num_trans ∷ [])))) 2 (difference_report_compact limit2 1 perms2 fc.now (shift_tables p2s.now s2pp.now nsym_list.now perms.now n_satom n_patom num_trans)) value.old place.old }
{
    if slots_fit(value.len(), place.len()) {
        let tables = ShiftTables {
            p2s,
            s2pp,
            nsym_list,
            perms,
            n_satom,
            n_patom,
            num_trans,
        };
        let r = differences::second::difference_report_compact_fc2(fc, &tables);
        return put(r, 2, value, place);
    }
    wrong_slots(LIMIT2, n_satom, n_patom, num_trans)
}

// The same of a full set.
#[unsafe(no_mangle)]
pub extern "C" fn gf_difference_report_fc2(
    fc: &[f64],
    value: &mut [f64],
    place: &mut [usize],
    num_atom: usize,
) -> u8
    ensures { (result, value.new, place.new) ≡ report_call (any_above limit2 (num_atom ∷ [])) 2 (difference_report_full limit2 1 perms2 fc.now num_atom) value.old place.old }
{
    if slots_fit(value.len(), place.len()) {
        let r = differences::second::difference_report_fc2(fc, num_atom);
        return put(r, 2, value, place);
    }
    wrong_slots_full(LIMIT2, num_atom)
}

// All 6 permutations of any three legs of a compact set.
#[unsafe(no_mangle)]
pub extern "C" fn gf_difference_report_compact_fc3(
    fc: &[f64],
    p2s: &[i64],
    s2pp: &[i64],
    nsym_list: &[i64],
    perms: &[i64],
    value: &mut [f64],
    place: &mut [usize],
    n_satom: usize,
    n_patom: usize,
    num_trans: usize,
) -> u8
    ensures { (result, value.new, place.new) ≡ report_call (any_above limit3 (n_satom ∷ (n_patom ∷ (num_trans ∷ [])))) 6 (difference_report_compact limit3 2 perms3 fc.now (shift_tables p2s.now s2pp.now nsym_list.now perms.now n_satom n_patom num_trans)) value.old place.old }
{
    if slots_fit(value.len(), place.len()) {
        let tables = ShiftTables {
            p2s,
            s2pp,
            nsym_list,
            perms,
            n_satom,
            n_patom,
            num_trans,
        };
        let r = differences::third::difference_report_compact_fc3(fc, &tables);
        return put(r, 6, value, place);
    }
    wrong_slots(LIMIT3, n_satom, n_patom, num_trans)
}

// The same of a full set.
#[unsafe(no_mangle)]
pub extern "C" fn gf_difference_report_fc3(
    fc: &[f64],
    value: &mut [f64],
    place: &mut [usize],
    num_atom: usize,
) -> u8
    ensures { (result, value.new, place.new) ≡ report_call (any_above limit3 (num_atom ∷ [])) 6 (difference_report_full limit3 2 perms3 fc.now num_atom) value.old place.old }
{
    if slots_fit(value.len(), place.len()) {
        let r = differences::third::difference_report_fc3(fc, num_atom);
        return put(r, 6, value, place);
    }
    wrong_slots_full(LIMIT3, num_atom)
}

// All 24 permutations of any four legs of a compact set.
#[unsafe(no_mangle)]
pub extern "C" fn gf_difference_report_compact_fc4(
    fc: &[f64],
    p2s: &[i64],
    s2pp: &[i64],
    nsym_list: &[i64],
    perms: &[i64],
    value: &mut [f64],
    place: &mut [usize],
    n_satom: usize,
    n_patom: usize,
    num_trans: usize,
) -> u8
    ensures { (result, value.new, place.new) ≡ report_call (any_above limit4 (n_satom ∷ (n_patom ∷ (num_trans ∷ [])))) 24 (difference_report_compact limit4 3 perms4 fc.now (shift_tables p2s.now s2pp.now nsym_list.now perms.now n_satom n_patom num_trans)) value.old place.old }
{
    if slots_fit(value.len(), place.len()) {
        let tables = ShiftTables {
            p2s,
            s2pp,
            nsym_list,
            perms,
            n_satom,
            n_patom,
            num_trans,
        };
        let r = differences::fourth::difference_report_compact_fc4(fc, &tables);
        return put(r, 24, value, place);
    }
    wrong_slots(LIMIT4, n_satom, n_patom, num_trans)
}

// The same of a full set.
#[unsafe(no_mangle)]
pub extern "C" fn gf_difference_report_fc4(
    fc: &[f64],
    value: &mut [f64],
    place: &mut [usize],
    num_atom: usize,
) -> u8
    ensures { (result, value.new, place.new) ≡ report_call (any_above limit4 (num_atom ∷ [])) 24 (difference_report_full limit4 3 perms4 fc.now num_atom) value.old place.old }
{
    if slots_fit(value.len(), place.len()) {
        let r = differences::fourth::difference_report_fc4(fc, num_atom);
        return put(r, 24, value, place);
    }
    wrong_slots_full(LIMIT4, num_atom)
}
