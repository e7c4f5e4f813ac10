// C names of the crystal reports: how far a set is from obeying the crystal's own operations. 65 still, 66 worst, 67 no number, or the number of the
// refusal. The place is the number of an operation and an address.
ghost use Rattle.std.specs.Prelude.{◌≡◌, cond, ◌||◌, [], ◌∷◌, ◌<◌, length};
ghost use Rattle.tables.specs.Limits.{limit2, limit3, limit4};
ghost use Rattle.tables.specs.Conditions.{any_above};
ghost use Rattle.tables.specs.Compact.{shift_tables};
ghost use Rattle.crystal.specs.Crystal.{crystal_report_compact, crystal_report_full};
ghost use Rattle.capi_deviations.specs.Slots.{row_length, report_call};

use crate::{put, slots_fit};
use capi_reports::auditing::{wrong_slots, wrong_slots_full};
use tables::Refusal;
use tables::limits::{LIMIT2, LIMIT3, LIMIT4};
use tables::shift_tables::ShiftTables;

// The places of an operation are as many as the set has numbers; those of a set of none are counted in rows of one.
fn row_length(len: usize) -> usize
    ensures { (result ≡ row_length «len») × (0 < result) }
{
    if len == 0 {
        return 1;
    }
    len
}

// Refusal 1 or 2 of a call whose slots have other lengths, told by the counts of the set and by that of the operations.
fn wrong(of_set: u8, num_rot: usize) -> u8
    ensures { result ≡ cond (any_above 1024 (num_rot ∷ [])) 1 of_set }
{
    if num_rot > 1024 {
        return 1;
    }
    of_set
}

// The operations on the blocks of a compact set.
#[unsafe(no_mangle)]
pub extern "C" fn gf_crystal_report_compact_fc2(
    fc: &[f64],
    p2s: &[i64],
    s2pp: &[i64],
    nsym_list: &[i64],
    perms: &[i64],
    r_carts: &[f64],
    operations: &[i64],
    value: &mut [f64],
    place: &mut [usize],
    n_satom: usize,
    n_patom: usize,
    num_trans: usize,
    num_rot: usize,
) -> u8
    ensures { (result, value.new, place.new) ≡ report_call (any_above 1024 (num_rot ∷ []) || any_above limit2 (n_satom ∷ (n_patom ∷ (num_trans ∷ [])))) (row_length (length fc.now)) (crystal_report_compact limit2 1 fc.now r_carts.now operations.now (shift_tables p2s.now s2pp.now nsym_list.now perms.now n_satom n_patom num_trans) num_rot) value.old place.old }
{
    if slots_fit(value.len(), place.len()) {
        let n = row_length(fc.len());
        let tables = ShiftTables {
            p2s,
            s2pp,
            nsym_list,
            perms,
            n_satom,
            n_patom,
            num_trans,
        };
        let r = crystal::second::crystal_report_compact_fc2(
            fc, &tables, r_carts, operations, num_rot,
        );
        return put(r, n, value, place);
    }
    wrong(wrong_slots(LIMIT2, n_satom, n_patom, num_trans), num_rot)
}

// The same of a full set.
#[unsafe(no_mangle)]
pub extern "C" fn gf_crystal_report_fc2(
    fc: &[f64],
    r_carts: &[f64],
    operations: &[i64],
    value: &mut [f64],
    place: &mut [usize],
    num_atom: usize,
    num_rot: usize,
) -> u8
    ensures { (result, value.new, place.new) ≡ report_call (any_above 1024 (num_rot ∷ []) || any_above limit2 (num_atom ∷ [])) (row_length (length fc.now)) (crystal_report_full limit2 1 fc.now r_carts.now operations.now num_atom num_rot) value.old place.old }
{
    if slots_fit(value.len(), place.len()) {
        let n = row_length(fc.len());
        let r = crystal::second::crystal_report_fc2(fc, r_carts, operations, num_atom, num_rot);
        return put(r, n, value, place);
    }
    wrong(wrong_slots_full(LIMIT2, num_atom), num_rot)
}

// The operations on the blocks of a compact set.
#[unsafe(no_mangle)]
pub extern "C" fn gf_crystal_report_compact_fc3(
    fc: &[f64],
    p2s: &[i64],
    s2pp: &[i64],
    nsym_list: &[i64],
    perms: &[i64],
    r_carts: &[f64],
    operations: &[i64],
    value: &mut [f64],
    place: &mut [usize],
    n_satom: usize,
    n_patom: usize,
    num_trans: usize,
    num_rot: usize,
) -> u8
    ensures { (result, value.new, place.new) ≡ report_call (any_above 1024 (num_rot ∷ []) || any_above limit3 (n_satom ∷ (n_patom ∷ (num_trans ∷ [])))) (row_length (length fc.now)) (crystal_report_compact limit3 2 fc.now r_carts.now operations.now (shift_tables p2s.now s2pp.now nsym_list.now perms.now n_satom n_patom num_trans) num_rot) value.old place.old }
{
    if slots_fit(value.len(), place.len()) {
        let n = row_length(fc.len());
        let tables = ShiftTables {
            p2s,
            s2pp,
            nsym_list,
            perms,
            n_satom,
            n_patom,
            num_trans,
        };
        let r = crystal::third::crystal_report_compact_fc3(
            fc, &tables, r_carts, operations, num_rot,
        );
        return put(r, n, value, place);
    }
    wrong(wrong_slots(LIMIT3, n_satom, n_patom, num_trans), num_rot)
}

// The same of a full set.
#[unsafe(no_mangle)]
pub extern "C" fn gf_crystal_report_fc3(
    fc: &[f64],
    r_carts: &[f64],
    operations: &[i64],
    value: &mut [f64],
    place: &mut [usize],
    num_atom: usize,
    num_rot: usize,
) -> u8
    ensures { (result, value.new, place.new) ≡ report_call (any_above 1024 (num_rot ∷ []) || any_above limit3 (num_atom ∷ [])) (row_length (length fc.now)) (crystal_report_full limit3 2 fc.now r_carts.now operations.now num_atom num_rot) value.old place.old }
{
    if slots_fit(value.len(), place.len()) {
        let n = row_length(fc.len());
        let r = crystal::third::crystal_report_fc3(fc, r_carts, operations, num_atom, num_rot);
        return put(r, n, value, place);
    }
    wrong(wrong_slots_full(LIMIT3, num_atom), num_rot)
}

// The operations on the blocks of a compact set.
#[unsafe(no_mangle)]
pub extern "C" fn gf_crystal_report_compact_fc4(
    fc: &[f64],
    p2s: &[i64],
    s2pp: &[i64],
    nsym_list: &[i64],
    perms: &[i64],
    r_carts: &[f64],
    operations: &[i64],
    value: &mut [f64],
    place: &mut [usize],
    n_satom: usize,
    n_patom: usize,
    num_trans: usize,
    num_rot: usize,
) -> u8
    ensures { (result, value.new, place.new) ≡ report_call (any_above 1024 (num_rot ∷ []) || any_above limit4 (n_satom ∷ (n_patom ∷ (num_trans ∷ [])))) (row_length (length fc.now)) (crystal_report_compact limit4 3 fc.now r_carts.now operations.now (shift_tables p2s.now s2pp.now nsym_list.now perms.now n_satom n_patom num_trans) num_rot) value.old place.old }
{
    if slots_fit(value.len(), place.len()) {
        let n = row_length(fc.len());
        let tables = ShiftTables {
            p2s,
            s2pp,
            nsym_list,
            perms,
            n_satom,
            n_patom,
            num_trans,
        };
        let r = crystal::fourth::crystal_report_compact_fc4(
            fc, &tables, r_carts, operations, num_rot,
        );
        return put(r, n, value, place);
    }
    wrong(wrong_slots(LIMIT4, n_satom, n_patom, num_trans), num_rot)
}

// The same of a full set.
#[unsafe(no_mangle)]
pub extern "C" fn gf_crystal_report_fc4(
    fc: &[f64],
    r_carts: &[f64],
    operations: &[i64],
    value: &mut [f64],
    place: &mut [usize],
    num_atom: usize,
    num_rot: usize,
) -> u8
    ensures { (result, value.new, place.new) ≡ report_call (any_above 1024 (num_rot ∷ []) || any_above limit4 (num_atom ∷ [])) (row_length (length fc.now)) (crystal_report_full limit4 3 fc.now r_carts.now operations.now num_atom num_rot) value.old place.old }
{
    if slots_fit(value.len(), place.len()) {
        let n = row_length(fc.len());
        let r = crystal::fourth::crystal_report_fc4(fc, r_carts, operations, num_atom, num_rot);
        return put(r, n, value, place);
    }
    wrong(wrong_slots_full(LIMIT4, num_atom), num_rot)
}
