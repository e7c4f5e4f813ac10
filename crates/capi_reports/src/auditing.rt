// C names of the audits. A slice is passed as a pointer and its length; include/gullyfork.h says the rest.
ghost use Rattle.std.specs.Prelude.{◌≡◌, false, cond, [], ◌∷◌, length};
ghost use Rattle.tables.specs.Limits.{limit2, limit3, limit4};
ghost use Rattle.tables.specs.Conditions.{any_above};
ghost use Rattle.tables.specs.Compact.{shift_tables};
ghost use Rattle.places.specs.Permutations.{perms2, perms3, perms4};
ghost use Rattle.audits.specs.Audit.{same_set, audit_compact, audit_full};
ghost use Rattle.capi_reports.specs.Told.{audit_slots as auditSlotsOf, slots_fit, audit_call};

use audits::Difference;
use tables::Refusal;
use tables::limits::{LIMIT2, LIMIT3, LIMIT4};
use tables::shift_tables::ShiftTables;

// Whether the slots have the stated lengths, two each.
fn slots_fit(len_place: usize, len_numbers: usize) -> bool
    ensures { result ≡ slots_fit len_place len_numbers }
{
    len_place == 2 && len_numbers == 2
}

// Refusal 1 or 2 of a call whose slots have other lengths.
pub fn wrong_slots(limit: usize, n_satom: usize, n_patom: usize, num_trans: usize) -> u8
    ensures { result ≡ cond (any_above limit (n_satom ∷ (n_patom ∷ (num_trans ∷ [])))) 1 2 }
{
    if n_satom > limit {
        return 1;
    }
    if n_patom > limit {
        return 1;
    }
    if num_trans > limit {
        return 1;
    }
    2
}

// The same of a full set.
pub fn wrong_slots_full(limit: usize, n: usize) -> u8
    ensures { result ≡ cond (any_above limit (n ∷ [])) 1 2 }
{
    if n > limit {
        return 1;
    }
    2
}

// Puts what was found into the slots: the place and which permutation reads the other number, and both numbers. Alike and refused leave them.
fn told(a: Result<Option<Difference>, Refusal>, place: &mut [usize], numbers: &mut [f64]) -> u8
    requires { (length place.old ≡ 2) × (length numbers.old ≡ 2) }
    ensures { (result, place.new, numbers.new) ≡ auditSlotsOf a place.old numbers.old }
{
    match a {
        Ok(None) => 73,
        Ok(Some(d)) => {
            place[0] = d.place;
            place[1] = d.order;
            numbers[0] = d.here;
            numbers[1] = d.there;
            74
        }
        Err(r) => u8::from(r),
    }
}

// Whether two sets have the same bits: 73, or 74 with the first place at which they differ.
#[unsafe(no_mangle)]
pub extern "C" fn gf_same_set(a: &[f64], b: &[f64], place: &mut [usize], numbers: &mut [f64]) -> u8
    ensures { (result, place.new, numbers.new) ≡ audit_call false (same_set a.now b.now) place.old numbers.old }
{
    if slots_fit(place.len(), numbers.len()) {
        let r = audits::same_set(a, b);
        return told(r, place, numbers);
    }
    2
}

// Whether all 2 permutations of any two legs of a compact set read out the same bits: 73, or 74 with the first place at which one does not.
#[unsafe(no_mangle)]
pub extern "C" fn gf_audit_compact_fc2(
    fc: &[f64],
    p2s: &[i64],
    s2pp: &[i64],
    nsym_list: &[i64],
    perms: &[i64],
    place: &mut [usize],
    numbers: &mut [f64],
    n_satom: usize,
    n_patom: usize,
    num_trans: usize,
) -> u8
    ensures { (result, place.new, numbers.new) ≡ audit_call (any_above limit2 (n_satom ∷ (n_patom ∷ (num_trans ∷ [])))) (audit_compact limit2 1 perms2 fc.now (shift_tables p2s.now s2pp.now nsym_list.now perms.now n_satom n_patom num_trans)) place.old numbers.old }
{
    if slots_fit(place.len(), numbers.len()) {
        let tables = ShiftTables {
            p2s,
            s2pp,
            nsym_list,
            perms,
            n_satom,
            n_patom,
            num_trans,
        };
        let r = audits::second::audit_compact_fc2(fc, &tables);
        return told(r, place, numbers);
    }
    wrong_slots(LIMIT2, n_satom, n_patom, num_trans)
}

// The same of a full set.
#[unsafe(no_mangle)]
pub extern "C" fn gf_audit_fc2(
    fc: &[f64],
    place: &mut [usize],
    numbers: &mut [f64],
    num_atom: usize,
) -> u8
    ensures { (result, place.new, numbers.new) ≡ audit_call (any_above limit2 (num_atom ∷ [])) (audit_full limit2 1 perms2 fc.now num_atom) place.old numbers.old }
{
    if slots_fit(place.len(), numbers.len()) {
        let r = audits::second::audit_fc2(fc, num_atom);
        return told(r, place, numbers);
    }
    wrong_slots_full(LIMIT2, num_atom)
}

// Whether all 6 permutations of any three legs of a compact set read out the same bits: 73, or 74 with the first place at which one does not.
#[unsafe(no_mangle)]
pub extern "C" fn gf_audit_compact_fc3(
    fc: &[f64],
    p2s: &[i64],
    s2pp: &[i64],
    nsym_list: &[i64],
    perms: &[i64],
    place: &mut [usize],
    numbers: &mut [f64],
    n_satom: usize,
    n_patom: usize,
    num_trans: usize,
) -> u8
    ensures { (result, place.new, numbers.new) ≡ audit_call (any_above limit3 (n_satom ∷ (n_patom ∷ (num_trans ∷ [])))) (audit_compact limit3 2 perms3 fc.now (shift_tables p2s.now s2pp.now nsym_list.now perms.now n_satom n_patom num_trans)) place.old numbers.old }
{
    if slots_fit(place.len(), numbers.len()) {
        let tables = ShiftTables {
            p2s,
            s2pp,
            nsym_list,
            perms,
            n_satom,
            n_patom,
            num_trans,
        };
        let r = audits::third::audit_compact_fc3(fc, &tables);
        return told(r, place, numbers);
    }
    wrong_slots(LIMIT3, n_satom, n_patom, num_trans)
}

// The same of a full set.
#[unsafe(no_mangle)]
pub extern "C" fn gf_audit_fc3(
    fc: &[f64],
    place: &mut [usize],
    numbers: &mut [f64],
    num_atom: usize,
) -> u8
    ensures { (result, place.new, numbers.new) ≡ audit_call (any_above limit3 (num_atom ∷ [])) (audit_full limit3 2 perms3 fc.now num_atom) place.old numbers.old }
{
    if slots_fit(place.len(), numbers.len()) {
        let r = audits::third::audit_fc3(fc, num_atom);
        return told(r, place, numbers);
    }
    wrong_slots_full(LIMIT3, num_atom)
}

// Whether all 24 permutations of any four legs of a compact set read out the same bits: 73, or 74 with the first place at which one does not.
#[unsafe(no_mangle)]
pub extern "C" fn gf_audit_compact_fc4(
    fc: &[f64],
    p2s: &[i64],
    s2pp: &[i64],
    nsym_list: &[i64],
    perms: &[i64],
    place: &mut [usize],
    numbers: &mut [f64],
    n_satom: usize,
    n_patom: usize,
    num_trans: usize,
) -> u8
    ensures { (result, place.new, numbers.new) ≡ audit_call (any_above limit4 (n_satom ∷ (n_patom ∷ (num_trans ∷ [])))) (audit_compact limit4 3 perms4 fc.now (shift_tables p2s.now s2pp.now nsym_list.now perms.now n_satom n_patom num_trans)) place.old numbers.old }
{
    if slots_fit(place.len(), numbers.len()) {
        let tables = ShiftTables {
            p2s,
            s2pp,
            nsym_list,
            perms,
            n_satom,
            n_patom,
            num_trans,
        };
        let r = audits::fourth::audit_compact_fc4(fc, &tables);
        return told(r, place, numbers);
    }
    wrong_slots(LIMIT4, n_satom, n_patom, num_trans)
}

// The same of a full set.
#[unsafe(no_mangle)]
pub extern "C" fn gf_audit_fc4(
    fc: &[f64],
    place: &mut [usize],
    numbers: &mut [f64],
    num_atom: usize,
) -> u8
    ensures { (result, place.new, numbers.new) ≡ audit_call (any_above limit4 (num_atom ∷ [])) (audit_full limit4 3 perms4 fc.now num_atom) place.old numbers.old }
{
    if slots_fit(place.len(), numbers.len()) {
        let r = audits::fourth::audit_fc4(fc, num_atom);
        return told(r, place, numbers);
    }
    wrong_slots_full(LIMIT4, num_atom)
}
