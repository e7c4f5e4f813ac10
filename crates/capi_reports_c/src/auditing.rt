// The exports of capi_reports::auditing.
ghost use Rattle.std.specs.Prelude.{◌≡◌, false, [], ◌∷◌};
ghost use Rattle.tables.specs.Limits.{limit2, limit3, limit4};
ghost use Rattle.tables.specs.Conditions.{any_above};
ghost use Rattle.tables.specs.Compact.{shift_tables};
ghost use Rattle.places.specs.Permutations.{perms2, perms3, perms4};
ghost use Rattle.audits.specs.Audit.{same_set, audit_compact, audit_full};
ghost use Rattle.capi_reports.specs.Told.{audit_call};

// Whether two sets have the same bits: 73, or 74 with the first place at which they differ.
#[unsafe(no_mangle)]
pub extern "C" fn gf_same_set(a: &[f64], b: &[f64], place: &mut [usize], numbers: &mut [f64]) -> u8
    ensures { (result, place.new, numbers.new) ≡ audit_call false (same_set a.now b.now) place.old numbers.old }
{
    capi_reports::auditing::gf_same_set(a, b, place, numbers)
}

// Whether all 2 permutations of any two legs of a compact set read out the same bits: 73, or 74 with the first place at which one does not.
#[unsafe(no_mangle)]
pub extern "C" fn gf_audit_compact_fc2(
    fc: &[f64],
    p2s: &[i64],
    s2pp: &[i64],
    nsym_list: &[i64],
    perms: &[i64],
    place: &mut [usize],
    numbers: &mut [f64],
    n_satom: usize,
    n_patom: usize,
    num_trans: usize,
) -> u8
    ensures { (result, place.new, numbers.new) ≡ audit_call (any_above limit2 (n_satom ∷ (n_patom ∷ (num_trans ∷ [])))) (audit_compact limit2 1 perms2 fc.now (shift_tables p2s.now s2pp.now nsym_list.now perms.now n_satom n_patom num_trans)) place.old numbers.old }
{
    capi_reports::auditing::gf_audit_compact_fc2(
        fc, p2s, s2pp, nsym_list, perms, place, numbers, n_satom, n_patom, num_trans,
    )
}

// The same of a full set.
#[unsafe(no_mangle)]
pub extern "C" fn gf_audit_fc2(
    fc: &[f64],
    place: &mut [usize],
    numbers: &mut [f64],
    num_atom: usize,
) -> u8
    ensures { (result, place.new, numbers.new) ≡ audit_call (any_above limit2 (num_atom ∷ [])) (audit_full limit2 1 perms2 fc.now num_atom) place.old numbers.old }
{
    capi_reports::auditing::gf_audit_fc2(fc, place, numbers, num_atom)
}

// Whether all 6 permutations of any three legs of a compact set read out the same bits: 73, or 74 with the first place at which one does not.
#[unsafe(no_mangle)]
pub extern "C" fn gf_audit_compact_fc3(
    fc: &[f64],
    p2s: &[i64],
    s2pp: &[i64],
    nsym_list: &[i64],
    perms: &[i64],
    place: &mut [usize],
    numbers: &mut [f64],
    n_satom: usize,
    n_patom: usize,
    num_trans: usize,
) -> u8
    ensures { (result, place.new, numbers.new) ≡ audit_call (any_above limit3 (n_satom ∷ (n_patom ∷ (num_trans ∷ [])))) (audit_compact limit3 2 perms3 fc.now (shift_tables p2s.now s2pp.now nsym_list.now perms.now n_satom n_patom num_trans)) place.old numbers.old }
{
    capi_reports::auditing::gf_audit_compact_fc3(
        fc, p2s, s2pp, nsym_list, perms, place, numbers, n_satom, n_patom, num_trans,
    )
}

// The same of a full set.
#[unsafe(no_mangle)]
pub extern "C" fn gf_audit_fc3(
    fc: &[f64],
    place: &mut [usize],
    numbers: &mut [f64],
    num_atom: usize,
) -> u8
    ensures { (result, place.new, numbers.new) ≡ audit_call (any_above limit3 (num_atom ∷ [])) (audit_full limit3 2 perms3 fc.now num_atom) place.old numbers.old }
{
    capi_reports::auditing::gf_audit_fc3(fc, place, numbers, num_atom)
}

// Whether all 24 permutations of any four legs of a compact set read out the same bits: 73, or 74 with the first place at which one does not.
#[unsafe(no_mangle)]
pub extern "C" fn gf_audit_compact_fc4(
    fc: &[f64],
    p2s: &[i64],
    s2pp: &[i64],
    nsym_list: &[i64],
    perms: &[i64],
    place: &mut [usize],
    numbers: &mut [f64],
    n_satom: usize,
    n_patom: usize,
    num_trans: usize,
) -> u8
    ensures { (result, place.new, numbers.new) ≡ audit_call (any_above limit4 (n_satom ∷ (n_patom ∷ (num_trans ∷ [])))) (audit_compact limit4 3 perms4 fc.now (shift_tables p2s.now s2pp.now nsym_list.now perms.now n_satom n_patom num_trans)) place.old numbers.old }
{
    capi_reports::auditing::gf_audit_compact_fc4(
        fc, p2s, s2pp, nsym_list, perms, place, numbers, n_satom, n_patom, num_trans,
    )
}

// The same of a full set.
#[unsafe(no_mangle)]
pub extern "C" fn gf_audit_fc4(
    fc: &[f64],
    place: &mut [usize],
    numbers: &mut [f64],
    num_atom: usize,
) -> u8
    ensures { (result, place.new, numbers.new) ≡ audit_call (any_above limit4 (num_atom ∷ [])) (audit_full limit4 3 perms4 fc.now num_atom) place.old numbers.old }
{
    capi_reports::auditing::gf_audit_fc4(fc, place, numbers, num_atom)
}
