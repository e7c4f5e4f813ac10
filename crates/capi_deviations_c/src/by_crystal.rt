// The exports of capi_deviations::by_crystal.
ghost use Rattle.std.specs.Prelude.{◌≡◌, ◌||◌, [], ◌∷◌, length};
ghost use Rattle.tables.specs.Limits.{limit2, limit3, limit4};
ghost use Rattle.tables.specs.Conditions.{any_above};
ghost use Rattle.tables.specs.Compact.{shift_tables};
ghost use Rattle.crystal.specs.Crystal.{crystal_report_compact, crystal_report_full};
ghost use Rattle.capi_deviations.specs.Slots.{row_length, report_call};

// The operations on the blocks of a compact set.
#[unsafe(no_mangle)]
pub extern "C" fn gf_crystal_report_compact_fc2(
    fc: &[f64],
    p2s: &[i64],
    s2pp: &[i64],
    nsym_list: &[i64],
    perms: &[i64],
    r_carts: &[f64],
    operations: &[i64],
    value: &mut [f64],
    place: &mut [usize],
    n_satom: usize,
    n_patom: usize,
    num_trans: usize,
    num_rot: usize,
) -> u8
    ensures { (result, value.new, place.new) ≡ report_call (any_above 1024 (num_rot ∷ []) || any_above limit2 (n_satom ∷ (n_patom ∷ (num_trans ∷ [])))) (row_length (length fc.now)) (crystal_report_compact limit2 1 fc.now r_carts.now operations.now (shift_tables p2s.now s2pp.now nsym_list.now perms.now n_satom n_patom num_trans) num_rot) value.old place.old }
{
    capi_deviations::by_crystal::gf_crystal_report_compact_fc2(
        fc, p2s, s2pp, nsym_list, perms, r_carts, operations, value, place, n_satom, n_patom,
        num_trans, num_rot,
    )
}

// The same of a full set.
#[unsafe(no_mangle)]
pub extern "C" fn gf_crystal_report_fc2(
    fc: &[f64],
    r_carts: &[f64],
    operations: &[i64],
    value: &mut [f64],
    place: &mut [usize],
    num_atom: usize,
    num_rot: usize,
) -> u8
    ensures { (result, value.new, place.new) ≡ report_call (any_above 1024 (num_rot ∷ []) || any_above limit2 (num_atom ∷ [])) (row_length (length fc.now)) (crystal_report_full limit2 1 fc.now r_carts.now operations.now num_atom num_rot) value.old place.old }
{
    capi_deviations::by_crystal::gf_crystal_report_fc2(
        fc, r_carts, operations, value, place, num_atom, num_rot,
    )
}

// The operations on the blocks of a compact set.
#[unsafe(no_mangle)]
pub extern "C" fn gf_crystal_report_compact_fc3(
    fc: &[f64],
    p2s: &[i64],
    s2pp: &[i64],
    nsym_list: &[i64],
    perms: &[i64],
    r_carts: &[f64],
    operations: &[i64],
    value: &mut [f64],
    place: &mut [usize],
    n_satom: usize,
    n_patom: usize,
    num_trans: usize,
    num_rot: usize,
) -> u8
    ensures { (result, value.new, place.new) ≡ report_call (any_above 1024 (num_rot ∷ []) || any_above limit3 (n_satom ∷ (n_patom ∷ (num_trans ∷ [])))) (row_length (length fc.now)) (crystal_report_compact limit3 2 fc.now r_carts.now operations.now (shift_tables p2s.now s2pp.now nsym_list.now perms.now n_satom n_patom num_trans) num_rot) value.old place.old }
{
    capi_deviations::by_crystal::gf_crystal_report_compact_fc3(
        fc, p2s, s2pp, nsym_list, perms, r_carts, operations, value, place, n_satom, n_patom,
        num_trans, num_rot,
    )
}

// The same of a full set.
#[unsafe(no_mangle)]
pub extern "C" fn gf_crystal_report_fc3(
    fc: &[f64],
    r_carts: &[f64],
    operations: &[i64],
    value: &mut [f64],
    place: &mut [usize],
    num_atom: usize,
    num_rot: usize,
) -> u8
    ensures { (result, value.new, place.new) ≡ report_call (any_above 1024 (num_rot ∷ []) || any_above limit3 (num_atom ∷ [])) (row_length (length fc.now)) (crystal_report_full limit3 2 fc.now r_carts.now operations.now num_atom num_rot) value.old place.old }
{
    capi_deviations::by_crystal::gf_crystal_report_fc3(
        fc, r_carts, operations, value, place, num_atom, num_rot,
    )
}

// The operations on the blocks of a compact set.
#[unsafe(no_mangle)]
pub extern "C" fn gf_crystal_report_compact_fc4(
    fc: &[f64],
    p2s: &[i64],
    s2pp: &[i64],
    nsym_list: &[i64],
    perms: &[i64],
    r_carts: &[f64],
    operations: &[i64],
    value: &mut [f64],
    place: &mut [usize],
    n_satom: usize,
    n_patom: usize,
    num_trans: usize,
    num_rot: usize,
) -> u8
    ensures { (result, value.new, place.new) ≡ report_call (any_above 1024 (num_rot ∷ []) || any_above limit4 (n_satom ∷ (n_patom ∷ (num_trans ∷ [])))) (row_length (length fc.now)) (crystal_report_compact limit4 3 fc.now r_carts.now operations.now (shift_tables p2s.now s2pp.now nsym_list.now perms.now n_satom n_patom num_trans) num_rot) value.old place.old }
{
    capi_deviations::by_crystal::gf_crystal_report_compact_fc4(
        fc, p2s, s2pp, nsym_list, perms, r_carts, operations, value, place, n_satom, n_patom,
        num_trans, num_rot,
    )
}

// The same of a full set.
#[unsafe(no_mangle)]
pub extern "C" fn gf_crystal_report_fc4(
    fc: &[f64],
    r_carts: &[f64],
    operations: &[i64],
    value: &mut [f64],
    place: &mut [usize],
    num_atom: usize,
    num_rot: usize,
) -> u8
    ensures { (result, value.new, place.new) ≡ report_call (any_above 1024 (num_rot ∷ []) || any_above limit4 (num_atom ∷ [])) (row_length (length fc.now)) (crystal_report_full limit4 3 fc.now r_carts.now operations.now num_atom num_rot) value.old place.old }
{
    capi_deviations::by_crystal::gf_crystal_report_fc4(
        fc, r_carts, operations, value, place, num_atom, num_rot,
    )
}
