// C names of second order. A slice is passed as a pointer and its length; include/gullyfork.h says the rest.
#![tactic(auto)]

pub mod sums;

ghost use Rattle.std.specs.Prelude.{◌≡◌, length};
ghost use Rattle.tables.specs.Compact.{shift_tables};
ghost use Rattle.fc2.specs.Full.{perm_trans_symmetrize_fc};
ghost use Rattle.fc2_compact.specs.Compact.{set_index_permutation_symmetry_compact_fc, perm_trans_symmetrize_compact_fc};
ghost use Rattle.orbits.specs.TrueTransposes.{true_transpose_compact_fc2};
ghost use Rattle.tables.specs.Numbered.{numbered, numbered_with};
ghost use Rattle.capi_fc2.specs.Drift.{drift_slots_fit, drift_slots, drift_call};
ghost use Rattle.distribute.specs.Fc2.{distribution, distribute_fc2};

use drift::DriftReport;
use tables::Refusal;
use tables::limits::LIMIT2;
use tables::shift_tables::ShiftTables;

// Symmetrizes a full set.
#[unsafe(no_mangle)]
pub extern "C" fn gf_perm_trans_symmetrize_fc(fc: &mut [f64], n_satom: usize, level: usize) -> u8
    ensures { (result, fc.new) ≡ numbered (perm_trans_symmetrize_fc fc.old n_satom level) }
{
    let a = fc2::full::perm_trans_symmetrize_fc(fc, n_satom, level);
    tables::number(a)
}

// Symmetrizes a compact set.
#[unsafe(no_mangle)]
pub extern "C" fn gf_perm_trans_symmetrize_compact_fc(
    fc: &mut [f64],
    p2s: &[i64],
    s2pp: &[i64],
    nsym_list: &[i64],
    perms: &[i64],
    done: &mut [u8],
    n_satom: usize,
    n_patom: usize,
    num_trans: usize,
    level: usize,
) -> u8
    ensures { let T = shift_tables p2s.now s2pp.now nsym_list.now perms.now n_satom n_patom num_trans in
        (result, fc.new, done.new) ≡ numbered_with (perm_trans_symmetrize_compact_fc fc.old T done.old level) }
{
    let tables = ShiftTables {
        p2s,
        s2pp,
        nsym_list,
        perms,
        n_satom,
        n_patom,
        num_trans,
    };
    let a = fc2_compact::compact::perm_trans_symmetrize_compact_fc(fc, &tables, done, level);
    tables::number(a)
}

// Exchanges the atoms of every pair of a compact set (transpose), or averages every number with that of the exchanged pair.
#[unsafe(no_mangle)]
pub extern "C" fn gf_set_index_permutation_symmetry_compact_fc(
    fc: &mut [f64],
    p2s: &[i64],
    s2pp: &[i64],
    nsym_list: &[i64],
    perms: &[i64],
    done: &mut [u8],
    n_satom: usize,
    n_patom: usize,
    num_trans: usize,
    transpose: bool,
) -> u8
    ensures { let T = shift_tables p2s.now s2pp.now nsym_list.now perms.now n_satom n_patom num_trans in
        (result, fc.new, done.new) ≡ numbered_with (set_index_permutation_symmetry_compact_fc fc.old T done.old transpose) }
{
    let tables = ShiftTables {
        p2s,
        s2pp,
        nsym_list,
        perms,
        n_satom,
        n_patom,
        num_trans,
    };
    let a = fc2_compact::compact::set_index_permutation_symmetry_compact_fc(
        fc, &tables, done, transpose,
    );
    tables::number(a)
}

// The true transpose of a compact set: the atoms of every pair change places, those that a half shift exchanges too.
#[unsafe(no_mangle)]
pub extern "C" fn gf_true_transpose_compact_fc2(
    fc: &mut [f64],
    p2s: &[i64],
    s2pp: &[i64],
    nsym_list: &[i64],
    perms: &[i64],
    done: &mut [u8],
    n_satom: usize,
    n_patom: usize,
    num_trans: usize,
) -> u8
    ensures { let T = shift_tables p2s.now s2pp.now nsym_list.now perms.now n_satom n_patom num_trans in
        (result, fc.new, done.new) ≡ numbered_with (true_transpose_compact_fc2 fc.old T done.old) }
{
    let tables = ShiftTables {
        p2s,
        s2pp,
        nsym_list,
        perms,
        n_satom,
        n_patom,
        num_trans,
    };
    let a = fc2_compact::compact::true_transpose_compact_fc2(fc, &tables, done);
    tables::number(a)
}

// Whether the slots have the stated lengths, one for the value and four for the place.
pub fn slots_fit(len_value: usize, len_place: usize) -> bool
    ensures { result ≡ drift_slots_fit len_value len_place }
{
    len_value == 1 && len_place == 4
}

// Puts a drift's answer into the slots: its value, and its place, rows or columns, the atom and two directions. A refusal leaves them.
pub fn report(a: Result<DriftReport, Refusal>, value: &mut [f64], place: &mut [usize]) -> u8
    requires { (length value.old ≡ 1) × (length place.old ≡ 4) }
    ensures { (result, value.new, place.new) ≡ drift_slots a value.old place.old }
{
    match a {
        Ok(q) => {
            let d = q.drift;
            let along = q.along;
            value[0] = reports::value(d);
            place[0] = drift::along_number(along);
            place[1] = q.atom;
            place[2] = q.k;
            place[3] = q.l;
            65 + reports::number(d)
        }
        Err(r) => u8::from(r),
    }
}

// The drift of each row sum over the second atom and of each column sum over the first: 65 still, 66 worst, 67 no number, or document 01's number of the
// refusal. value has one slot, for the drift's value; place four: 0 for rows or 1 for columns, the atom and two directions.
#[unsafe(no_mangle)]
pub extern "C" fn gf_drift_report(
    fc: &[f64],
    value: &mut [f64],
    place: &mut [usize],
    n_satom: usize,
) -> u8
    ensures { (result, value.new, place.new) ≡ drift_call fc.now n_satom value.old place.old }
{
    if slots_fit(value.len(), place.len()) {
        let a = drift::full::drift_report(fc, n_satom);
        return report(a, value, place);
    }
    if n_satom > LIMIT2 {
        return 1;
    }
    2
}

// Fills the rows of the listed atoms from those of their representatives: to each block the rotated block is added.
#[unsafe(no_mangle)]
pub extern "C" fn gf_distribute_fc2(
    fc2: &mut [f64],
    atom_list: &[i64],
    fc_indices_of_atom_list: &[i64],
    r_carts: &[f64],
    permutations: &[i64],
    map_atoms: &[i64],
    map_syms: &[i64],
    atom_list_reverse: &mut [i64],
    num_pos: usize,
    num_first: usize,
    num_rot: usize,
) -> u8
    ensures { let D = distribution atom_list.now fc_indices_of_atom_list.now r_carts.now
        permutations.now map_atoms.now map_syms.now num_pos in
        (result, fc2.new, atom_list_reverse.new)
        ≡ numbered_with (distribute_fc2 D num_first num_rot fc2.old atom_list_reverse.old) }
{
    let a = distribute::fc2::distribute_fc2(
        fc2,
        atom_list,
        fc_indices_of_atom_list,
        r_carts,
        permutations,
        map_atoms,
        map_syms,
        atom_list_reverse,
        num_pos,
        num_first,
        num_rot,
    );
    tables::number(a)
}
