// What C calls of capi_fc2: each export calls the function of that name there and states its clauses. A library for other crates exports nothing itself.
#![tactic(auto)]

ghost use Rattle.std.specs.Prelude.{◌≡◌};
ghost use Rattle.tables.specs.Compact.{shift_tables};
ghost use Rattle.fc2.specs.Full.{perm_trans_symmetrize_fc};
ghost use Rattle.fc2_compact.specs.Compact.{set_index_permutation_symmetry_compact_fc, perm_trans_symmetrize_compact_fc};
ghost use Rattle.orbits.specs.TrueTransposes.{true_transpose_compact_fc2};
ghost use Rattle.tables.specs.Numbered.{numbered, numbered_with};
ghost use Rattle.capi_fc2.specs.Drift.{drift_call};
ghost use Rattle.distribute.specs.Fc2.{distribution, distribute_fc2};

mod sums;

// Symmetrizes a full set.
#[unsafe(no_mangle)]
pub extern "C" fn gf_perm_trans_symmetrize_fc(fc: &mut [f64], n_satom: usize, level: usize) -> u8
    ensures { (result, fc.new) ≡ numbered (perm_trans_symmetrize_fc fc.old n_satom level) }
{
    capi_fc2::gf_perm_trans_symmetrize_fc(fc, n_satom, level)
}

// Symmetrizes a compact set.
#[unsafe(no_mangle)]
pub extern "C" fn gf_perm_trans_symmetrize_compact_fc(
    fc: &mut [f64],
    p2s: &[i64],
    s2pp: &[i64],
    nsym_list: &[i64],
    perms: &[i64],
    done: &mut [u8],
    n_satom: usize,
    n_patom: usize,
    num_trans: usize,
    level: usize,
) -> u8
    ensures { let T = shift_tables p2s.now s2pp.now nsym_list.now perms.now n_satom n_patom num_trans in
        (result, fc.new, done.new) ≡ numbered_with (perm_trans_symmetrize_compact_fc fc.old T done.old level) }
{
    capi_fc2::gf_perm_trans_symmetrize_compact_fc(
        fc, p2s, s2pp, nsym_list, perms, done, n_satom, n_patom, num_trans, level,
    )
}

// Exchanges the atoms of every pair of a compact set (transpose), or averages every number with that of the exchanged pair.
#[unsafe(no_mangle)]
pub extern "C" fn gf_set_index_permutation_symmetry_compact_fc(
    fc: &mut [f64],
    p2s: &[i64],
    s2pp: &[i64],
    nsym_list: &[i64],
    perms: &[i64],
    done: &mut [u8],
    n_satom: usize,
    n_patom: usize,
    num_trans: usize,
    transpose: bool,
) -> u8
    ensures { let T = shift_tables p2s.now s2pp.now nsym_list.now perms.now n_satom n_patom num_trans in
        (result, fc.new, done.new) ≡ numbered_with (set_index_permutation_symmetry_compact_fc fc.old T done.old transpose) }
{
    capi_fc2::gf_set_index_permutation_symmetry_compact_fc(
        fc, p2s, s2pp, nsym_list, perms, done, n_satom, n_patom, num_trans, transpose,
    )
}

// The true transpose of a compact set: the atoms of every pair change places, those that a half shift exchanges too.
#[unsafe(no_mangle)]
pub extern "C" fn gf_true_transpose_compact_fc2(
    fc: &mut [f64],
    p2s: &[i64],
    s2pp: &[i64],
    nsym_list: &[i64],
    perms: &[i64],
    done: &mut [u8],
    n_satom: usize,
    n_patom: usize,
    num_trans: usize,
) -> u8
    ensures { let T = shift_tables p2s.now s2pp.now nsym_list.now perms.now n_satom n_patom num_trans in
        (result, fc.new, done.new) ≡ numbered_with (true_transpose_compact_fc2 fc.old T done.old) }
{
    capi_fc2::gf_true_transpose_compact_fc2(
        fc, p2s, s2pp, nsym_list, perms, done, n_satom, n_patom, num_trans,
    )
}

// The drift of each row sum over the second atom and of each column sum over the first: 65 still, 66 worst, 67 no number, or document 01's number of the
// refusal. value has one slot, for the drift's value; place four: 0 for rows or 1 for columns, the atom and two directions.
#[unsafe(no_mangle)]
pub extern "C" fn gf_drift_report(
    fc: &[f64],
    value: &mut [f64],
    place: &mut [usize],
    n_satom: usize,
) -> u8
    ensures { (result, value.new, place.new) ≡ drift_call fc.now n_satom value.old place.old }
{
    capi_fc2::gf_drift_report(fc, value, place, n_satom)
}

// Fills the rows of the listed atoms from those of their representatives: to each block the rotated block is added.
#[unsafe(no_mangle)]
pub extern "C" fn gf_distribute_fc2(
    fc2: &mut [f64],
    atom_list: &[i64],
    fc_indices_of_atom_list: &[i64],
    r_carts: &[f64],
    permutations: &[i64],
    map_atoms: &[i64],
    map_syms: &[i64],
    atom_list_reverse: &mut [i64],
    num_pos: usize,
    num_first: usize,
    num_rot: usize,
) -> u8
    ensures { let D = distribution atom_list.now fc_indices_of_atom_list.now r_carts.now
        permutations.now map_atoms.now map_syms.now num_pos in
        (result, fc2.new, atom_list_reverse.new)
        ≡ numbered_with (distribute_fc2 D num_first num_rot fc2.old atom_list_reverse.old) }
{
    capi_fc2::gf_distribute_fc2(
        fc2,
        atom_list,
        fc_indices_of_atom_list,
        r_carts,
        permutations,
        map_atoms,
        map_syms,
        atom_list_reverse,
        num_pos,
        num_first,
        num_rot,
    )
}
