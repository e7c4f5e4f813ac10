// C names of third order. A slice is passed as a pointer and its length; include/gullyfork.h says the rest.
#![tactic(auto)]

ghost use Rattle.std.specs.Prelude.{◌≡◌};
ghost use Rattle.tables.specs.Compact.{shift_tables};
ghost use Rattle.fc3.specs.Symmetrize.{set_permutation_symmetry_fc3, set_permutation_symmetry_compact_fc3};
ghost use Rattle.transposes_fc3.specs.Fc3.{transpose_compact_fc3};
ghost use Rattle.orbits.specs.TrueTransposes.{true_transpose_compact_fc3};
ghost use Rattle.tables.specs.Numbered.{numbered, numbered_with};
ghost use Rattle.distribute.specs.Fc3.{distribute_fc3};
ghost use Rattle.deltas.specs.RotateDelta.{deltas_of, rotate_delta_fc2s};

use tables::shift_tables::ShiftTables;

// Symmetrizes a full set of third order.
#[unsafe(no_mangle)]
pub extern "C" fn gf_set_permutation_symmetry_fc3(fc3: &mut [f64], num_atom: usize) -> u8
    ensures { (result, fc3.new) ≡ numbered (set_permutation_symmetry_fc3 fc3.old num_atom) }
{
    let a = fc3::full::set_permutation_symmetry_fc3(fc3, num_atom);
    tables::number(a)
}

// Symmetrizes a compact set of third order.
#[unsafe(no_mangle)]
pub extern "C" fn gf_set_permutation_symmetry_compact_fc3(
    fc3: &mut [f64],
    p2s: &[i64],
    s2pp: &[i64],
    nsym_list: &[i64],
    perms: &[i64],
    done: &mut [u8],
    n_satom: usize,
    n_patom: usize,
    num_trans: usize,
) -> u8
    ensures { let T = shift_tables p2s.now s2pp.now nsym_list.now perms.now n_satom n_patom num_trans in
        (result, fc3.new, done.new) ≡ numbered_with (set_permutation_symmetry_compact_fc3 fc3.old T done.old) }
{
    let tables = ShiftTables {
        p2s,
        s2pp,
        nsym_list,
        perms,
        n_satom,
        n_patom,
        num_trans,
    };
    let a = fc3::compact::set_permutation_symmetry_compact_fc3(fc3, &tables, done);
    tables::number(a)
}

// Transposes a compact set of third order: type 0 legs 0 and 1, type 1 legs 0 and 2, type 2 legs 1 and 2.
#[unsafe(no_mangle)]
pub extern "C" fn gf_transpose_compact_fc3(
    fc3: &mut [f64],
    p2s: &[i64],
    s2pp: &[i64],
    nsym_list: &[i64],
    perms: &[i64],
    done: &mut [u8],
    n_satom: usize,
    n_patom: usize,
    num_trans: usize,
    t_type: i64,
) -> u8
    ensures { let T = shift_tables p2s.now s2pp.now nsym_list.now perms.now n_satom n_patom num_trans in
        (result, fc3.new, done.new) ≡ numbered_with (transpose_compact_fc3 fc3.old T done.old t_type) }
{
    let tables = ShiftTables {
        p2s,
        s2pp,
        nsym_list,
        perms,
        n_satom,
        n_patom,
        num_trans,
    };
    let a = transposes_fc3::transpose_compact_fc3(fc3, &tables, done, t_type);
    tables::number(a)
}

// The true transpose of a compact set of third order, half-shift blocks too: type 0 legs 0 and 1, type 1 legs 0 and 2, type 2 legs 1 and 2.
#[unsafe(no_mangle)]
pub extern "C" fn gf_true_transpose_compact_fc3(
    fc3: &mut [f64],
    p2s: &[i64],
    s2pp: &[i64],
    nsym_list: &[i64],
    perms: &[i64],
    done: &mut [u8],
    n_satom: usize,
    n_patom: usize,
    num_trans: usize,
    t_type: i64,
) -> u8
    ensures { let T = shift_tables p2s.now s2pp.now nsym_list.now perms.now n_satom n_patom num_trans in
        (result, fc3.new, done.new) ≡ numbered_with (true_transpose_compact_fc3 fc3.old T done.old t_type) }
{
    let tables = ShiftTables {
        p2s,
        s2pp,
        nsym_list,
        perms,
        n_satom,
        n_patom,
        num_trans,
    };
    let a = transposes_fc3::true_transpose_compact_fc3(fc3, &tables, done, t_type);
    tables::number(a)
}

// Fills slab target of a set of third order from slab source: block by block at the images of the atoms, rotated.
#[unsafe(no_mangle)]
pub extern "C" fn gf_distribute_fc3(
    fc3: &mut [f64],
    target: usize,
    source: usize,
    atom_mapping: &[i64],
    num_atom: usize,
    rot_cart: &[f64],
    num_first: usize,
) -> u8
    ensures { (result, fc3.new)
        ≡ numbered (distribute_fc3 fc3.old target source atom_mapping.now num_atom rot_cart.now num_first) }
{
    let a = distribute::fc3::distribute_fc3(
        fc3,
        target,
        source,
        atom_mapping,
        num_atom,
        rot_cart,
        num_first,
    );
    tables::number(a)
}

// The blocks of third order for a displaced atom, from the changes of a set of the order below by num_disp displacements of that atom.
#[unsafe(no_mangle)]
pub extern "C" fn gf_rotate_delta_fc2s(
    fc3: &mut [f64],
    delta_fc2s: &[f64],
    inv_u: &[f64],
    site_sym_cart: &[f64],
    rot_map_syms: &[i64],
    rot_delta: &mut [f64],
    num_atom: usize,
    num_site_sym: usize,
    num_disp: usize,
) -> u8
    ensures { let D = deltas_of delta_fc2s.now inv_u.now site_sym_cart.now
        rot_map_syms.now num_atom num_site_sym num_disp in
        (result, fc3.new, rot_delta.new) ≡ numbered_with (rotate_delta_fc2s D fc3.old rot_delta.old) }
{
    let a = deltas::fc2s::rotate_delta_fc2s(
        fc3,
        delta_fc2s,
        inv_u,
        site_sym_cart,
        rot_map_syms,
        rot_delta,
        num_atom,
        num_site_sym,
        num_disp,
    );
    tables::number(a)
}
