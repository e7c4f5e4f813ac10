// C names of fourth order. A slice is passed as a pointer and its length; include/gullyfork.h says the rest.
#![tactic(auto)]

ghost use Rattle.std.specs.Prelude.{◌≡◌};
ghost use Rattle.tables.specs.Compact.{shift_tables};
ghost use Rattle.fc4.specs.Symmetrize.{set_permutation_symmetry_fc4, set_permutation_symmetry_compact_fc4};
ghost use Rattle.transposes_fc4.specs.Fc4.{transpose_compact_fc4};
ghost use Rattle.orbits.specs.TrueTransposes.{true_transpose_compact_fc4};
ghost use Rattle.transposes_fc4.specs.Swaps.{swap_pairs_compact_fc4};
ghost use Rattle.tables.specs.Numbered.{numbered_with, numbered};
ghost use Rattle.distribute.specs.Fc4.{distribute_fc4};
ghost use Rattle.deltas.specs.RotateDelta.{deltas_of, rotate_delta_fc3s};

use tables::shift_tables::ShiftTables;

// Symmetrizes a full set of fourth order.
#[unsafe(no_mangle)]
pub extern "C" fn gf_set_permutation_symmetry_fc4(
    fc4: &mut [f64],
    done: &mut [u8],
    num_atom: usize,
) -> u8
    ensures { (result, fc4.new, done.new) ≡ numbered_with (set_permutation_symmetry_fc4 fc4.old done.old num_atom) }
{
    let a = fc4::full::set_permutation_symmetry_fc4(fc4, done, num_atom);
    tables::number(a)
}

// Symmetrizes a compact set of fourth order.
#[unsafe(no_mangle)]
pub extern "C" fn gf_set_permutation_symmetry_compact_fc4(
    fc4: &mut [f64],
    p2s: &[i64],
    s2pp: &[i64],
    nsym_list: &[i64],
    perms: &[i64],
    done: &mut [u8],
    n_satom: usize,
    n_patom: usize,
    num_trans: usize,
) -> u8
    ensures { let T = shift_tables p2s.now s2pp.now nsym_list.now perms.now n_satom n_patom num_trans in
        (result, fc4.new, done.new) ≡ numbered_with (set_permutation_symmetry_compact_fc4 fc4.old T done.old) }
{
    let tables = ShiftTables {
        p2s,
        s2pp,
        nsym_list,
        perms,
        n_satom,
        n_patom,
        num_trans,
    };
    let a = fc4::compact::set_permutation_symmetry_compact_fc4(fc4, &tables, done);
    tables::number(a)
}

// Transposes a compact set of fourth order: type 0 legs 0 and 1.
#[unsafe(no_mangle)]
pub extern "C" fn gf_transpose_compact_fc4(
    fc4: &mut [f64],
    p2s: &[i64],
    s2pp: &[i64],
    nsym_list: &[i64],
    perms: &[i64],
    done: &mut [u8],
    n_satom: usize,
    n_patom: usize,
    num_trans: usize,
    t_type: i64,
) -> u8
    ensures { let T = shift_tables p2s.now s2pp.now nsym_list.now perms.now n_satom n_patom num_trans in
        (result, fc4.new, done.new) ≡ numbered_with (transpose_compact_fc4 fc4.old T done.old t_type) }
{
    let tables = ShiftTables {
        p2s,
        s2pp,
        nsym_list,
        perms,
        n_satom,
        n_patom,
        num_trans,
    };
    let a = transposes_fc4::transpose_compact_fc4(fc4, &tables, done, t_type);
    tables::number(a)
}

// The true transpose of a compact set of fourth order, half-shift blocks too: type 0 legs 0 and 1.
#[unsafe(no_mangle)]
pub extern "C" fn gf_true_transpose_compact_fc4(
    fc4: &mut [f64],
    p2s: &[i64],
    s2pp: &[i64],
    nsym_list: &[i64],
    perms: &[i64],
    done: &mut [u8],
    n_satom: usize,
    n_patom: usize,
    num_trans: usize,
    t_type: i64,
) -> u8
    ensures { let T = shift_tables p2s.now s2pp.now nsym_list.now perms.now n_satom n_patom num_trans in
        (result, fc4.new, done.new) ≡ numbered_with (true_transpose_compact_fc4 fc4.old T done.old t_type) }
{
    let tables = ShiftTables {
        p2s,
        s2pp,
        nsym_list,
        perms,
        n_satom,
        n_patom,
        num_trans,
    };
    let a = transposes_fc4::true_transpose_compact_fc4(fc4, &tables, done, t_type);
    tables::number(a)
}

// Exchanges two legs of a compact set of fourth order, named by their numbers, half-shift blocks too.
#[unsafe(no_mangle)]
pub extern "C" fn gf_swap_pairs_compact_fc4(
    fc4: &mut [f64],
    p2s: &[i64],
    s2pp: &[i64],
    nsym_list: &[i64],
    perms: &[i64],
    done: &mut [u8],
    n_satom: usize,
    n_patom: usize,
    num_trans: usize,
    leg_a: usize,
    leg_b: usize,
) -> u8
    ensures { let T = shift_tables p2s.now s2pp.now nsym_list.now perms.now n_satom n_patom num_trans in
        (result, fc4.new, done.new) ≡ numbered_with (swap_pairs_compact_fc4 fc4.old T done.old leg_a leg_b) }
{
    let tables = ShiftTables {
        p2s,
        s2pp,
        nsym_list,
        perms,
        n_satom,
        n_patom,
        num_trans,
    };
    let a = transposes_fc4::swaps::swap_pairs_compact_fc4(fc4, &tables, done, leg_a, leg_b);
    tables::number(a)
}

// Fills slab target of a set of fourth order from slab source: block by block at the images of the atoms, rotated.
#[unsafe(no_mangle)]
pub extern "C" fn gf_distribute_fc4(
    fc4: &mut [f64],
    target: usize,
    source: usize,
    atom_mapping: &[i64],
    num_atom: usize,
    rot_cart: &[f64],
    num_first: usize,
) -> u8
    ensures { (result, fc4.new)
        ≡ numbered (distribute_fc4 fc4.old target source atom_mapping.now num_atom rot_cart.now num_first) }
{
    let a = distribute::fc4::distribute_fc4(
        fc4,
        target,
        source,
        atom_mapping,
        num_atom,
        rot_cart,
        num_first,
    );
    tables::number(a)
}

// The blocks of fourth order for a displaced atom, from the changes of a set of the order below by num_disp displacements of that atom.
#[unsafe(no_mangle)]
pub extern "C" fn gf_rotate_delta_fc3s(
    fc4: &mut [f64],
    delta_fc3s: &[f64],
    inv_u: &[f64],
    site_sym_cart: &[f64],
    rot_map_syms: &[i64],
    rot_delta: &mut [f64],
    num_atom: usize,
    num_site_sym: usize,
    num_disp: usize,
) -> u8
    ensures { let D = deltas_of delta_fc3s.now inv_u.now site_sym_cart.now
        rot_map_syms.now num_atom num_site_sym num_disp in
        (result, fc4.new, rot_delta.new) ≡ numbered_with (rotate_delta_fc3s D fc4.old rot_delta.old) }
{
    let a = deltas::fc3s::rotate_delta_fc3s(
        fc4,
        delta_fc3s,
        inv_u,
        site_sym_cart,
        rot_map_syms,
        rot_delta,
        num_atom,
        num_site_sym,
        num_disp,
    );
    tables::number(a)
}
