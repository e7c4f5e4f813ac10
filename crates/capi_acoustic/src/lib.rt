// C names of sets without drift and alike. A slice is passed as a pointer and its length; include/gullyfork.h says the rest.
#![tactic(auto)]

ghost use Rattle.std.specs.Prelude.{◌≡◌};
ghost use Rattle.tables.specs.Limits.{limit3, limit4};
ghost use Rattle.tables.specs.Compact.{shift_tables};
ghost use Rattle.tables.specs.Numbered.{numbered_with};
ghost use Rattle.places.specs.Places.{perms3, perms4};
ghost use Rattle.orbits.specs.Symmetric.{mean6};
ghost use Rattle.fc4.specs.Mean24.{mean24};
ghost use Rattle.acoustic.specs.Acoustic.{perm_trans_symmetrize_full, perm_trans_symmetrize_full_work, perm_trans_symmetrize_compact};
ghost use Rattle.acoustic.specs.Numbered.{numbered_both};

use tables::shift_tables::ShiftTables;

// A full set of third order without drift and alike.
#[unsafe(no_mangle)]
pub extern "C" fn gf_perm_trans_symmetrize_fc3(
    fc3: &mut [f64],
    drift: &mut [f64],
    num_atom: usize,
    level: usize,
) -> u8
    ensures { (result, fc3.new, drift.new)
        ≡ numbered_with (perm_trans_symmetrize_full limit3 2 mean6 perms3 fc3.old num_atom drift.old level) }
{
    let a = acoustic::third_full::perm_trans_symmetrize_fc3(fc3, drift, num_atom, level);
    tables::number(a)
}

// A compact set of third order whose read-out is without drift and alike.
#[unsafe(no_mangle)]
pub extern "C" fn gf_perm_trans_symmetrize_compact_fc3(
    fc3: &mut [f64],
    p2s: &[i64],
    s2pp: &[i64],
    nsym_list: &[i64],
    perms: &[i64],
    done: &mut [u8],
    drift: &mut [f64],
    n_satom: usize,
    n_patom: usize,
    num_trans: usize,
    level: usize,
) -> u8
    ensures { let T = shift_tables p2s.now s2pp.now nsym_list.now perms.now n_satom n_patom num_trans in
        (result, fc3.new, done.new, drift.new)
        ≡ numbered_both (perm_trans_symmetrize_compact limit3 2 mean6 perms3 fc3.old T done.old drift.old level) }
{
    let tables = ShiftTables {
        p2s,
        s2pp,
        nsym_list,
        perms,
        n_satom,
        n_patom,
        num_trans,
    };
    let a = acoustic::third_compact::perm_trans_symmetrize_compact_fc3(
        fc3, &tables, done, drift, level,
    );
    tables::number(a)
}

// A full set of fourth order without drift and alike.
#[unsafe(no_mangle)]
pub extern "C" fn gf_perm_trans_symmetrize_fc4(
    fc4: &mut [f64],
    done: &mut [u8],
    drift: &mut [f64],
    num_atom: usize,
    level: usize,
) -> u8
    ensures { (result, fc4.new, done.new, drift.new)
        ≡ numbered_both (perm_trans_symmetrize_full_work limit4 3 mean24 perms4 fc4.old num_atom done.old drift.old level) }
{
    let a = acoustic::fourth_full::perm_trans_symmetrize_fc4(fc4, done, drift, num_atom, level);
    tables::number(a)
}

// A compact set of fourth order whose read-out is without drift and alike.
#[unsafe(no_mangle)]
pub extern "C" fn gf_perm_trans_symmetrize_compact_fc4(
    fc4: &mut [f64],
    p2s: &[i64],
    s2pp: &[i64],
    nsym_list: &[i64],
    perms: &[i64],
    done: &mut [u8],
    drift: &mut [f64],
    n_satom: usize,
    n_patom: usize,
    num_trans: usize,
    level: usize,
) -> u8
    ensures { let T = shift_tables p2s.now s2pp.now nsym_list.now perms.now n_satom n_patom num_trans in
        (result, fc4.new, done.new, drift.new)
        ≡ numbered_both (perm_trans_symmetrize_compact limit4 3 mean24 perms4 fc4.old T done.old drift.old level) }
{
    let tables = ShiftTables {
        p2s,
        s2pp,
        nsym_list,
        perms,
        n_satom,
        n_patom,
        num_trans,
    };
    let a = acoustic::fourth_compact::perm_trans_symmetrize_compact_fc4(
        fc4, &tables, done, drift, level,
    );
    tables::number(a)
}
