// C names of reading compact sets out. A slice is passed as a pointer and its length; include/gullyfork.h says the rest.
ghost use Rattle.std.specs.Prelude.{◌≡◌};
ghost use Rattle.tables.specs.Compact.{shift_tables};
ghost use Rattle.read_out.specs.ReadOut.{compact_to_full_fc2, compact_to_full_fc3, compact_to_full_fc4};
ghost use Rattle.tables.specs.Numbered.{numbered};

use tables::shift_tables::ShiftTables;

// Reads a compact set of second order out to the full one.
#[unsafe(no_mangle)]
pub extern "C" fn gf_compact_to_full_fc2(
    full: &mut [f64],
    fc2: &[f64],
    p2s: &[i64],
    s2pp: &[i64],
    nsym_list: &[i64],
    perms: &[i64],
    n_satom: usize,
    n_patom: usize,
    num_trans: usize,
) -> u8
    ensures { (result, full.new) ≡ numbered (compact_to_full_fc2 full.old fc2.now (shift_tables p2s.now s2pp.now nsym_list.now perms.now n_satom n_patom num_trans)) }
{
    let tables = ShiftTables {
        p2s,
        s2pp,
        nsym_list,
        perms,
        n_satom,
        n_patom,
        num_trans,
    };
    let a = read_out::fc2::compact_to_full_fc2(full, fc2, &tables);
    tables::number(a)
}

// Reads a compact set of third order out to the full one.
#[unsafe(no_mangle)]
pub extern "C" fn gf_compact_to_full_fc3(
    full: &mut [f64],
    fc3: &[f64],
    p2s: &[i64],
    s2pp: &[i64],
    nsym_list: &[i64],
    perms: &[i64],
    n_satom: usize,
    n_patom: usize,
    num_trans: usize,
) -> u8
    ensures { (result, full.new) ≡ numbered (compact_to_full_fc3 full.old fc3.now (shift_tables p2s.now s2pp.now nsym_list.now perms.now n_satom n_patom num_trans)) }
{
    let tables = ShiftTables {
        p2s,
        s2pp,
        nsym_list,
        perms,
        n_satom,
        n_patom,
        num_trans,
    };
    let a = read_out::fc3::compact_to_full_fc3(full, fc3, &tables);
    tables::number(a)
}

// Reads a compact set of fourth order out to the full one.
#[unsafe(no_mangle)]
pub extern "C" fn gf_compact_to_full_fc4(
    full: &mut [f64],
    fc4: &[f64],
    p2s: &[i64],
    s2pp: &[i64],
    nsym_list: &[i64],
    perms: &[i64],
    n_satom: usize,
    n_patom: usize,
    num_trans: usize,
) -> u8
    ensures { (result, full.new) ≡ numbered (compact_to_full_fc4 full.old fc4.now (shift_tables p2s.now s2pp.now nsym_list.now perms.now n_satom n_patom num_trans)) }
{
    let tables = ShiftTables {
        p2s,
        s2pp,
        nsym_list,
        perms,
        n_satom,
        n_patom,
        num_trans,
    };
    let a = read_out::fc4::compact_to_full_fc4(full, fc4, &tables);
    tables::number(a)
}
