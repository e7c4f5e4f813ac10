// The exports of capi_cells::capi_explaining.
ghost use Rattle.std.specs.Prelude.{◌≡◌};
ghost use Rattle.tables.specs.Compact.{shift_tables};
ghost use Rattle.capi_cells.specs.Explained.{explain_call};

// What gf_check_shift_tables answers of the tables, and which count, table, entry or rule a refusal is about: 0, or 2 if there are not five slots.
#[unsafe(no_mangle)]
pub extern "C" fn gf_explain_shift_tables(
    p2s: &[i64],
    s2pp: &[i64],
    nsym_list: &[i64],
    perms: &[i64],
    place: &mut [usize],
    n_satom: usize,
    n_patom: usize,
    num_trans: usize,
) -> u8
    ensures { let T = shift_tables p2s.now s2pp.now nsym_list.now perms.now n_satom n_patom num_trans in
        (result, place.new) ≡ explain_call T place.old }
{
    capi_cells::capi_explaining::gf_explain_shift_tables(
        p2s, s2pp, nsym_list, perms, place, n_satom, n_patom, num_trans,
    )
}
