// C name of the reason why shift tables are refused. A slice is passed as a pointer and its length; include/gullyfork.h says the rest.
ghost use Rattle.std.specs.Prelude.{◌≡◌, length};
ghost use Rattle.tables.specs.Compact.{shift_tables};
ghost use Rattle.capi_cells.specs.Explained.{slots_of, explain_call};

use explain::Explanation;
use tables::shift_tables::ShiftTables;

// Puts an explanation into the five slots.
fn put(e: Explanation, place: &mut [usize])
    requires { length place.old ≡ 5 }
    ensures { place.new ≡ slots_of e }
{
    let a = e.answer;
    place[0] = tables::number(a) as usize;
    place[1] = e.which;
    place[2] = e.first;
    place[3] = e.second;
    place[4] = e.third;
}

// What gf_check_shift_tables answers of the tables, and which count, table, entry or rule a refusal is about: 0, or 2 if there are not five slots.
#[unsafe(no_mangle)]
pub extern "C" fn gf_explain_shift_tables(
    p2s: &[i64],
    s2pp: &[i64],
    nsym_list: &[i64],
    perms: &[i64],
    place: &mut [usize],
    n_satom: usize,
    n_patom: usize,
    num_trans: usize,
) -> u8
    ensures { let T = shift_tables p2s.now s2pp.now nsym_list.now perms.now n_satom n_patom num_trans in
        (result, place.new) ≡ explain_call T place.old }
{
    if place.len() != 5 {
        return 2;
    }
    let tables = ShiftTables {
        p2s,
        s2pp,
        nsym_list,
        perms,
        n_satom,
        n_patom,
        num_trans,
    };
    let e = explain::explain_shift_tables(&tables);
    put(e, place);
    0
}
