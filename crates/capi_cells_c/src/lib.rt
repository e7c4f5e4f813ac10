// What C calls of capi_cells: each export calls the function of that name there and states its clauses. A library for other crates exports nothing itself.
#![tactic(auto)]

ghost use Rattle.std.specs.Prelude.{◌≡◌, []};
ghost use Rattle.std.specs.Float.{binary64};
ghost use Rattle.common.specs.Root.{sqrt};
ghost use Rattle.common.specs.Whole.{nearest_whole, nint};
ghost use Rattle.tables.specs.Answers.{number_of};
ghost use Rattle.tables.specs.Limits.{limit2};
ghost use Rattle.tables.specs.Compact.{shift_tables, judged_tables};
ghost use Rattle.capi_cells.specs.Cells.{permutation};

mod capi_explaining;
mod capi_finding;

// The nearest whole number as an integer.
#[unsafe(no_mangle)]
pub extern "C" fn gf_nint(x: f64) -> i64
    ensures { result ≡ nint x }
{
    capi_cells::gf_nint(x)
}

// x to the nearest whole number, halves away from zero.
#[unsafe(no_mangle)]
pub extern "C" fn gf_round(x: f64) -> f64
    ensures { result ≡ nearest_whole x }
{
    capi_cells::gf_round(x)
}

// The square root of x, to the nearest, ties to even.
#[unsafe(no_mangle)]
pub extern "C" fn gf_sqrt(x: f64) -> f64
    ensures { result ≡ sqrt binary64 x }
{
    capi_cells::gf_sqrt(x)
}

// Whether shift tables keep every rule of "Shift tables": document 01's number of the refusal, 0 if they do.
#[unsafe(no_mangle)]
pub extern "C" fn gf_check_shift_tables(
    p2s: &[i64],
    s2pp: &[i64],
    nsym_list: &[i64],
    perms: &[i64],
    n_satom: usize,
    n_patom: usize,
    num_trans: usize,
) -> u8
    ensures { let T = shift_tables p2s.now s2pp.now nsym_list.now perms.now n_satom n_patom num_trans in
        result ≡ number_of (judged_tables limit2 [] T) }
{
    capi_cells::gf_check_shift_tables(p2s, s2pp, nsym_list, perms, n_satom, n_patom, num_trans)
}

// Which position each rotated position comes from: slot j of rot_atom gets the number of the position that is near rot_pos j, or -1.
// 0 if all slots are filled, 64 if not, 69 if not and a distance that the search tried is no number (then pair has the first such position and slot), or
// document 01's number of the refusal.
#[unsafe(no_mangle)]
pub extern "C" fn gf_compute_permutation(
    rot_atom: &mut [i64],
    lattice: &[f64],
    symprec: f64,
    periodic: &[u8],
    pos: &[f64],
    rot_pos: &[f64],
    pair: &mut [usize],
    num_pos: usize,
) -> u8
    ensures { (result, rot_atom.new, pair.new)
        ≡ permutation rot_atom.old lattice.now symprec periodic.now pos.now rot_pos.now
        pair.old num_pos }
{
    capi_cells::gf_compute_permutation(
        rot_atom, lattice, symprec, periodic, pos, rot_pos, pair, num_pos,
    )
}
