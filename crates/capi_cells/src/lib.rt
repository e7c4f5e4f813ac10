// C names of rounding, shift tables and matching. A slice is passed as a pointer and its length; include/gullyfork.h says the rest.
#![tactic(auto)]

pub mod capi_explaining;
pub mod capi_finding;

ghost use Rattle.std.specs.Prelude.{◌≡◌, [], ◌∷◌, length};
ghost use Rattle.std.specs.Float.{binary64};
ghost use Rattle.common.specs.Root.{sqrt};
ghost use Rattle.common.specs.Whole.{nearest_whole, nint};
ghost use Rattle.tables.specs.Answers.{number_of};
ghost use Rattle.tables.specs.Limits.{limit2};
ghost use Rattle.tables.specs.Compact.{shift_tables, judged_tables};
ghost use Rattle.capi_cells.specs.Cells.{flags_of, cell_of, cell_fits, call_fits, pair_left, permutation};

use distances::Cell;
use matching::cells::{Matching, Pair};
use tables::Refusal;
use tables::limits::LIMIT2;
use tables::shift_tables::ShiftTables;

// The nearest whole number as an integer.
#[unsafe(no_mangle)]
pub extern "C" fn gf_nint(x: f64) -> i64
    ensures { result ≡ nint x }
{
    common::nint(x)
}

// x to the nearest whole number, halves away from zero.
#[unsafe(no_mangle)]
pub extern "C" fn gf_round(x: f64) -> f64
    ensures { result ≡ nearest_whole x }
{
    common::round(x)
}

// The square root of x, to the nearest, ties to even.
#[unsafe(no_mangle)]
pub extern "C" fn gf_sqrt(x: f64) -> f64
    ensures { result ≡ sqrt binary64 x }
{
    common::sqrt(x)
}

// Whether shift tables keep every rule of "Shift tables": document 01's number of the refusal, 0 if they do.
#[unsafe(no_mangle)]
pub extern "C" fn gf_check_shift_tables(
    p2s: &[i64],
    s2pp: &[i64],
    nsym_list: &[i64],
    perms: &[i64],
    n_satom: usize,
    n_patom: usize,
    num_trans: usize,
) -> u8
    ensures { let T = shift_tables p2s.now s2pp.now nsym_list.now perms.now n_satom n_patom num_trans in
        result ≡ number_of (judged_tables limit2 [] T) }
{
    let tables = ShiftTables {
        p2s,
        s2pp,
        nsym_list,
        perms,
        n_satom,
        n_patom,
        num_trans,
    };
    let a = shifts::check_shift_tables(&tables);
    tables::number(a)
}

// The nine lattice numbers.
fn nine(lattice: &[f64]) -> [f64; 9]
    requires { length lattice.now ≡ 9 }
    ensures { result ≡ lattice.now }
{
    let mut l = [0.0f64; 9];
    lists::copy_all(&mut l, lattice);
    l
}

// Along which axes the cell repeats: a byte for each, 0 where it does not.
fn flags(periodic: &[u8]) -> [bool; 3]
    requires { length periodic.now ≡ 3 }
    ensures { result ≡ flags_of periodic.now }
{
    [periodic[0] != 0, periodic[1] != 0, periodic[2] != 0]
}

// Whether the lattice has nine numbers, and the flags are three.
pub fn cell_fits(len_lattice: usize, len_periodic: usize) -> bool
    ensures { result ≡ cell_fits len_lattice len_periodic }
{
    len_lattice == 9 && len_periodic == 3
}

// The cell of a lattice, a tolerance and a flag for each axis.
pub fn cell_of(lattice: &[f64], symprec: f64, periodic: &[u8]) -> Cell
    requires { (length lattice.now ≡ 9) × (length periodic.now ≡ 3) }
    ensures { result ≡ cell_of lattice.now symprec periodic.now }
{
    let l = nine(lattice);
    let f = flags(periodic);
    Cell {
        lattice: l,
        symprec: symprec,
        periodic: f,
    }
}

// Whether the cell fits, and the pair has two slots.
fn call_fits(len_lattice: usize, len_periodic: usize, len_pair: usize) -> bool
    ensures { result ≡ call_fits len_lattice len_periodic len_pair }
{
    if cell_fits(len_lattice, len_periodic) {
        return len_pair == 2;
    }
    false
}

fn put(p: Pair, pair: &mut [usize])
    requires { length pair.old ≡ 2 }
    ensures { pair.new ≡ (p.position ∷ p.slot ∷ []) }
{
    pair[0] = p.position;
    pair[1] = p.slot;
}

// Puts the pair that a failed match names into the two slots.
#[tactic(auto, unfolding(crate::specs::Cells::pair_left))]
fn tell(a: Result<Matching, Refusal>, pair: &mut [usize])
    requires { length pair.old ≡ 2 }
    ensures { pair.new ≡ pair_left a pair.old }
{
    if let Ok(Matching::NoNumber(p)) = a {
        put(p, pair);
    }
}

// Which position each rotated position comes from: slot j of rot_atom gets the number of the position that is near rot_pos j, or -1.
// 0 if all slots are filled, 64 if not, 69 if not and a distance that the search tried is no number (then pair has the first such position and slot), or
// document 01's number of the refusal.
#[unsafe(no_mangle)]
pub extern "C" fn gf_compute_permutation(
    rot_atom: &mut [i64],
    lattice: &[f64],
    symprec: f64,
    periodic: &[u8],
    pos: &[f64],
    rot_pos: &[f64],
    pair: &mut [usize],
    num_pos: usize,
) -> u8
    ensures { (result, rot_atom.new, pair.new)
        ≡ permutation rot_atom.old lattice.now symprec periodic.now pos.now rot_pos.now
        pair.old num_pos }
{
    if call_fits(lattice.len(), periodic.len(), pair.len()) {
        let cell = cell_of(lattice, symprec, periodic);
        let a = matching::cells::compute_permutation(rot_atom, cell, pos, rot_pos, num_pos);
        tell(a, pair);
        return matching::cells::matching_number(a);
    }
    if num_pos > LIMIT2 {
        return 1;
    }
    2
}
