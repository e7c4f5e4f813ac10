// Full sets of fourth order: perm_trans_symmetrize_fc4.
ghost use Rattle.std.specs.Prelude.{◌≡◌, ◌≤◌, length};
ghost use Rattle.lists.specs.Tab.{times};
ghost use Rattle.tables.specs.Limits.{limit4};
ghost use Rattle.tables.specs.Compact.{shifts_of};
ghost use Rattle.places.specs.Places.{perms4, full_shifts};
ghost use Rattle.fc4.specs.Mean24.{mean24};
ghost use Rattle.audits.specs.Guard.{full_tables};
ghost use Rattle.acoustic.specs.Acoustic.{without_drifts, leveled, perm_trans_symmetrized, judged_full_work, judged_full_work_levels, perm_trans_symmetrize_full_work};
ghost use Rattle.acoustic.specs.Laws.{Room};
ghost use Rattle.acoustic.specs.Fourth.{FullWork};

use crate::fourth::legs_off;
use audits::guard::FullTables;
use fc4::full::set_permutation_symmetry_fc4;
use tables::Refusal;
use tables::limits::{LIMIT_LEVEL, LIMIT4};
use tables::sets::{judge_full, set_blocks};

// The drift of every leg: a full set is a compact set in which every atom is its own representative.
fn full_legs_off(fc4: &mut [f64], drift: &mut [f64], n: usize)
    requires { Room limit4 3 (length fc4.old) (length drift.old) (full_tables n) × (n ≤ 64) }
    ensures { fc4.new ≡ without_drifts (shifts_of (full_tables n)) 3 fc4.old }
{
    let whole = FullTables::new(n);
    legs_off(fc4, drift, &whole.tables());
}

// One level.
fn full_level(fc4: &mut [f64], done: &mut [u8], drift: &mut [f64], n: usize)
    requires { FullWork limit4 3 (length fc4.old) (length done.old) (length drift.old) n }
    ensures { fc4.new ≡ leveled mean24 (full_shifts n) 3 perms4 fc4.old }
{
    full_legs_off(fc4, drift, n);
    // All that it refuses was judged before.
    let _ = set_permutation_symmetry_fc4(fc4, done, n);
}

fn full_levels(fc4: &mut [f64], done: &mut [u8], drift: &mut [f64], n: usize, level: usize)
    requires { FullWork limit4 3 (length fc4.old) (length done.old) (length drift.old) n }
    ensures { fc4.new ≡ times level (λ _. leveled mean24 (full_shifts n) 3 perms4) fc4.old }
{
    for t in 0..level {
        full_level(fc4, done, drift, n);
    }
}

// All levels; none is the symmetrizer alone.
fn full_symmetrize(fc4: &mut [f64], done: &mut [u8], drift: &mut [f64], n: usize, level: usize)
    requires { FullWork limit4 3 (length fc4.old) (length done.old) (length drift.old) n }
    ensures { fc4.new ≡ perm_trans_symmetrized mean24 (full_shifts n) 3 perms4 level fc4.old }
{
    if level == 0 {
        // All that it refuses was judged before.
        let _ = set_permutation_symmetry_fc4(fc4, done, n);
        return;
    }
    full_levels(fc4, done, drift, n, level);
}

// Refusals 1 and 2, of both work slices too.
fn judge_lengths(set_len: usize, done_len: usize, drift_len: usize, n: usize) -> Result<(), Refusal>
    ensures { result ≡ judged_full_work limit4 3 set_len done_len drift_len n }
{
    judge_full(LIMIT4, 3, set_len, n)?;
    if done_len != set_blocks(n, n, 3) {
        return Err(Refusal::WrongLength);
    }
    if drift_len == set_blocks(n, n, 2) * 81 {
        return Ok(());
    }
    Err(Refusal::WrongLength)
}

// The same with the limit of the level.
fn judge(
    set_len: usize,
    done_len: usize,
    drift_len: usize,
    n: usize,
    level: usize,
) -> Result<(), Refusal>
    ensures { result ≡ judged_full_work_levels limit4 3 set_len done_len drift_len n level }
{
    if level > LIMIT_LEVEL {
        return Err(Refusal::CountAboveLimit);
    }
    judge_lengths(set_len, done_len, drift_len, n)
}

// A full set of fourth order without drift and alike: per level the mean over each leg's atom is taken off, leg 0 first, then the set is symmetrized;
// level 0 is set_permutation_symmetry_fc4. The work slices come in with anything and are left with zeros.
pub fn perm_trans_symmetrize_fc4(
    fc4: &mut [f64],
    done: &mut [u8],
    drift: &mut [f64],
    num_atom: usize,
    level: usize,
) -> Result<(), Refusal>
    ensures { (result, fc4.new, done.new, drift.new)
        ≡ perm_trans_symmetrize_full_work limit4 3 mean24 perms4 fc4.old num_atom done.old drift.old level }
{
    judge(fc4.len(), done.len(), drift.len(), num_atom, level)?;
    full_symmetrize(fc4, done, drift, num_atom, level);
    lists::clear(done, 0);
    lists::clear_floats(drift);
    Ok(())
}
