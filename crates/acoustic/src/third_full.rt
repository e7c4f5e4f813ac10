// Full sets of third order: perm_trans_symmetrize_fc3.
ghost use Rattle.std.specs.Prelude.{◌≡◌, [], ◌∷◌, ◌≤◌, length};
ghost use Rattle.lists.specs.Tab.{times};
ghost use Rattle.tables.specs.Limits.{limit3};
ghost use Rattle.tables.specs.Full.{judged_full};
ghost use Rattle.tables.specs.Compact.{shifts_of};
ghost use Rattle.places.specs.Places.{perms3, full_shifts};
ghost use Rattle.orbits.specs.Symmetric.{mean6};
ghost use Rattle.audits.specs.Guard.{full_tables};
ghost use Rattle.acoustic.specs.Acoustic.{without_drifts, leveled, perm_trans_symmetrized, drift_length, judged_full_levels, perm_trans_symmetrize_full};
ghost use Rattle.acoustic.specs.Laws.{Room};

use crate::third::legs_off;
use audits::guard::FullTables;
use fc3::full::symmetrize;
use tables::Refusal;
use tables::limits::{LIMIT_LEVEL, LIMIT3};
use tables::sets::{judge_full, set_blocks};

// The drift of every leg: a full set is a compact set in which every atom is its own representative.
fn full_legs_off(fc3: &mut [f64], drift: &mut [f64], n: usize)
    requires { Room limit3 2 (length fc3.old) (length drift.old) (full_tables n) × (n ≤ 256) }
    ensures { fc3.new ≡ without_drifts (shifts_of (full_tables n)) 2 fc3.old }
{
    let whole = FullTables::new(n);
    legs_off(fc3, drift, &whole.tables());
}

// One level.
fn full_level(fc3: &mut [f64], drift: &mut [f64], n: usize)
    requires { Room limit3 2 (length fc3.old) (length drift.old) (full_tables n) × (n ≤ 256) }
    ensures { fc3.new ≡ leveled mean6 (full_shifts n) 2 perms3 fc3.old }
{
    full_legs_off(fc3, drift, n);
    symmetrize(fc3, n);
}

fn full_levels(fc3: &mut [f64], drift: &mut [f64], n: usize, level: usize)
    requires { Room limit3 2 (length fc3.old) (length drift.old) (full_tables n) × (n ≤ 256) }
    ensures { fc3.new ≡ times level (λ _. leveled mean6 (full_shifts n) 2 perms3) fc3.old }
{
    for t in 0..level {
        full_level(fc3, drift, n);
    }
}

// All levels; none is the symmetrizer alone.
fn full_symmetrize(fc3: &mut [f64], drift: &mut [f64], n: usize, level: usize)
    requires { Room limit3 2 (length fc3.old) (length drift.old) (full_tables n) × (n ≤ 256) }
    ensures { fc3.new ≡ perm_trans_symmetrized mean6 (full_shifts n) 2 perms3 level fc3.old }
{
    if level == 0 {
        symmetrize(fc3, n);
        return;
    }
    full_levels(fc3, drift, n, level);
}

// Refusals 1 and 2, of the work slice too.
fn judge_lengths(set_len: usize, drift_len: usize, n: usize) -> Result<(), Refusal>
    ensures { result ≡ judged_full limit3 2 set_len ((drift_len, drift_length n n 2) ∷ []) n }
{
    judge_full(LIMIT3, 2, set_len, n)?;
    if drift_len == set_blocks(n, n, 1) * 27 {
        return Ok(());
    }
    Err(Refusal::WrongLength)
}

// The same with the limit of the level.
fn judge(set_len: usize, drift_len: usize, n: usize, level: usize) -> Result<(), Refusal>
    ensures { result ≡ judged_full_levels limit3 2 set_len drift_len n level }
{
    if level > LIMIT_LEVEL {
        return Err(Refusal::CountAboveLimit);
    }
    judge_lengths(set_len, drift_len, n)
}

// A full set of third order without drift and alike: per level the mean over each leg's atom is taken off, leg 0 first, then the set is symmetrized;
// level 0 is set_permutation_symmetry_fc3. The work slice comes in with anything and is left with 0.0.
pub fn perm_trans_symmetrize_fc3(
    fc3: &mut [f64],
    drift: &mut [f64],
    num_atom: usize,
    level: usize,
) -> Result<(), Refusal>
    ensures { (result, fc3.new, drift.new)
        ≡ perm_trans_symmetrize_full limit3 2 mean6 perms3 fc3.old num_atom drift.old level }
{
    judge(fc3.len(), drift.len(), num_atom, level)?;
    full_symmetrize(fc3, drift, num_atom, level);
    lists::clear_floats(drift);
    Ok(())
}
