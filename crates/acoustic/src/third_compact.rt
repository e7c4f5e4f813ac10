// Compact sets of third order: perm_trans_symmetrize_compact_fc3.
ghost use Rattle.std.specs.Prelude.{◌≡◌, length};
ghost use Rattle.lists.specs.Tab.{times};
ghost use Rattle.tables.specs.Limits.{limit3};
ghost use Rattle.tables.specs.Compact.{shifts_of, given};
ghost use Rattle.places.specs.Places.{perms3};
ghost use Rattle.orbits.specs.Symmetric.{mean6};
ghost use Rattle.acoustic.specs.Acoustic.{leveled, perm_trans_symmetrized, judged_work, judged_levels, perm_trans_symmetrize_compact};
ghost use Rattle.acoustic.specs.Calls.{Work};

use crate::third::legs_off;
use fc3::compact::symmetrize;
use shifts::judge_compact;
use tables::Refusal;
use tables::limits::{LIMIT_LEVEL, LIMIT3};
use tables::sets::set_blocks;
use tables::shift_tables::ShiftTables;

// One level.
fn level_pass(fc3: &mut [f64], tables: &ShiftTables, done: &mut [u8], drift: &mut [f64])
    requires { Work limit3 2 (length fc3.old) (length done.old) (length drift.old) (given tables.now) }
    ensures { fc3.new ≡ leveled mean6 (shifts_of (given tables.now)) 2 perms3 fc3.old }
{
    legs_off(fc3, drift, tables);
    symmetrize(fc3, tables, done);
}

fn levels(fc3: &mut [f64], tables: &ShiftTables, done: &mut [u8], drift: &mut [f64], level: usize)
    requires { Work limit3 2 (length fc3.old) (length done.old) (length drift.old) (given tables.now) }
    ensures { fc3.new ≡ times level (λ _. leveled mean6 (shifts_of (given tables.now)) 2 perms3) fc3.old }
{
    for t in 0..level {
        level_pass(fc3, tables, done, drift);
    }
}

// All levels; none is the symmetrizer alone.
fn all_levels(
    fc3: &mut [f64],
    tables: &ShiftTables,
    done: &mut [u8],
    drift: &mut [f64],
    level: usize,
)
    requires { Work limit3 2 (length fc3.old) (length done.old) (length drift.old) (given tables.now) }
    ensures { fc3.new ≡ perm_trans_symmetrized mean6 (shifts_of (given tables.now)) 2 perms3 level fc3.old }
{
    if level == 0 {
        symmetrize(fc3, tables, done);
        return;
    }
    levels(fc3, tables, done, drift, level);
}

// Refusals 1, 2, 3 and 6, of both work slices too.
fn judge_lengths(
    set_len: usize,
    done_len: usize,
    drift_len: usize,
    tables: &ShiftTables,
) -> Result<(), Refusal>
    ensures { result ≡ judged_work limit3 2 set_len done_len drift_len (given tables.now) }
{
    let a = judge_compact(LIMIT3, 2, set_len, 2, done_len, tables);
    if tables::is_above_limit(a) {
        return a;
    }
    if drift_len == set_blocks(tables.n_patom, tables.n_satom, 1) * 27 {
        return a;
    }
    Err(Refusal::WrongLength)
}

// The same with the limit of the level.
fn judge(
    set_len: usize,
    done_len: usize,
    drift_len: usize,
    tables: &ShiftTables,
    level: usize,
) -> Result<(), Refusal>
    ensures { result ≡ judged_levels limit3 2 set_len done_len drift_len (given tables.now) level }
{
    if level > LIMIT_LEVEL {
        return Err(Refusal::CountAboveLimit);
    }
    judge_lengths(set_len, done_len, drift_len, tables)
}

// A compact set of third order whose read-out is without drift and alike: per level the mean over each leg's atom of the read-out is taken off, leg 0
// first, then the set is symmetrized; level 0 is set_permutation_symmetry_compact_fc3. The work slices come in with anything and are left with zeros.
pub fn perm_trans_symmetrize_compact_fc3(
    fc3: &mut [f64],
    tables: &ShiftTables,
    done: &mut [u8],
    drift: &mut [f64],
    level: usize,
) -> Result<(), Refusal>
    ensures { (result, fc3.new, done.new, drift.new)
        ≡ perm_trans_symmetrize_compact limit3 2 mean6 perms3 fc3.old (given tables.now) done.old drift.old level }
{
    judge(fc3.len(), done.len(), drift.len(), tables, level)?;
    all_levels(fc3, tables, done, drift, level);
    lists::clear(done, 0);
    lists::clear_floats(drift);
    Ok(())
}
