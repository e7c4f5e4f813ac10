// Compact sets of fourth order: perm_trans_symmetrize_compact_fc4.
ghost use Rattle.std.specs.Prelude.{◌≡◌, length};
ghost use Rattle.lists.specs.Tab.{times};
ghost use Rattle.tables.specs.Limits.{limit4};
ghost use Rattle.tables.specs.Compact.{shifts_of, given};
ghost use Rattle.places.specs.Places.{perms4};
ghost use Rattle.fc4.specs.Mean24.{mean24};
ghost use Rattle.acoustic.specs.Acoustic.{leveled, perm_trans_symmetrized, judged_work, judged_levels, perm_trans_symmetrize_compact};
ghost use Rattle.acoustic.specs.Fourth.{Symmetrizable};

use crate::fourth::legs_off;
use fc4::compact::set_permutation_symmetry_compact_fc4;
use shifts::judge_compact;
use tables::Refusal;
use tables::limits::{LIMIT_LEVEL, LIMIT4};
use tables::sets::set_blocks;
use tables::shift_tables::ShiftTables;

// One level.
fn level_pass(fc4: &mut [f64], tables: &ShiftTables, done: &mut [u8], drift: &mut [f64])
    requires { Symmetrizable limit4 3 (length fc4.old) (length done.old) (length drift.old) (given tables.now) }
    ensures { fc4.new ≡ leveled mean24 (shifts_of (given tables.now)) 3 perms4 fc4.old }
{
    legs_off(fc4, drift, tables);
    // All that it refuses was judged before.
    let _ = set_permutation_symmetry_compact_fc4(fc4, tables, done);
}

fn levels(fc4: &mut [f64], tables: &ShiftTables, done: &mut [u8], drift: &mut [f64], level: usize)
    requires { Symmetrizable limit4 3 (length fc4.old) (length done.old) (length drift.old) (given tables.now) }
    ensures { fc4.new ≡ times level (λ _. leveled mean24 (shifts_of (given tables.now)) 3 perms4) fc4.old }
{
    for t in 0..level {
        level_pass(fc4, tables, done, drift);
    }
}

// All levels; none is the symmetrizer alone.
fn all_levels(
    fc4: &mut [f64],
    tables: &ShiftTables,
    done: &mut [u8],
    drift: &mut [f64],
    level: usize,
)
    requires { Symmetrizable limit4 3 (length fc4.old) (length done.old) (length drift.old) (given tables.now) }
    ensures { fc4.new ≡ perm_trans_symmetrized mean24 (shifts_of (given tables.now)) 3 perms4 level fc4.old }
{
    if level == 0 {
        // All that it refuses was judged before.
        let _ = set_permutation_symmetry_compact_fc4(fc4, tables, done);
        return;
    }
    levels(fc4, tables, done, drift, level);
}

// Refusals 1, 2, 3 and 6, of both work slices too.
fn judge_lengths(
    set_len: usize,
    done_len: usize,
    drift_len: usize,
    tables: &ShiftTables,
) -> Result<(), Refusal>
    ensures { result ≡ judged_work limit4 3 set_len done_len drift_len (given tables.now) }
{
    let a = judge_compact(LIMIT4, 3, set_len, 3, done_len, tables);
    if tables::is_above_limit(a) {
        return a;
    }
    if drift_len == set_blocks(tables.n_patom, tables.n_satom, 2) * 81 {
        return a;
    }
    Err(Refusal::WrongLength)
}

// The same with the limit of the level.
fn judge(
    set_len: usize,
    done_len: usize,
    drift_len: usize,
    tables: &ShiftTables,
    level: usize,
) -> Result<(), Refusal>
    ensures { result ≡ judged_levels limit4 3 set_len done_len drift_len (given tables.now) level }
{
    if level > LIMIT_LEVEL {
        return Err(Refusal::CountAboveLimit);
    }
    judge_lengths(set_len, done_len, drift_len, tables)
}

// A compact set of fourth order whose read-out is without drift and alike: per level the mean over each leg's atom of the read-out is taken off, leg 0
// first, then the set is symmetrized; level 0 is set_permutation_symmetry_compact_fc4. The work slices come in with anything and are left with zeros.
pub fn perm_trans_symmetrize_compact_fc4(
    fc4: &mut [f64],
    tables: &ShiftTables,
    done: &mut [u8],
    drift: &mut [f64],
    level: usize,
) -> Result<(), Refusal>
    ensures { (result, fc4.new, done.new, drift.new)
        ≡ perm_trans_symmetrize_compact limit4 3 mean24 perms4 fc4.old (given tables.now) done.old drift.old level }
{
    judge(fc4.len(), done.len(), drift.len(), tables, level)?;
    all_levels(fc4, tables, done, drift, level);
    lists::clear(done, 0);
    lists::clear_floats(drift);
    Ok(())
}
