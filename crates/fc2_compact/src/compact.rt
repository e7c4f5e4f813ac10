// Compact sets of second order: set_index_permutation_symmetry_compact_fc and perm_trans_symmetrize_compact_fc (fc2.rs).
ghost use Rattle.std.specs.Prelude.{◌≡◌, cond, length, ltb};
ghost use Rattle.lists.specs.Tab.{times};
ghost use Rattle.tables.specs.Compact.{shifts_of, judged_compact, given};
ghost use Rattle.fc2_compact.specs.Passes.{transposed, averaged_compact};
ghost use Rattle.fc2_compact.specs.Compact.{leveled, symmetrized_compact, set_index_permutation_symmetry_compact_fc, perm_trans_symmetrize_compact_fc};
ghost use Rattle.tables.specs.Limits.{limit2, limit_level};
ghost use Rattle.tables.specs.Answers.{refuse_if};
ghost use Rattle.orbits.specs.TrueTransposes.{true_transpose_compact_fc2};
ghost use Rattle.fc2_compact.specs.Code.{Ready};

use crate::pairs::{average_pass, transpose_pass};
use crate::rows::{drift_pass, site_pass};
use shifts::judge_compact;
use tables::Refusal;
use tables::limits::{LIMIT_LEVEL, LIMIT2};
use tables::shift_tables::ShiftTables;

// One level: twice the transpose and the row drift, then the averages.
fn level_pass(fc: &mut [f64], tables: &ShiftTables)
    requires { Ready (given tables.now) (length fc.old) }
    ensures { fc.new ≡ leveled (shifts_of (given tables.now)) fc.old }
{
    transpose_pass(fc, tables, true);
    drift_pass(fc, tables);
    transpose_pass(fc, tables, true);
    drift_pass(fc, tables);
    average_pass(fc, tables);
}

fn levels(fc: &mut [f64], tables: &ShiftTables, level: usize)
    requires { Ready (given tables.now) (length fc.old) }
    ensures { fc.new ≡ times level (λ _. leveled (shifts_of (given tables.now))) fc.old }
{
    for _ in 0..level {
        level_pass(fc, tables);
    }
}

fn symmetrize(fc: &mut [f64], tables: &ShiftTables, level: usize)
    requires { Ready (given tables.now) (length fc.old) }
    ensures { fc.new ≡ symmetrized_compact (shifts_of (given tables.now)) level fc.old }
{
    levels(fc, tables, level);
    site_pass(fc, tables);
}

// The set transposed, or averaged.
fn exchange(fc: &mut [f64], tables: &ShiftTables, transpose: bool)
    requires { Ready (given tables.now) (length fc.old) }
    ensures { let T = given tables.now in fc.new ≡ cond transpose (transposed (shifts_of T) fc.old) (averaged_compact (shifts_of T) fc.old) }
{
    if transpose {
        transpose_pass(fc, tables, true);
        return;
    }
    average_pass(fc, tables);
}

// Refusals 1, 2, 3 and 6 of both calls.
fn judge(set_len: usize, work_len: usize, tables: &ShiftTables) -> Result<(), Refusal>
    ensures { result ≡ judged_compact limit2 1 set_len 1 work_len (given tables.now) }
{
    judge_compact(LIMIT2, 1, set_len, 1, work_len, tables)
}

// The same with the limit of the level.
fn judge_levels(
    set_len: usize,
    work_len: usize,
    tables: &ShiftTables,
    level: usize,
) -> Result<(), Refusal>
    ensures { result ≡ refuse_if (ltb limit_level level) Refusal.CountAboveLimit (judged_compact limit2 1 set_len 1 work_len (given tables.now)) }
{
    if level > LIMIT_LEVEL {
        return Err(Refusal::CountAboveLimit);
    }
    judge(set_len, work_len, tables)
}

// Exchanges the atoms of every pair of a compact set (transpose), or averages every number with that of the exchanged pair.
// The Rust marks pairs in done; here the pair is taken at its smaller block, and done is only cleared.
pub fn set_index_permutation_symmetry_compact_fc(
    fc: &mut [f64],
    tables: &ShiftTables,
    done: &mut [u8],
    transpose: bool,
) -> Result<(), Refusal>
    ensures { (result, fc.new, done.new) ≡ set_index_permutation_symmetry_compact_fc fc.old (given tables.now) done.old transpose }
{
    judge(fc.len(), done.len(), tables)?;
    exchange(fc, tables, transpose);
    lists::clear(done, 0);
    Ok(())
}

// Exchanges the atoms of every pair of a compact set, those that a half shift exchanges too.
pub fn true_transpose_compact_fc2(
    fc: &mut [f64],
    tables: &ShiftTables,
    done: &mut [u8],
) -> Result<(), Refusal>
    ensures { (result, fc.new, done.new) ≡ true_transpose_compact_fc2 fc.old (given tables.now) done.old }
{
    judge(fc.len(), done.len(), tables)?;
    transpose_pass(fc, tables, false);
    lists::clear(done, 0);
    Ok(())
}

// Symmetrizes a compact set: per level twice the transpose and the row drift, then the averages; at the end the on-site blocks.
pub fn perm_trans_symmetrize_compact_fc(
    fc: &mut [f64],
    tables: &ShiftTables,
    done: &mut [u8],
    level: usize,
) -> Result<(), Refusal>
    ensures { (result, fc.new, done.new) ≡ perm_trans_symmetrize_compact_fc fc.old (given tables.now) done.old level }
{
    judge_levels(fc.len(), done.len(), tables, level)?;
    symmetrize(fc, tables, level);
    lists::clear(done, 0);
    Ok(())
}
