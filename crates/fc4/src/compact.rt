// The compact symmetrizer: each group of blocks is worked out at its first block in loop order; the done table tells which blocks were met.
ghost use Rattle.std.specs.Prelude.{◌≡◌, ◌<◌, length};
ghost use Rattle.lists.specs.Tab.{times};
ghost use Rattle.tables.specs.Compact.{shifts_of, given};
ghost use Rattle.positions.specs.Positions.{address_table};
ghost use Rattle.fc4.specs.Symmetrize.{set_permutation_symmetry_compact_fc4};
ghost use Rattle.fc4.specs.Loops.{Ready, visit_at};

use crate::group::{group_blocks, take};
use lists::clear;
use positions::addresses;
use shifts::judge_compact;
use tables::Refusal;
use tables::limits::LIMIT4;
use tables::shift_tables::ShiftTables;

// One visit: block b is passed over if its group was met before. Its own mark tells, since the marks of a group are set together.
fn visit(fc4: &mut [f64], tables: &ShiftTables, done: &mut [u8], t: &[u8; 1944], b: usize)
    requires ready { Ready (length fc4.old) 3 (length done.old) (given tables.now) }
    requires in_range { (t.now ≡ address_table) × (b < length done.old) }
    ensures { (fc4.new, done.new) ≡ visit_at (shifts_of (given tables.now)) b (fc4.old, done.old) }
{
    if done[b] == 0 {
        let bs = group_blocks(tables, b);
        take(fc4, done, &bs, t);
    }
}

// All blocks.
fn all_blocks(fc4: &mut [f64], tables: &ShiftTables, done: &mut [u8], t: &[u8; 1944])
    requires ready { Ready (length fc4.old) 3 (length done.old) (given tables.now) }
    requires in_range { t.now ≡ address_table }
    ensures { (fc4.new, done.new) ≡ times (length done.old) (visit_at (shifts_of (given tables.now))) (fc4.old, done.old) }
{
    for b in 0..done.len() {
        visit(fc4, tables, done, t, b);
    }
}

// The set is symmetrized: all 24 permutations of any four legs read out the same number. The done table comes in with anything and is left with zeros.
pub fn set_permutation_symmetry_compact_fc4(
    fc4: &mut [f64],
    tables: &ShiftTables,
    done: &mut [u8],
) -> Result<(), Refusal>
    ensures { (result, fc4.new, done.new) ≡ set_permutation_symmetry_compact_fc4 fc4.old (given tables.now) done.old }
{
    judge_compact(LIMIT4, 3, fc4.len(), 3, done.len(), tables)?;
    let t = addresses();
    clear(done, 0);
    all_blocks(fc4, tables, done, &t);
    clear(done, 0);
    Ok(())
}
