// The transposes of a compact set of fourth order: legs 0 and 1 of every number change places. Blocks that a half shift exchanges with their own pair
// stay where half_shifts_stay says so, as the Rust leaves them; the true transpose moves them too.
#![tactic(auto)]

pub mod exchanging;
pub mod legs;
pub mod swaps;

ghost use Rattle.std.specs.Prelude.{◌≡◌, cond, length};
ghost use Rattle.tables.specs.Compact.{shifts_of, given};
ghost use Rattle.transposes_fc4.specs.Fc4.{transposed_by4, transpose_compact_fc4};
ghost use Rattle.orbits.specs.HalfShift.{Trading};
ghost use Rattle.orbits.specs.TrueTransposes.{swapped, legs4, true_transpose_compact_fc4};

use crate::legs::exchange_legs;
use lists::clear;
use shifts::judge_compact;
use tables::Refusal;
use tables::limits::LIMIT4;
use tables::shift_tables::ShiftTables;

// Type 0 exchanges pairs 0 and 1 of (atom, direction); any other type changes nothing.
fn by_type(fc4: &mut [f64], tables: &ShiftTables, half_shifts_stay: bool, t_type: i64)
    requires { Trading 3 (length fc4.old) (given tables.now) }
    ensures { let T = given tables.now in fc4.new ≡ cond half_shifts_stay (transposed_by4 (shifts_of T) t_type fc4.old) (swapped (shifts_of T) 3 (legs4 t_type) fc4.old) }
{
    if t_type == 0 {
        exchange_legs(fc4, tables, half_shifts_stay, 0, 1);
    }
}

// The first two legs of each number change places. The work slice is not needed here; it is left with zeros.
pub fn transpose_compact_fc4(
    fc4: &mut [f64],
    tables: &ShiftTables,
    done: &mut [u8],
    t_type: i64,
) -> Result<(), Refusal>
    ensures { (result, fc4.new, done.new) ≡ transpose_compact_fc4 fc4.old (given tables.now) done.old t_type }
{
    judge_compact(LIMIT4, 3, fc4.len(), 1, done.len(), tables)?;
    by_type(fc4, tables, true, t_type);
    clear(done, 0);
    Ok(())
}

// The same for every block, those of half shifts too.
pub fn true_transpose_compact_fc4(
    fc4: &mut [f64],
    tables: &ShiftTables,
    done: &mut [u8],
    t_type: i64,
) -> Result<(), Refusal>
    ensures { (result, fc4.new, done.new) ≡ true_transpose_compact_fc4 fc4.old (given tables.now) done.old t_type }
{
    judge_compact(LIMIT4, 3, fc4.len(), 1, done.len(), tables)?;
    by_type(fc4, tables, false, t_type);
    clear(done, 0);
    Ok(())
}
