// Every swap of two pairs (atom, direction) of a compact set of fourth order, the two legs named (document 02, A.2).
ghost use Rattle.std.specs.Prelude.{◌≡◌, [], ◌∷◌, ◌<◌, length};
ghost use Rattle.tables.specs.Conditions.{any_above};
ghost use Rattle.tables.specs.Compact.{shifts_of, given};
ghost use Rattle.orbits.specs.HalfShift.{Trading};
ghost use Rattle.orbits.specs.TrueTransposes.{swapped};
ghost use Rattle.transposes_fc4.specs.Swaps.{swap_pairs_compact_fc4};
ghost use Rattle.transposes_fc4.specs.Guard.{with_bad_leg, with_legs};

use crate::legs::exchange_legs;
use lists::clear;
use shifts::judge_compact;
use tables::Refusal;
use tables::limits::LIMIT4;
use tables::shift_tables::ShiftTables;

// Whether one of two legs is above 3.
fn any_leg_above(leg_a: usize, leg_b: usize) -> bool
    ensures { result ≡ any_above 3 (leg_a ∷ (leg_b ∷ [])) }
{
    if leg_a > 3 {
        return true;
    }
    if leg_b > 3 {
        return true;
    }
    false
}

// What the tables answer, with a leg above 3: it is judged with the index tables, so that refusals 1 and 2 come before it, and it comes before 6.
fn with_bad_leg(t: Result<(), Refusal>) -> Result<(), Refusal>
    ensures { result ≡ with_bad_leg t }
{
    match t {
        Err(Refusal::CountAboveLimit) | Err(Refusal::WrongLength) => t,
        _ => Err(Refusal::IndexOutOfRange),
    }
}

// What the tables answer, with two legs.
fn judge_legs(t: Result<(), Refusal>, leg_a: usize, leg_b: usize) -> Result<(), Refusal>
    ensures { result ≡ with_legs t leg_a leg_b }
{
    if any_leg_above(leg_a, leg_b) {
        return with_bad_leg(t);
    }
    t
}

// Two legs of every number change places; equal legs change nothing.
fn swap(fc4: &mut [f64], tables: &ShiftTables, leg_a: usize, leg_b: usize)
    requires { Trading 3 (length fc4.old) (given tables.now) × (leg_a < 4) × (leg_b < 4) }
    ensures { fc4.new ≡ swapped (shifts_of (given tables.now)) 3 (leg_a, leg_b) fc4.old }
{
    if leg_a == leg_b {
        return;
    }
    exchange_legs(fc4, tables, false, leg_a, leg_b);
}

// Two of the four pairs (atom, direction) of every number change places, half shifts or not. With equal legs nothing moves. The work slice is not
// needed here; it is left with zeros.
pub fn swap_pairs_compact_fc4(
    fc4: &mut [f64],
    tables: &ShiftTables,
    done: &mut [u8],
    leg_a: usize,
    leg_b: usize,
) -> Result<(), Refusal>
    ensures { (result, fc4.new, done.new) ≡ swap_pairs_compact_fc4 fc4.old (given tables.now) done.old leg_a leg_b }
{
    let t = judge_compact(LIMIT4, 3, fc4.len(), 1, done.len(), tables);
    judge_legs(t, leg_a, leg_b)?;
    swap(fc4, tables, leg_a, leg_b);
    clear(done, 0);
    Ok(())
}
