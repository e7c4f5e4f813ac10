// The symmetrizer of a full set: a compact set in which each atom is its own representative.
ghost use Rattle.std.specs.Prelude.{◌≡◌, [], ◌∷◌, ◌<◌, length};
ghost use Rattle.lists.specs.Tab.{times};
ghost use Rattle.tables.specs.Lengths.{set_blocks};
ghost use Rattle.tables.specs.Limits.{limit4};
ghost use Rattle.tables.specs.Full.{judged_full};
ghost use Rattle.places.specs.WholeLaws.{full_shifts};
ghost use Rattle.positions.specs.Positions.{address_table};
ghost use Rattle.fc4.specs.Symmetrize.{set_permutation_symmetry_fc4};
ghost use Rattle.fc4.specs.Loops.{FullReady, visit_at};

use crate::group::{full_group_blocks, take};
use lists::clear;
use positions::addresses;
use tables::Refusal;
use tables::limits::LIMIT4;
use tables::sets::{judge_full, set_blocks};

// One visit, as in a compact set.
fn full_visit(fc4: &mut [f64], done: &mut [u8], num_atom: usize, t: &[u8; 1944], b: usize)
    requires { FullReady (length fc4.old) (length done.old) num_atom × (t.now ≡ address_table) × (b < length done.old) }
    ensures { (fc4.new, done.new) ≡ visit_at (full_shifts num_atom) b (fc4.old, done.old) }
{
    if done[b] == 0 {
        let bs = full_group_blocks(num_atom, b);
        take(fc4, done, &bs, t);
    }
}

// All blocks.
fn full_blocks(fc4: &mut [f64], done: &mut [u8], num_atom: usize, t: &[u8; 1944])
    requires { FullReady (length fc4.old) (length done.old) num_atom × (t.now ≡ address_table) }
    ensures { (fc4.new, done.new)
        ≡ times (length done.old) (visit_at (full_shifts num_atom)) (fc4.old, done.old) }
{
    for b in 0..done.len() {
        full_visit(fc4, done, num_atom, t, b);
    }
}

// Refusals 1 and 2, of the done table too.
fn judge(set_len: usize, work_len: usize, num_atom: usize) -> Result<(), Refusal>
    ensures { result ≡ judged_full limit4 3 set_len ((work_len, set_blocks num_atom num_atom 3) ∷ []) num_atom }
{
    judge_full(LIMIT4, 3, set_len, num_atom)?;
    if work_len == set_blocks(num_atom, num_atom, 3) {
        return Ok(());
    }
    Err(Refusal::WrongLength)
}

// The set is symmetrized: all 24 permutations of any four legs hold the same number. The done table comes in with anything and is left with zeros.
pub fn set_permutation_symmetry_fc4(
    fc4: &mut [f64],
    done: &mut [u8],
    num_atom: usize,
) -> Result<(), Refusal>
    ensures { (result, fc4.new, done.new) ≡ set_permutation_symmetry_fc4 fc4.old done.old num_atom }
{
    judge(fc4.len(), done.len(), num_atom)?;
    let t = addresses();
    clear(done, 0);
    full_blocks(fc4, done, num_atom, &t);
    clear(done, 0);
    Ok(())
}
