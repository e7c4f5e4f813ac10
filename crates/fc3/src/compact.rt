// The compact symmetrizer: each group of blocks is worked out at its first block in loop order; the done table tells which blocks were met.
ghost use Rattle.std.specs.Prelude.{◌≡◌, [], ◌∷◌, ◌<◌, length, replicate};
ghost use Rattle.std.specs.Float.{nan};
ghost use Rattle.tables.specs.Compact.{shifts_of, given};
ghost use Rattle.places.specs.Permutations.{perms3};
ghost use Rattle.orbits.specs.Spread.{set_all};
ghost use Rattle.orbits.specs.Symmetric.{symmetrized, mean6};
ghost use Rattle.fc3.specs.Symmetrize.{set_permutation_symmetry_compact_fc3};
ghost use Rattle.fc3.specs.Loops.{Ready, Atoms, at3, Marks6, work_at, visit_at, row3, slab3, all3};

use crate::spread::work_group;
use lists::clear;
use places::{block3, stored_block3};
use shifts::judge_compact;
use tables::Refusal;
use tables::atoms::{PrimAtom, SuperAtom};
use tables::limits::LIMIT3;
use tables::shift_tables::ShiftTables;

// The six blocks of a group are done.
fn mark(done: &mut [u8], b0: usize, b1: usize, b2: usize, b3: usize, b4: usize, b5: usize)
    requires { Marks6 (length done.old) b0 b1 b2 b3 b4 b5 }
    ensures { done.new ≡ set_all (b0 ∷ b1 ∷ b2 ∷ b3 ∷ b4 ∷ b5 ∷ []) 1 done.old }
{
    done[b0] = 1;
    done[b1] = 1;
    done[b2] = 1;
    done[b3] = 1;
    done[b4] = 1;
    done[b5] = 1;
}

// The group of block (p, j, k): its six blocks ijk, ikj, jik, jki, kij, kji are marked, worked out and written.
fn take(
    fc3: &mut [f64],
    tables: &ShiftTables,
    done: &mut [u8],
    p: PrimAtom,
    j: SuperAtom,
    k: SuperAtom,
)
    requires ready { Ready (length fc3.old) 2 (length done.old) (given tables.now) }
    requires atoms { Atoms (given tables.now) p.0 j.0 k.0 }
    ensures { let T = given tables.now in (fc3.new, done.new) ≡ work_at T (at3 T p.0 j.0 k.0) (fc3.old, done.old) }
{
    let i = tables.p2s_at(p);
    let ijk = block3(p, j, k, tables.n_satom);
    let ikj = block3(p, k, j, tables.n_satom);
    let jik = stored_block3(tables, j, i, k);
    let jki = stored_block3(tables, j, k, i);
    let kij = stored_block3(tables, k, i, j);
    let kji = stored_block3(tables, k, j, i);
    mark(done, ijk, ikj, jik, jki, kij, kji);
    work_group(fc3, ijk, ikj, jik, jki, kij, kji);
}

// One visit: block (p, j, k) is passed over if its group was met before.
fn visit(
    fc3: &mut [f64],
    tables: &ShiftTables,
    done: &mut [u8],
    p: PrimAtom,
    j: SuperAtom,
    k: SuperAtom,
)
    requires ready { Ready (length fc3.old) 2 (length done.old) (given tables.now) }
    requires atoms { Atoms (given tables.now) p.0 j.0 k.0 }
    ensures { let T = given tables.now in (fc3.new, done.new) ≡ visit_at T (at3 T p.0 j.0 k.0) (fc3.old, done.old) }
{
    let n = block3(p, j, k, tables.n_satom);
    if done[n] == 0 {
        take(fc3, tables, done, p, j, k);
    }
}

// The blocks (p, j, 0), (p, j, 1), ..
fn row(fc3: &mut [f64], tables: &ShiftTables, done: &mut [u8], p: PrimAtom, j: SuperAtom)
    requires ready { Ready (length fc3.old) 2 (length done.old) (given tables.now) }
    requires in_range { (p.0 < tables.now.n_patom) × (j.0 < tables.now.n_satom) }
    ensures { (fc3.new, done.new) ≡ row3 (given tables.now) p.0 j.0 (fc3.old, done.old) }
{
    for k in 0..tables.n_satom {
        visit(fc3, tables, done, p, j, SuperAtom(k));
    }
}

// The blocks of slab p.
fn slab(fc3: &mut [f64], tables: &ShiftTables, done: &mut [u8], p: PrimAtom)
    requires ready { Ready (length fc3.old) 2 (length done.old) (given tables.now) }
    requires in_range { p.0 < tables.now.n_patom }
    ensures { (fc3.new, done.new) ≡ slab3 (given tables.now) p.0 (fc3.old, done.old) }
{
    for j in 0..tables.n_satom {
        row(fc3, tables, done, p, SuperAtom(j));
    }
}

// All blocks.
fn slabs(fc3: &mut [f64], tables: &ShiftTables, done: &mut [u8])
    requires { Ready (length fc3.old) 2 (length done.old) (given tables.now) }
    ensures { (fc3.new, done.new) ≡ all3 (given tables.now) (fc3.old, done.old) }
{
    for p in 0..tables.n_patom {
        slab(fc3, tables, done, PrimAtom(p));
    }
}

// The set symmetrized, once the guard has passed. The done table comes in with anything and is left with zeros.
pub fn symmetrize(fc3: &mut [f64], tables: &ShiftTables, done: &mut [u8])
    requires { Ready (length fc3.old) 2 (length done.old) (given tables.now) }
    ensures { (fc3.new ≡ symmetrized nan mean6 (shifts_of (given tables.now)) 2 perms3 fc3.old) × (done.new ≡ replicate (length done.old) 0) }
{
    clear(done, 0);
    slabs(fc3, tables, done);
    clear(done, 0);
}

// The set is symmetrized: all six permutations of any three legs read out the same number. The done table comes in with anything and is left with zeros.
pub fn set_permutation_symmetry_compact_fc3(
    fc3: &mut [f64],
    tables: &ShiftTables,
    done: &mut [u8],
) -> Result<(), Refusal>
    ensures { (result, fc3.new, done.new) ≡ set_permutation_symmetry_compact_fc3 fc3.old (given tables.now) done.old }
{
    judge_compact(LIMIT3, 2, fc3.len(), 2, done.len(), tables)?;
    symmetrize(fc3, tables, done);
    Ok(())
}
