// The transposes of a compact set of third order. Block after block, each with its counterpart: the two change places, permuted, at the lower one of
// them. Blocks that a half shift exchanges with their own pair stay where half_shifts_stay says so, as the Rust leaves them; the true transposes
// move them too.
#![tactic(auto)]

pub mod exchanging;

ghost use Rattle.std.specs.Prelude.{◌≡◌, false, cond, ◌+◌, ◌<◌, ◌≤◌, length};
ghost use Rattle.tables.specs.Compact.{shifts_of, given};
ghost use Rattle.transposes_fc3.specs.Fc3.{transposed_by, transpose_compact_fc3};
ghost use Rattle.orbits.specs.HalfShift.{Trading, PairAt};
ghost use Rattle.orbits.specs.TrueTransposes.{swapped, legs3, true_transpose_compact_fc3};
ghost use Rattle.transposes_fc3.specs.Fc3Loops.{Atoms, at3, exchange_at, row_t, slab_t, all_t};

use crate::exchanging::{exchange0, exchange1, exchange2};
use lists::clear;
use orbits::half_shifts::stays;
use places::{block3, stored_block3};
use shifts::judge_compact;
use tables::Refusal;
use tables::atoms::{PrimAtom, SuperAtom};
use tables::limits::LIMIT3;
use tables::shift_tables::ShiftTables;

// One visit of type 0: block (p, j, k) and its counterpart change places at the lower one of them: i is p's representative.
fn visit0(
    fc3: &mut [f64],
    tables: &ShiftTables,
    p: PrimAtom,
    i: SuperAtom,
    j: SuperAtom,
    k: SuperAtom,
)
    requires { PairAt 2 (length fc3.old) (given tables.now) p.0 i.0 j.0 × (k.0 < tables.now.n_satom) }
    ensures { let T = given tables.now in fc3.new ≡ exchange_at false T 0 (at3 T p.0 j.0 k.0) fc3.old }
{
    let n = block3(p, j, k, tables.n_satom);
    let o = stored_block3(tables, j, i, k);
    if n <= o {
        exchange0(fc3, n, o);
    }
}

// One visit of type 1: block (p, j, k) and its counterpart change places, unless they stay or were met at the lower one.
fn visit1(
    fc3: &mut [f64],
    tables: &ShiftTables,
    half_shifts_stay: bool,
    p: PrimAtom,
    j: SuperAtom,
    k: SuperAtom,
)
    requires trading { Trading 2 (length fc3.old) (given tables.now) }
    requires atoms { Atoms (given tables.now) p.0 j.0 k.0 }
    ensures { let T = given tables.now in fc3.new ≡ exchange_at half_shifts_stay T 1 (at3 T p.0 j.0 k.0) fc3.old }
{
    let n = block3(p, j, k, tables.n_satom);
    let i = tables.p2s_at(p);
    let o = stored_block3(tables, k, j, i);
    if o < n {
        return;
    }
    if stays(tables, half_shifts_stay, p, k) {
        return;
    }
    exchange1(fc3, n, o);
}

// Type 2: blocks (p, j, k) and (p, k, j) change places. The first one is not the higher one where j ≤ k.
fn visit2(fc3: &mut [f64], tables: &ShiftTables, p: PrimAtom, j: SuperAtom, k: SuperAtom)
    requires trading { Trading 2 (length fc3.old) (given tables.now) }
    requires atoms { Atoms (given tables.now) p.0 j.0 k.0 × (j.0 ≤ k.0) }
    ensures { let T = given tables.now in fc3.new ≡ exchange_at false T 2 (at3 T p.0 j.0 k.0) fc3.old }
{
    let n = block3(p, j, k, tables.n_satom);
    let o = block3(p, k, j, tables.n_satom);
    exchange2(fc3, n, o);
}

// Type 0: the blocks of a pair (p, j) that moves.
fn line0(fc3: &mut [f64], tables: &ShiftTables, p: PrimAtom, i: SuperAtom, j: SuperAtom)
    requires { PairAt 2 (length fc3.old) (given tables.now) p.0 i.0 j.0 }
    ensures { fc3.new ≡ row_t false (given tables.now) 0 p.0 j.0 fc3.old }
{
    for k in 0..tables.n_satom {
        visit0(fc3, tables, p, i, j, SuperAtom(k));
    }
}

// Type 0: the blocks (p, j, 0), (p, j, 1), .. move or stay together.
fn row0(fc3: &mut [f64], tables: &ShiftTables, half_shifts_stay: bool, p: PrimAtom, j: SuperAtom)
    requires trading { Trading 2 (length fc3.old) (given tables.now) }
    requires in_range { (p.0 < tables.now.n_patom) × (j.0 < tables.now.n_satom) }
    ensures { fc3.new ≡ row_t half_shifts_stay (given tables.now) 0 p.0 j.0 fc3.old }
{
    if stays(tables, half_shifts_stay, p, j) {
        return;
    }
    let i = tables.p2s_at(p);
    line0(fc3, tables, p, i, j);
}

// Type 1: the blocks (p, j, 0), (p, j, 1), ..
fn row1(fc3: &mut [f64], tables: &ShiftTables, half_shifts_stay: bool, p: PrimAtom, j: SuperAtom)
    requires trading { Trading 2 (length fc3.old) (given tables.now) }
    requires in_range { (p.0 < tables.now.n_patom) × (j.0 < tables.now.n_satom) }
    ensures { fc3.new ≡ row_t half_shifts_stay (given tables.now) 1 p.0 j.0 fc3.old }
{
    for k in 0..tables.n_satom {
        visit1(fc3, tables, half_shifts_stay, p, j, SuperAtom(k));
    }
}

// Type 2: the blocks (p, j, j), (p, j, j + 1), .. change places with theirs; those before were met there.
fn row2(fc3: &mut [f64], tables: &ShiftTables, p: PrimAtom, j: SuperAtom)
    requires trading { Trading 2 (length fc3.old) (given tables.now) }
    requires in_range { (p.0 < tables.now.n_patom) × (j.0 < tables.now.n_satom) }
    ensures { fc3.new ≡ row_t false (given tables.now) 2 p.0 j.0 fc3.old }
{
    for k in j.0..tables.n_satom {
        visit2(fc3, tables, p, j, SuperAtom(k));
    }
}

// Types 1 and 2, which exchange with the last leg.
fn row_last(
    fc3: &mut [f64],
    tables: &ShiftTables,
    half_shifts_stay: bool,
    t: usize,
    p: PrimAtom,
    j: SuperAtom,
)
    requires trading { Trading 2 (length fc3.old) (given tables.now) }
    requires in_range { (p.0 < tables.now.n_patom) × (j.0 < tables.now.n_satom) × (t < 3) × (t ≡ 0 → ⊥) }
    ensures { fc3.new ≡ row_t half_shifts_stay (given tables.now) t p.0 j.0 fc3.old }
{
    if t == 1 {
        row1(fc3, tables, half_shifts_stay, p, j);
        return;
    }
    row2(fc3, tables, p, j);
}

// The blocks (p, j, 0), (p, j, 1), .. by type, each type with a loop of its own: the type is then a constant where the blocks move.
fn row(
    fc3: &mut [f64],
    tables: &ShiftTables,
    half_shifts_stay: bool,
    t: usize,
    p: PrimAtom,
    j: SuperAtom,
)
    requires trading { Trading 2 (length fc3.old) (given tables.now) }
    requires in_range { (p.0 < tables.now.n_patom) × (j.0 < tables.now.n_satom) × (t < 3) }
    ensures { fc3.new ≡ row_t half_shifts_stay (given tables.now) t p.0 j.0 fc3.old }
{
    if t == 0 {
        row0(fc3, tables, half_shifts_stay, p, j);
        return;
    }
    row_last(fc3, tables, half_shifts_stay, t, p, j);
}

// The blocks of slab p.
fn slab(fc3: &mut [f64], tables: &ShiftTables, half_shifts_stay: bool, t: usize, p: PrimAtom)
    requires trading { Trading 2 (length fc3.old) (given tables.now) }
    requires in_range { (p.0 < tables.now.n_patom) × (t < 3) }
    ensures { fc3.new ≡ slab_t half_shifts_stay (given tables.now) t p.0 fc3.old }
{
    for j in 0..tables.n_satom {
        row(fc3, tables, half_shifts_stay, t, p, SuperAtom(j));
    }
}

// All blocks.
fn slabs(fc3: &mut [f64], tables: &ShiftTables, half_shifts_stay: bool, t: usize)
    requires trading { Trading 2 (length fc3.old) (given tables.now) }
    requires in_range { t < 3 }
    ensures { fc3.new ≡ all_t half_shifts_stay (given tables.now) t fc3.old }
{
    for p in 0..tables.n_patom {
        slab(fc3, tables, half_shifts_stay, t, PrimAtom(p));
    }
}

// The set by type: 0, 1 and 2 have a meaning, any other changes nothing.
fn transpose(fc3: &mut [f64], tables: &ShiftTables, half_shifts_stay: bool, t_type: i64)
    requires { Trading 2 (length fc3.old) (given tables.now) }
    ensures { let T = given tables.now in fc3.new ≡ cond half_shifts_stay (transposed_by (shifts_of T) t_type fc3.old) (swapped (shifts_of T) 2 (legs3 t_type) fc3.old) }
{
    if t_type == 0 {
        slabs(fc3, tables, half_shifts_stay, 0);
        return;
    }
    if t_type == 1 {
        slabs(fc3, tables, half_shifts_stay, 1);
        return;
    }
    if t_type == 2 {
        slabs(fc3, tables, half_shifts_stay, 2);
    }
}

// Pairs of legs change places: type 0 legs 0 and 1, type 1 legs 0 and 2, type 2 legs 1 and 2. The work bytes come in with anything and are left with zeros.
pub fn transpose_compact_fc3(
    fc3: &mut [f64],
    tables: &ShiftTables,
    done: &mut [u8],
    t_type: i64,
) -> Result<(), Refusal>
    ensures { (result, fc3.new, done.new) ≡ transpose_compact_fc3 fc3.old (given tables.now) done.old t_type }
{
    judge_compact(LIMIT3, 2, fc3.len(), 1, done.len(), tables)?;
    transpose(fc3, tables, true, t_type);
    clear(done, 0);
    Ok(())
}

// The same for every block, those of half shifts too.
pub fn true_transpose_compact_fc3(
    fc3: &mut [f64],
    tables: &ShiftTables,
    done: &mut [u8],
    t_type: i64,
) -> Result<(), Refusal>
    ensures { (result, fc3.new, done.new) ≡ true_transpose_compact_fc3 fc3.old (given tables.now) done.old t_type }
{
    judge_compact(LIMIT3, 2, fc3.len(), 1, done.len(), tables)?;
    transpose(fc3, tables, false, t_type);
    clear(done, 0);
    Ok(())
}
