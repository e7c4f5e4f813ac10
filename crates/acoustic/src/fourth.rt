// Fourth order: the drift of each leg taken off a set, from the shift tables.
ghost use Rattle.std.specs.Prelude.{◌≡◌, [], ◌∷◌, ◌+◌, ◌*◌, ◌≤◌, ◌<◌, length};
ghost use Rattle.lists.specs.Tab.{times};
ghost use Rattle.blocks.specs.Block.{block, put_block};
ghost use Rattle.tables.specs.Limits.{limit4};
ghost use Rattle.tables.specs.Compact.{shifts_of, TablesFit, given};
ghost use Rattle.audits.specs.Guard.{Ready};
ghost use Rattle.lines.specs.Sums3x3.{inverse};
ghost use Rattle.read_out.specs.Blocks.{block_of};
ghost use Rattle.acoustic.specs.Acoustic.{without, without_drift, without_drifts};
ghost use Rattle.acoustic.specs.Laws.{Room, less, drift_block, drift_put, row_less};

use crate::{scale_all, take_all};
use blocks::{read81, write81};
use legs::fourth::leg_sums;
use places::{column_of, index_of, row_of, stored_block3};
use tables::atoms::{PrimAtom, SuperAtom};
use tables::shift_tables::ShiftTables;

// The sums over leg `leg` times inv_n, where the other legs have the atoms of block r of third order.
fn drift_block(fc4: &[f64], tables: &ShiftTables, leg: usize, inv_n: f64, r: usize) -> [f64; 81]
    requires { Ready limit4 3 (length fc4.now) (given tables.now) × (leg ≤ 3) × (r < tables.now.n_patom * tables.now.n_satom * tables.now.n_satom) }
    ensures { result ≡ drift_block (shifts_of (given tables.now)) 3 leg 81 fc4.now inv_n r }
{
    let pj = row_of(r, tables.n_satom);
    let i = tables.p2s_at(PrimAtom(row_of(pj, tables.n_satom)));
    let ij = index_of(i.0, tables.n_satom, column_of(pj, tables.n_satom));
    let t = index_of(ij, tables.n_satom, column_of(r, tables.n_satom));
    let mut v = leg_sums(fc4, tables, leg, t);
    scale_all(&mut v, inv_n);
    v
}

// The drift of leg `leg` for all blocks of the other legs.
fn drifts(fc4: &[f64], drift: &mut [f64], tables: &ShiftTables, leg: usize)
    requires { Room limit4 3 (length fc4.now) (length drift.old) (given tables.now) × (leg ≤ 3) }
    ensures { drift.new ≡ times (tables.now.n_patom * tables.now.n_satom * tables.now.n_satom) (drift_put (shifts_of (given tables.now)) 3 leg 81 fc4.now (inverse tables.now.n_satom)) drift.old }
{
    let inv_n = 1.0 / (tables.n_satom as f64);
    let count = tables.n_patom * tables.n_satom * tables.n_satom;
    for r in 0..count {
        let v = drift_block(fc4, tables, leg, inv_n, r);
        write81(drift, r, v);
    }
}

// The stored block of third order that the atoms of the legs other than `leg` read out.
fn other_block(
    tables: &ShiftTables,
    leg: usize,
    i: SuperAtom,
    j: SuperAtom,
    k: SuperAtom,
    l: SuperAtom,
) -> usize
    requires { TablesFit limit4 (given tables.now) × (leg ≤ 3) × (i.0 < tables.now.n_satom) × (j.0 < tables.now.n_satom) × (k.0 < tables.now.n_satom) × (l.0 < tables.now.n_satom) }
    ensures { result ≡ block_of (shifts_of (given tables.now)) (without leg (i.0 ∷ j.0 ∷ k.0 ∷ l.0 ∷ [])) }
{
    if leg == 0 {
        return stored_block3(tables, j, k, l);
    }
    if leg == 1 {
        return stored_block3(tables, i, k, l);
    }
    if leg == 2 {
        return stored_block3(tables, i, j, l);
    }
    stored_block3(tables, i, j, k)
}

// Block b of the set less block r of the drifts.
fn block_off(fc4: &mut [f64], drift: &[f64], b: usize, r: usize)
    requires { (b * 81 + 81 ≤ length fc4.old) × (r * 81 + 81 ≤ length drift.now) }
    ensures { fc4.new ≡ put_block 81 b (less (block 81 b fc4.old) (block 81 r drift.now)) fc4.old }
{
    let mut v = read81(fc4, b);
    let d = read81(drift, r);
    take_all(&mut v, &d);
    write81(fc4, b, v);
}

// Every block of row (p, j, k) less its drift; the row is numbered as a block of third order.
fn row_off(fc4: &mut [f64], drift: &[f64], tables: &ShiftTables, leg: usize, row: usize)
    requires { Room limit4 3 (length fc4.old) (length drift.now) (given tables.now) × (leg ≤ 3) × (row < tables.now.n_patom * tables.now.n_satom * tables.now.n_satom) }
    ensures { fc4.new ≡ row_less (shifts_of (given tables.now)) 3 leg 81 drift.now row fc4.old }
{
    let pj = row_of(row, tables.n_satom);
    let i = tables.p2s_at(PrimAtom(row_of(pj, tables.n_satom)));
    let j = SuperAtom(column_of(pj, tables.n_satom));
    let k = SuperAtom(column_of(row, tables.n_satom));
    for l in 0..tables.n_satom {
        let r = other_block(tables, leg, i, j, k, SuperAtom(l));
        let b = index_of(row, tables.n_satom, l);
        block_off(fc4, drift, b, r);
    }
}

// Every block less its drift.
fn rows_off(fc4: &mut [f64], drift: &[f64], tables: &ShiftTables, leg: usize)
    requires { Room limit4 3 (length fc4.old) (length drift.now) (given tables.now) × (leg ≤ 3) }
    ensures { fc4.new ≡ times (tables.now.n_patom * tables.now.n_satom * tables.now.n_satom) (row_less (shifts_of (given tables.now)) 3 leg 81 drift.now) fc4.old }
{
    let count = tables.n_patom * tables.n_satom * tables.n_satom;
    for row in 0..count {
        row_off(fc4, drift, tables, leg, row);
    }
}

// One leg: its drifts, and then every block less its drift.
fn leg_off(fc4: &mut [f64], drift: &mut [f64], tables: &ShiftTables, leg: usize)
    requires { Room limit4 3 (length fc4.old) (length drift.old) (given tables.now) × (leg ≤ 3) }
    ensures { fc4.new ≡ without_drift (shifts_of (given tables.now)) 3 leg fc4.old }
{
    drifts(fc4, drift, tables, leg);
    rows_off(fc4, drift, tables, leg);
}

// The drift of every leg, the first leg first.
pub fn legs_off(fc4: &mut [f64], drift: &mut [f64], tables: &ShiftTables)
    requires { Room limit4 3 (length fc4.old) (length drift.old) (given tables.now) }
    ensures { fc4.new ≡ without_drifts (shifts_of (given tables.now)) 3 fc4.old }
{
    for leg in 0..4usize {
        leg_off(fc4, drift, tables, leg);
    }
}
