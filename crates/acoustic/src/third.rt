// Third order: the drift of each leg taken off a set, from the shift tables.
ghost use Rattle.std.specs.Prelude.{◌≡◌, [], ◌∷◌, ◌+◌, ◌*◌, ◌≤◌, ◌<◌, length};
ghost use Rattle.lists.specs.Tab.{times};
ghost use Rattle.blocks.specs.Block.{block, put_block};
ghost use Rattle.tables.specs.Limits.{limit3};
ghost use Rattle.tables.specs.Compact.{shifts_of, TablesFit, given};
ghost use Rattle.audits.specs.Guard.{Ready};
ghost use Rattle.lines.specs.Sums3x3.{inverse};
ghost use Rattle.read_out.specs.Blocks.{block_of};
ghost use Rattle.acoustic.specs.Acoustic.{without, without_drift, without_drifts};
ghost use Rattle.acoustic.specs.Laws.{Room, less, drift_block, drift_put, row_less};

use crate::{scale_all, take_all};
use blocks::{read27, write27};
use legs::third::leg_sums;
use places::{column_of, index_of, row_of, stored_block2};
use tables::atoms::{PrimAtom, SuperAtom};
use tables::shift_tables::ShiftTables;

// The sums over leg `leg` times inv_n, where the other legs have the atoms of block r of second order.
fn drift_block(fc3: &[f64], tables: &ShiftTables, leg: usize, inv_n: f64, r: usize) -> [f64; 27]
    requires { Ready limit3 2 (length fc3.now) (given tables.now) × (leg ≤ 2) × (r < tables.now.n_patom * tables.now.n_satom) }
    ensures { result ≡ drift_block (shifts_of (given tables.now)) 2 leg 27 fc3.now inv_n r }
{
    let i = tables.p2s_at(PrimAtom(row_of(r, tables.n_satom)));
    let t = index_of(i.0, tables.n_satom, column_of(r, tables.n_satom));
    let mut v = leg_sums(fc3, tables, leg, t);
    scale_all(&mut v, inv_n);
    v
}

// The drift of leg `leg` for all blocks of the other legs.
fn drifts(fc3: &[f64], drift: &mut [f64], tables: &ShiftTables, leg: usize)
    requires { Room limit3 2 (length fc3.now) (length drift.old) (given tables.now) × (leg ≤ 2) }
    ensures { drift.new ≡ times (tables.now.n_patom * tables.now.n_satom) (drift_put (shifts_of (given tables.now)) 2 leg 27 fc3.now (inverse tables.now.n_satom)) drift.old }
{
    let inv_n = 1.0 / (tables.n_satom as f64);
    let count = tables.n_patom * tables.n_satom;
    for r in 0..count {
        let v = drift_block(fc3, tables, leg, inv_n, r);
        write27(drift, r, v);
    }
}

// The stored block of second order that the atoms of the legs other than `leg` read out.
fn other_block(tables: &ShiftTables, leg: usize, i: SuperAtom, j: SuperAtom, k: SuperAtom) -> usize
    requires { TablesFit limit3 (given tables.now) × (leg ≤ 2) × (i.0 < tables.now.n_satom) × (j.0 < tables.now.n_satom) × (k.0 < tables.now.n_satom) }
    ensures { result ≡ block_of (shifts_of (given tables.now)) (without leg (i.0 ∷ j.0 ∷ k.0 ∷ [])) }
{
    if leg == 0 {
        return stored_block2(tables, j, k);
    }
    if leg == 1 {
        return stored_block2(tables, i, k);
    }
    stored_block2(tables, i, j)
}

// Block b of the set less block r of the drifts.
fn block_off(fc3: &mut [f64], drift: &[f64], b: usize, r: usize)
    requires { (b * 27 + 27 ≤ length fc3.old) × (r * 27 + 27 ≤ length drift.now) }
    ensures { fc3.new ≡ put_block 27 b (less (block 27 b fc3.old) (block 27 r drift.now)) fc3.old }
{
    let mut v = read27(fc3, b);
    let d = read27(drift, r);
    take_all(&mut v, &d);
    write27(fc3, b, v);
}

// Every block of row (p, j) less its drift; the row is numbered as a block of second order.
fn row_off(fc3: &mut [f64], drift: &[f64], tables: &ShiftTables, leg: usize, row: usize)
    requires { Room limit3 2 (length fc3.old) (length drift.now) (given tables.now) × (leg ≤ 2) × (row < tables.now.n_patom * tables.now.n_satom) }
    ensures { fc3.new ≡ row_less (shifts_of (given tables.now)) 2 leg 27 drift.now row fc3.old }
{
    let i = tables.p2s_at(PrimAtom(row_of(row, tables.n_satom)));
    let j = SuperAtom(column_of(row, tables.n_satom));
    for k in 0..tables.n_satom {
        let r = other_block(tables, leg, i, j, SuperAtom(k));
        let b = index_of(row, tables.n_satom, k);
        block_off(fc3, drift, b, r);
    }
}

// Every block less its drift.
fn rows_off(fc3: &mut [f64], drift: &[f64], tables: &ShiftTables, leg: usize)
    requires { Room limit3 2 (length fc3.old) (length drift.now) (given tables.now) × (leg ≤ 2) }
    ensures { fc3.new ≡ times (tables.now.n_patom * tables.now.n_satom) (row_less (shifts_of (given tables.now)) 2 leg 27 drift.now) fc3.old }
{
    let count = tables.n_patom * tables.n_satom;
    for row in 0..count {
        row_off(fc3, drift, tables, leg, row);
    }
}

// One leg: its drifts, and then every block less its drift.
fn leg_off(fc3: &mut [f64], drift: &mut [f64], tables: &ShiftTables, leg: usize)
    requires { Room limit3 2 (length fc3.old) (length drift.old) (given tables.now) × (leg ≤ 2) }
    ensures { fc3.new ≡ without_drift (shifts_of (given tables.now)) 2 leg fc3.old }
{
    drifts(fc3, drift, tables, leg);
    rows_off(fc3, drift, tables, leg);
}

// The drift of every leg, the first leg first.
pub fn legs_off(fc3: &mut [f64], drift: &mut [f64], tables: &ShiftTables)
    requires { Room limit3 2 (length fc3.old) (length drift.old) (given tables.now) }
    ensures { fc3.new ≡ without_drifts (shifts_of (given tables.now)) 2 fc3.old }
{
    for leg in 0..3usize {
        leg_off(fc3, drift, tables, leg);
    }
}
