// The 24 blocks of a group: four times six, by the atom that comes first.
ghost use Rattle.std.specs.Prelude.{◌≡◌, ◌<◌, ◌≤◌, length};
ghost use Rattle.lists.specs.Digits.{horner, times_power};
ghost use Rattle.tables.specs.Limits.{limit4};
ghost use Rattle.tables.specs.Compact.{shifts_of, TablesFit, given};
ghost use Rattle.places.specs.Permutations.{perms4};
ghost use Rattle.places.specs.WholeLaws.{full_shifts};
ghost use Rattle.places.specs.ReadOuts.{Tables, stored_in};
ghost use Rattle.orbits.specs.Groups.{group_blocks};
ghost use Rattle.orbits.specs.Spread.{set_all};
ghost use Rattle.positions.specs.Positions.{address_table};
ghost use Rattle.fc4.specs.Mean.{Blocks24};
ghost use Rattle.fc4.specs.Blocks.{six_from, joined_of};
ghost use Rattle.fc4.specs.Loops.{Marks24, taken_blocks};

use crate::groups::work_group;
use places::{column_of, full4, row_of, stored_block4};
use tables::atoms::{PrimAtom, SuperAtom};
use tables::shift_tables::ShiftTables;

// The blocks of the permutations that begin with atom w: the other atoms as xyz, xzy, yxz, yzx, zxy, zyx.
fn six_from(
    tables: &ShiftTables,
    w: SuperAtom,
    x: SuperAtom,
    y: SuperAtom,
    z: SuperAtom,
) -> [usize; 6]
    requires { Tables tables.now.n_satom tables.now.s2pp.now tables.now.nsym_list.now tables.now.perms.now × (w.0 < tables.now.n_satom) × (x.0 < tables.now.n_satom) × (y.0 < tables.now.n_satom) × (z.0 < tables.now.n_satom) }
    ensures { result ≡ six_from (stored_in tables.now.n_satom tables.now.s2pp.now tables.now.nsym_list.now tables.now.perms.now) w.0 x.0 y.0 z.0 }
{
    let xyz = stored_block4(tables, w, x, y, z);
    let xzy = stored_block4(tables, w, x, z, y);
    let yxz = stored_block4(tables, w, y, x, z);
    let yzx = stored_block4(tables, w, y, z, x);
    let zxy = stored_block4(tables, w, z, x, y);
    let zyx = stored_block4(tables, w, z, y, x);
    [xyz, xzy, yxz, yzx, zxy, zyx]
}

// The same of a full set.
fn full_six_from(w: SuperAtom, x: SuperAtom, y: SuperAtom, z: SuperAtom, n: usize) -> [usize; 6]
    requires { (n ≤ 64) × (w.0 < n) × (x.0 < n) × (y.0 < n) × (z.0 < n) }
    ensures { result ≡ six_from (horner n) w.0 x.0 y.0 z.0 }
{
    let xyz = full4(w, x, y, z, n);
    let xzy = full4(w, x, z, y, n);
    let yxz = full4(w, y, x, z, n);
    let yzx = full4(w, y, z, x, n);
    let zxy = full4(w, z, x, y, n);
    let zyx = full4(w, z, y, x, n);
    [xyz, xzy, yxz, yzx, zxy, zyx]
}

// Four times six numbers in one list.
fn joined(a: [usize; 6], b: [usize; 6], c: [usize; 6], d: [usize; 6]) -> [usize; 24]
    ensures { result ≡ joined_of a b c d }
{
    [
        a[0], a[1], a[2], a[3], a[4], a[5], b[0], b[1], b[2], b[3], b[4], b[5], c[0], c[1], c[2],
        c[3], c[4], c[5], d[0], d[1], d[2], d[3], d[4], d[5],
    ]
}

// The blocks of the group of block b of a compact set, one for each of the 24 permutations.
pub fn group_blocks(tables: &ShiftTables, b: usize) -> [usize; 24]
    requires { TablesFit limit4 (given tables.now) × (b < times_power tables.now.n_satom 3 tables.now.n_patom) }
    ensures { result ≡ group_blocks (shifts_of (given tables.now)) 3 perms4 b }
{
    let l = SuperAtom(column_of(b, tables.n_satom));
    let pjk = row_of(b, tables.n_satom);
    let k = SuperAtom(column_of(pjk, tables.n_satom));
    let pj = row_of(pjk, tables.n_satom);
    let j = SuperAtom(column_of(pj, tables.n_satom));
    let p = PrimAtom(row_of(pj, tables.n_satom));
    let i = tables.p2s_at(p);
    let from_i = six_from(tables, i, j, k, l);
    let from_j = six_from(tables, j, i, k, l);
    let from_k = six_from(tables, k, i, j, l);
    let from_l = six_from(tables, l, i, j, k);
    joined(from_i, from_j, from_k, from_l)
}

// The same of a full set.
pub fn full_group_blocks(n: usize, b: usize) -> [usize; 24]
    requires { (n ≤ 64) × (b < times_power n 3 n) }
    ensures { result ≡ group_blocks (full_shifts n) 3 perms4 b }
{
    let l = SuperAtom(column_of(b, n));
    let ijk = row_of(b, n);
    let k = SuperAtom(column_of(ijk, n));
    let ij = row_of(ijk, n);
    let j = SuperAtom(column_of(ij, n));
    let i = SuperAtom(row_of(ij, n));
    let from_i = full_six_from(i, j, k, l, n);
    let from_j = full_six_from(j, i, k, l, n);
    let from_k = full_six_from(k, i, j, l, n);
    let from_l = full_six_from(l, i, j, k, n);
    joined(from_i, from_j, from_k, from_l)
}

// The blocks of a group are done.
fn mark(done: &mut [u8], bs: &[usize; 24])
    requires { Marks24 (length done.old) bs.now }
    ensures { done.new ≡ set_all bs.now 1 done.old }
{
    for b in bs {
        done[*b] = 1;
    }
}

// A group marked, worked out and written.
pub fn take(fc4: &mut [f64], done: &mut [u8], bs: &[usize; 24], t: &[u8; 1944])
    requires { Blocks24 (length fc4.old) bs.now × Marks24 (length done.old) bs.now × (t.now ≡ address_table) }
    ensures { (fc4.new, done.new) ≡ taken_blocks bs.now (fc4.old, done.old) }
{
    mark(done, bs);
    work_group(fc4, bs, t);
}
