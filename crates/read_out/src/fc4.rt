// A compact set of fourth order read out to the full one: block (i, j, k, l) of it is the block that is stored for these atoms.
ghost use Rattle.std.specs.Prelude.{◌≡◌, length};
ghost use Rattle.tables.specs.Compact.{given};
ghost use Rattle.blocks.specs.Inside.{BlocksIn};
ghost use Rattle.read_out.specs.ReadOut.{compact_to_full_fc4};
ghost use Rattle.read_out.specs.Copies.{Along, copy_legs, copy_rows};
ghost use Rattle.read_out.specs.Guard.{Reading};

use crate::judge;
use places::index_of;
use tables::Refusal;
use tables::atoms::SuperAtom;
use tables::limits::LIMIT4;
use tables::shift_tables::ShiftTables;

// The blocks of one atom more: to and from number the atoms before it in the full set and in the compact one, row t has its images.
fn line(full: &mut [f64], fc4: &[f64], tables: &ShiftTables, t: usize, to: usize, from: usize)
    requires along { let T = given tables.now in Along T.n_satom t T.perms }
    requires blocks_in { BlocksIn tables.now.n_satom 81 1 to (length full.old) × BlocksIn tables.now.n_satom 81 1 from (length fc4.now) }
    ensures { let T = given tables.now in full.new ≡ copy_legs T.perms T.n_satom 81 t 1 to from fc4.now full.old }
{
    for l in 0..tables.n_satom {
        let image = tables.perms_at(t, SuperAtom(l));
        let b = index_of(to, tables.n_satom, l);
        let f = index_of(from, tables.n_satom, image.0);
        let v = blocks::read81(fc4, f);
        blocks::write81(full, b, v);
    }
}

// The blocks of two atoms more.
fn plane(full: &mut [f64], fc4: &[f64], tables: &ShiftTables, t: usize, to: usize, from: usize)
    requires along { let T = given tables.now in Along T.n_satom t T.perms }
    requires blocks_in { BlocksIn tables.now.n_satom 81 2 to (length full.old) × BlocksIn tables.now.n_satom 81 2 from (length fc4.now) }
    ensures { let T = given tables.now in full.new ≡ copy_legs T.perms T.n_satom 81 t 2 to from fc4.now full.old }
{
    for k in 0..tables.n_satom {
        let image = tables.perms_at(t, SuperAtom(k));
        let b = index_of(to, tables.n_satom, k);
        let f = index_of(from, tables.n_satom, image.0);
        line(full, fc4, tables, t, b, f);
    }
}

// The blocks of three atoms more.
fn slab(full: &mut [f64], fc4: &[f64], tables: &ShiftTables, t: usize, to: usize, from: usize)
    requires along { let T = given tables.now in Along T.n_satom t T.perms }
    requires blocks_in { BlocksIn tables.now.n_satom 81 3 to (length full.old) × BlocksIn tables.now.n_satom 81 3 from (length fc4.now) }
    ensures { let T = given tables.now in full.new ≡ copy_legs T.perms T.n_satom 81 t 3 to from fc4.now full.old }
{
    for j in 0..tables.n_satom {
        let image = tables.perms_at(t, SuperAtom(j));
        let b = index_of(to, tables.n_satom, j);
        let f = index_of(from, tables.n_satom, image.0);
        plane(full, fc4, tables, t, b, f);
    }
}

// The blocks of every first atom i: its row is nsym_list[i], and they are stored from s2pp[i] on.
fn rows(full: &mut [f64], fc4: &[f64], tables: &ShiftTables)
    requires { let T = given tables.now in Reading 3 81 (length full.old) (length fc4.now) T.n_satom T.s2pp T.nsym_list T.perms }
    ensures { let T = given tables.now in full.new
        ≡ copy_rows T.s2pp T.nsym_list T.perms T.n_satom 81 3 fc4.now full.old }
{
    for i in 0..tables.n_satom {
        let t = tables.nsym_at(SuperAtom(i));
        let p = tables.s2pp_at(SuperAtom(i));
        slab(full, fc4, tables, t, i, p.0);
    }
}

// Writes the full set that a compact set stands for. What was in the full slice does not matter.
pub fn compact_to_full_fc4(
    full: &mut [f64],
    fc4: &[f64],
    tables: &ShiftTables,
) -> Result<(), Refusal>
    ensures { (result, full.new) ≡ compact_to_full_fc4 full.old fc4.now (given tables.now) }
{
    judge(LIMIT4, 3, full.len(), fc4.len(), tables)?;
    rows(full, fc4, tables);
    Ok(())
}
