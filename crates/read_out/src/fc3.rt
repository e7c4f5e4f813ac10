// A compact set of third order read out to the full one: block (i, j, k) of it is the block that is stored for these atoms.
ghost use Rattle.std.specs.Prelude.{◌≡◌, length};
ghost use Rattle.tables.specs.Compact.{given};
ghost use Rattle.blocks.specs.Inside.{BlocksIn};
ghost use Rattle.read_out.specs.ReadOut.{compact_to_full_fc3};
ghost use Rattle.read_out.specs.Copies.{Along, copy_legs, copy_rows};
ghost use Rattle.read_out.specs.Guard.{Reading};

use crate::judge;
use places::index_of;
use tables::Refusal;
use tables::atoms::SuperAtom;
use tables::limits::LIMIT3;
use tables::shift_tables::ShiftTables;

// The blocks of one atom more: to and from number the atoms before it in the full set and in the compact one, row t has its images.
fn line(full: &mut [f64], fc3: &[f64], tables: &ShiftTables, t: usize, to: usize, from: usize)
    requires along { let T = given tables.now in Along T.n_satom t T.perms }
    requires blocks_in { BlocksIn tables.now.n_satom 27 1 to (length full.old) × BlocksIn tables.now.n_satom 27 1 from (length fc3.now) }
    ensures { let T = given tables.now in full.new ≡ copy_legs T.perms T.n_satom 27 t 1 to from fc3.now full.old }
{
    for k in 0..tables.n_satom {
        let image = tables.perms_at(t, SuperAtom(k));
        let b = index_of(to, tables.n_satom, k);
        let f = index_of(from, tables.n_satom, image.0);
        let v = blocks::read27(fc3, f);
        blocks::write27(full, b, v);
    }
}

// The blocks of two atoms more.
fn plane(full: &mut [f64], fc3: &[f64], tables: &ShiftTables, t: usize, to: usize, from: usize)
    requires along { let T = given tables.now in Along T.n_satom t T.perms }
    requires blocks_in { BlocksIn tables.now.n_satom 27 2 to (length full.old) × BlocksIn tables.now.n_satom 27 2 from (length fc3.now) }
    ensures { let T = given tables.now in full.new ≡ copy_legs T.perms T.n_satom 27 t 2 to from fc3.now full.old }
{
    for j in 0..tables.n_satom {
        let image = tables.perms_at(t, SuperAtom(j));
        let b = index_of(to, tables.n_satom, j);
        let f = index_of(from, tables.n_satom, image.0);
        line(full, fc3, tables, t, b, f);
    }
}

// The blocks of every first atom i: its row is nsym_list[i], and they are stored from s2pp[i] on.
fn rows(full: &mut [f64], fc3: &[f64], tables: &ShiftTables)
    requires { let T = given tables.now in Reading 2 27 (length full.old) (length fc3.now) T.n_satom T.s2pp T.nsym_list T.perms }
    ensures { let T = given tables.now in full.new
        ≡ copy_rows T.s2pp T.nsym_list T.perms T.n_satom 27 2 fc3.now full.old }
{
    for i in 0..tables.n_satom {
        let t = tables.nsym_at(SuperAtom(i));
        let p = tables.s2pp_at(SuperAtom(i));
        plane(full, fc3, tables, t, i, p.0);
    }
}

// Writes the full set that a compact set stands for. What was in the full slice does not matter.
pub fn compact_to_full_fc3(
    full: &mut [f64],
    fc3: &[f64],
    tables: &ShiftTables,
) -> Result<(), Refusal>
    ensures { (result, full.new) ≡ compact_to_full_fc3 full.old fc3.now (given tables.now) }
{
    judge(LIMIT3, 2, full.len(), fc3.len(), tables)?;
    rows(full, fc3, tables);
    Ok(())
}
