// A compact set of second order read out to the full one: block (i, j) of it is the block that is stored for these atoms.
ghost use Rattle.std.specs.Prelude.{◌≡◌, length};
ghost use Rattle.tables.specs.Compact.{given};
ghost use Rattle.blocks.specs.Inside.{BlocksIn};
ghost use Rattle.read_out.specs.ReadOut.{compact_to_full_fc2};
ghost use Rattle.read_out.specs.Copies.{Along, copy_legs, copy_rows};
ghost use Rattle.read_out.specs.Guard.{Reading};

use crate::judge;
use places::index_of;
use tables::Refusal;
use tables::atoms::{PrimAtom, SuperAtom};
use tables::limits::LIMIT2;
use tables::shift_tables::ShiftTables;

// The blocks of one first atom, which are stored for a primitive one; row t has the images of the second atoms.
fn line(
    full: &mut [f64],
    fc2: &[f64],
    tables: &ShiftTables,
    t: usize,
    first: SuperAtom,
    home: PrimAtom,
)
    requires along { let T = given tables.now in Along T.n_satom t T.perms }
    requires blocks_in { BlocksIn tables.now.n_satom 9 1 first.0 (length full.old) × BlocksIn tables.now.n_satom 9 1 home.0 (length fc2.now) }
    ensures { let T = given tables.now in full.new ≡ copy_legs T.perms T.n_satom 9 t 1 first.0 home.0 fc2.now full.old }
{
    for j in 0..tables.n_satom {
        let image = tables.perms_at(t, SuperAtom(j));
        let b = index_of(first.0, tables.n_satom, j);
        let f = index_of(home.0, tables.n_satom, image.0);
        let v = blocks::read9(fc2, f);
        blocks::write9(full, b, v);
    }
}

// The blocks of every first atom i: its row is nsym_list[i], and they are stored from s2pp[i] on.
fn rows(full: &mut [f64], fc2: &[f64], tables: &ShiftTables)
    requires { let T = given tables.now in Reading 1 9 (length full.old) (length fc2.now) T.n_satom T.s2pp T.nsym_list T.perms }
    ensures { let T = given tables.now in full.new
        ≡ copy_rows T.s2pp T.nsym_list T.perms T.n_satom 9 1 fc2.now full.old }
{
    for i in 0..tables.n_satom {
        let t = tables.nsym_at(SuperAtom(i));
        let p = tables.s2pp_at(SuperAtom(i));
        line(full, fc2, tables, t, SuperAtom(i), p);
    }
}

// Writes the full set that a compact set stands for. What was in the full slice does not matter.
pub fn compact_to_full_fc2(
    full: &mut [f64],
    fc2: &[f64],
    tables: &ShiftTables,
) -> Result<(), Refusal>
    ensures { (result, full.new) ≡ compact_to_full_fc2 full.old fc2.now (given tables.now) }
{
    judge(LIMIT2, 1, full.len(), fc2.len(), tables)?;
    rows(full, fc2, tables);
    Ok(())
}
