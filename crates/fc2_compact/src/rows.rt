// The rows of a compact set: the on-site blocks, and the row drift.
ghost use Rattle.std.specs.Prelude.{◌≡◌, ◌<◌, length};
ghost use Rattle.lines.specs.Lines.{balance_at};
ghost use Rattle.tables.specs.Shifts.{p2s_at};
ghost use Rattle.tables.specs.Compact.{shifts_of, given};
ghost use Rattle.fc2_compact.specs.Passes.{without_row_drift_compact, on_site};
ghost use Rattle.fc2_compact.specs.Code.{Ready};

use lines::nines::balance;
use tables::atoms::PrimAtom;
use tables::shift_tables::ShiftTables;

// The on-site block of primitive atom p by the acoustic sum rule, from the sums over the other atoms.
fn site_row(fc: &mut [f64], tables: &ShiftTables, p: usize)
    requires { Ready (given tables.now) (length fc.old) × (p < tables.now.n_patom) }
    ensures { fc.new ≡ balance_at tables.now.n_satom (p2s_at (shifts_of (given tables.now))) p fc.old }
{
    let i = tables.p2s_at(PrimAtom(p));
    let b = places::block2(PrimAtom(p), i, tables.n_satom);
    let s = lines::other_sums(fc, b, i, tables.n_satom);
    blocks::write9(fc, b, balance(s));
}

// The on-site blocks of all primitive atoms.
pub fn site_pass(fc: &mut [f64], tables: &ShiftTables)
    requires { Ready (given tables.now) (length fc.old) }
    ensures { fc.new ≡ on_site (shifts_of (given tables.now)) fc.old }
{
    for p in 0..tables.n_patom {
        site_row(fc, tables, p);
    }
}

// The row drift of the whole set taken away.
pub fn drift_pass(fc: &mut [f64], tables: &ShiftTables)
    requires { Ready (given tables.now) (length fc.old) }
    ensures { fc.new ≡ without_row_drift_compact (shifts_of (given tables.now)) fc.old }
{
    let inv_n = 1.0 / (tables.n_satom as f64);
    lines::row_drift(fc, tables.n_patom, tables.n_satom, inv_n);
}
