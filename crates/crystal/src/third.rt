// The crystal reports of third order.
ghost use Rattle.std.specs.Prelude.{◌≡◌};
ghost use Rattle.std.proofs.Common.{rules};
ghost use Rattle.tables.specs.Limits.{limit3};
ghost use Rattle.tables.specs.Compact.{given};
ghost use Rattle.audits.specs.ThirdScanLaws.{in27};
ghost use Rattle.rotations.specs.Rotation.{sums};
ghost use Rattle.crystal.specs.Crystal.{crystal_report_compact, crystal_report_full};

use crate::any_order::{Order, crystal_report, crystal_report_compact, image};
use places::{column_of, row_of, stored_block3};
use reports::Report;
use rotations::{put_coefficients3, rotated27};
use tables::Refusal;
use tables::atoms::{PrimAtom, SuperAtom};
use tables::limits::LIMIT3;
use tables::shift_tables::ShiftTables;

// Sets of third order.
pub struct Third;

impl Order<27, 729> for Third {
    ghost LIMIT = { limit3 };

    ghost RANK = { 2 };

    const LIMIT: usize = LIMIT3;

    const RANK: usize = 2;

    fn image_block(tables: &ShiftTables, operations: &[i64], r: usize, b: usize) -> usize {
        let k = SuperAtom(column_of(b, tables.n_satom));
        let pj = row_of(b, tables.n_satom);
        let j = SuperAtom(column_of(pj, tables.n_satom));
        let p = PrimAtom(row_of(pj, tables.n_satom));
        let i = tables.p2s_at(p);
        let x = image(operations, tables.n_satom, r, i);
        let y = image(operations, tables.n_satom, r, j);
        let z = image(operations, tables.n_satom, r, k);
        stored_block3(tables, x, y, z)
    }

    fn coefficients(m: [f64; 9], c: &mut [f64; 729]) {
        put_coefficients3(c, m);
    }

    fn rotated(c: &[f64; 729], t: [f64; 27]) -> [f64; 27]
        ensures { result ≡ sums 27 27 27 0 c.now t }
    {
        rotated27(c, t)
    }

    ghost width = { in27 };

    ghost small = { Prim.search rules };
}

// The report of a compact set, which is read only.
pub fn crystal_report_compact_fc3(
    fc: &[f64],
    tables: &ShiftTables,
    r_carts: &[f64],
    operations: &[i64],
    num_rot: usize,
) -> Result<Report, Refusal>
    ensures { result ≡ crystal_report_compact limit3 2 fc.now r_carts.now operations.now (given tables.now) num_rot }
{
    crystal_report_compact::<27, 729, Third>(fc, tables, r_carts, operations, num_rot)
}

// The report of a full set.
pub fn crystal_report_fc3(
    fc: &[f64],
    r_carts: &[f64],
    operations: &[i64],
    num_atom: usize,
    num_rot: usize,
) -> Result<Report, Refusal>
    ensures { result ≡ crystal_report_full limit3 2 fc.now r_carts.now operations.now num_atom num_rot }
{
    crystal_report::<27, 729, Third>(fc, r_carts, operations, num_atom, num_rot)
}
