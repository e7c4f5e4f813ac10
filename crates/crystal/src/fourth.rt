// The crystal reports of fourth order.
ghost use Rattle.std.specs.Prelude.{◌≡◌};
ghost use Rattle.std.proofs.Common.{rules};
ghost use Rattle.tables.specs.Limits.{limit4};
ghost use Rattle.tables.specs.Compact.{given};
ghost use Rattle.audits.specs.FourthScanLaws.{in81};
ghost use Rattle.rotations.specs.Rotation.{sums};
ghost use Rattle.crystal.specs.Crystal.{crystal_report_compact, crystal_report_full};

use crate::any_order::{Order, crystal_report, crystal_report_compact, image};
use places::{column_of, row_of, stored_block4};
use reports::Report;
use rotations::{put_coefficients4, rotated81};
use tables::Refusal;
use tables::atoms::{PrimAtom, SuperAtom};
use tables::limits::LIMIT4;
use tables::shift_tables::ShiftTables;

// Sets of fourth order.
pub struct Fourth;

impl Order<81, 6561> for Fourth {
    ghost LIMIT = { limit4 };

    ghost RANK = { 3 };

    const LIMIT: usize = LIMIT4;

    const RANK: usize = 3;

    fn image_block(tables: &ShiftTables, operations: &[i64], r: usize, b: usize) -> usize {
        let l = SuperAtom(column_of(b, tables.n_satom));
        let pjk = row_of(b, tables.n_satom);
        let k = SuperAtom(column_of(pjk, tables.n_satom));
        let pj = row_of(pjk, tables.n_satom);
        let j = SuperAtom(column_of(pj, tables.n_satom));
        let p = PrimAtom(row_of(pj, tables.n_satom));
        let i = tables.p2s_at(p);
        let x = image(operations, tables.n_satom, r, i);
        let y = image(operations, tables.n_satom, r, j);
        let z = image(operations, tables.n_satom, r, k);
        let w = image(operations, tables.n_satom, r, l);
        stored_block4(tables, x, y, z, w)
    }

    fn coefficients(m: [f64; 9], c: &mut [f64; 6561]) {
        put_coefficients4(c, m);
    }

    fn rotated(c: &[f64; 6561], t: [f64; 81]) -> [f64; 81]
        ensures { result ≡ sums 81 81 81 0 c.now t }
    {
        rotated81(c, t)
    }

    ghost width = { in81 };

    ghost small = { Prim.search rules };
}

// The report of a compact set, which is read only.
pub fn crystal_report_compact_fc4(
    fc: &[f64],
    tables: &ShiftTables,
    r_carts: &[f64],
    operations: &[i64],
    num_rot: usize,
) -> Result<Report, Refusal>
    ensures { result ≡ crystal_report_compact limit4 3 fc.now r_carts.now operations.now (given tables.now) num_rot }
{
    crystal_report_compact::<81, 6561, Fourth>(fc, tables, r_carts, operations, num_rot)
}

// The report of a full set.
pub fn crystal_report_fc4(
    fc: &[f64],
    r_carts: &[f64],
    operations: &[i64],
    num_atom: usize,
    num_rot: usize,
) -> Result<Report, Refusal>
    ensures { result ≡ crystal_report_full limit4 3 fc.now r_carts.now operations.now num_atom num_rot }
{
    crystal_report::<81, 6561, Fourth>(fc, r_carts, operations, num_atom, num_rot)
}
