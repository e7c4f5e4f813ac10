// The crystal reports of second order.
ghost use Rattle.std.specs.Prelude.{◌≡◌};
ghost use Rattle.std.proofs.Common.{rules};
ghost use Rattle.tables.specs.Limits.{limit2};
ghost use Rattle.tables.specs.Compact.{given};
ghost use Rattle.audits.specs.SecondScanLaws.{in9};
ghost use Rattle.rotations.specs.Rotation.{sums};
ghost use Rattle.crystal.specs.Crystal.{crystal_report_compact, crystal_report_full};

use crate::any_order::{Order, crystal_report, crystal_report_compact, image};
use places::{column_of, row_of, stored_block2};
use reports::Report;
use rotations::{put_coefficients2, rotated9};
use tables::Refusal;
use tables::atoms::{PrimAtom, SuperAtom};
use tables::limits::LIMIT2;
use tables::shift_tables::ShiftTables;

// Sets of second order.
pub struct Second;

impl Order<9, 81> for Second {
    ghost LIMIT = { limit2 };

    ghost RANK = { 1 };

    const LIMIT: usize = LIMIT2;

    const RANK: usize = 1;

    fn image_block(tables: &ShiftTables, operations: &[i64], r: usize, b: usize) -> usize {
        let j = SuperAtom(column_of(b, tables.n_satom));
        let p = PrimAtom(row_of(b, tables.n_satom));
        let i = tables.p2s_at(p);
        let x = image(operations, tables.n_satom, r, i);
        let y = image(operations, tables.n_satom, r, j);
        stored_block2(tables, x, y)
    }

    fn coefficients(m: [f64; 9], c: &mut [f64; 81]) {
        put_coefficients2(c, m);
    }

    fn rotated(c: &[f64; 81], t: [f64; 9]) -> [f64; 9]
        ensures { result ≡ sums 9 9 9 0 c.now t }
    {
        rotated9(c, t)
    }

    ghost width = { in9 };

    ghost small = { Prim.search rules };
}

// The report of a compact set, which is read only.
pub fn crystal_report_compact_fc2(
    fc: &[f64],
    tables: &ShiftTables,
    r_carts: &[f64],
    operations: &[i64],
    num_rot: usize,
) -> Result<Report, Refusal>
    ensures { result ≡ crystal_report_compact limit2 1 fc.now r_carts.now operations.now (given tables.now) num_rot }
{
    crystal_report_compact::<9, 81, Second>(fc, tables, r_carts, operations, num_rot)
}

// The report of a full set.
pub fn crystal_report_fc2(
    fc: &[f64],
    r_carts: &[f64],
    operations: &[i64],
    num_atom: usize,
    num_rot: usize,
) -> Result<Report, Refusal>
    ensures { result ≡ crystal_report_full limit2 1 fc.now r_carts.now operations.now num_atom num_rot }
{
    crystal_report::<9, 81, Second>(fc, r_carts, operations, num_atom, num_rot)
}
