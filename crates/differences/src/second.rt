// The difference reports of second order: both permutations of any two legs.
ghost use Rattle.std.specs.Prelude.{◌≡◌};
ghost use Rattle.tables.specs.Limits.{limit2};
ghost use Rattle.tables.specs.Compact.{given};
ghost use Rattle.places.specs.Permutations.{perms2};
ghost use Rattle.differences.specs.Difference.{difference_report_compact, difference_report_full};

use crate::any_order::{difference_report, difference_report_compact};
use audits::second::Second;
use reports::Report;
use tables::Refusal;
use tables::shift_tables::ShiftTables;

// The report of a compact set, which is read only.
pub fn difference_report_compact_fc2(fc: &[f64], tables: &ShiftTables) -> Result<Report, Refusal>
    ensures { result ≡ difference_report_compact limit2 1 perms2 fc.now (given tables.now) }
{
    difference_report_compact::<9, 2, 18, Second>(fc, tables)
}

// The report of a full set.
pub fn difference_report_fc2(fc: &[f64], num_atom: usize) -> Result<Report, Refusal>
    ensures { result ≡ difference_report_full limit2 1 perms2 fc.now num_atom }
{
    difference_report::<9, 2, 18, Second>(fc, num_atom)
}
