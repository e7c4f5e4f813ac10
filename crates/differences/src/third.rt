// The difference reports of third order: all 6 permutations of any three legs.
ghost use Rattle.std.specs.Prelude.{◌≡◌};
ghost use Rattle.tables.specs.Limits.{limit3};
ghost use Rattle.tables.specs.Compact.{given};
ghost use Rattle.places.specs.Permutations.{perms3};
ghost use Rattle.differences.specs.Difference.{difference_report_compact, difference_report_full};

use crate::any_order::{difference_report, difference_report_compact};
use audits::third::Third;
use reports::Report;
use tables::Refusal;
use tables::shift_tables::ShiftTables;

// The report of a compact set, which is read only.
pub fn difference_report_compact_fc3(fc: &[f64], tables: &ShiftTables) -> Result<Report, Refusal>
    ensures { result ≡ difference_report_compact limit3 2 perms3 fc.now (given tables.now) }
{
    difference_report_compact::<27, 6, 162, Third>(fc, tables)
}

// The report of a full set.
pub fn difference_report_fc3(fc: &[f64], num_atom: usize) -> Result<Report, Refusal>
    ensures { result ≡ difference_report_full limit3 2 perms3 fc.now num_atom }
{
    difference_report::<27, 6, 162, Third>(fc, num_atom)
}
