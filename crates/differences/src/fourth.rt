// The difference reports of fourth order: all 24 permutations of any four legs.
ghost use Rattle.std.specs.Prelude.{◌≡◌};
ghost use Rattle.tables.specs.Limits.{limit4};
ghost use Rattle.tables.specs.Compact.{given};
ghost use Rattle.places.specs.Permutations.{perms4};
ghost use Rattle.differences.specs.Difference.{difference_report_compact, difference_report_full};

use crate::any_order::{difference_report, difference_report_compact};
use audits::fourth::Fourth;
use reports::Report;
use tables::Refusal;
use tables::shift_tables::ShiftTables;

// The report of a compact set, which is read only.
pub fn difference_report_compact_fc4(fc: &[f64], tables: &ShiftTables) -> Result<Report, Refusal>
    ensures { result ≡ difference_report_compact limit4 3 perms4 fc.now (given tables.now) }
{
    difference_report_compact::<81, 24, 1944, Fourth>(fc, tables)
}

// The report of a full set.
pub fn difference_report_fc4(fc: &[f64], num_atom: usize) -> Result<Report, Refusal>
    ensures { result ≡ difference_report_full limit4 3 perms4 fc.now num_atom }
{
    difference_report::<81, 24, 1944, Fourth>(fc, num_atom)
}
