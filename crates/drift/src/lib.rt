// Drift reports (document 01, "Drift report"; document 02, A.4): how far the rows and the columns of a set are from adding up to zero. What is known of
// the sums that were looked at, and the report from it.
#![tactic(auto)]

pub mod compact;
pub mod full;
pub mod seen;
pub mod third;

ghost use Rattle.std.specs.Prelude.{◌≡◌};
ghost use Rattle.drift.specs.Drift.{along_number, answer_of, along_of, atom_of, report_at, still_report};
ghost use Rattle.drift.specs.Loops as loops;

use places::{column_of, row_of};
use reports::Deviation;
use reports::seen::Seen;
use tables::Refusal;

// Which sums a report names: that of a row, over the second atom, or that of a column, over the first.
#[derive(Clone, Copy)]
pub enum Along {
    Rows,
    Columns,
}

// The drift and its place: a row or a column, its atom, and the directions.
#[derive(Clone, Copy)]
pub struct DriftReport {
    pub drift: Deviation,
    pub along: Along,
    pub atom: usize,
    pub k: usize,
    pub l: usize,
}

// A number for rows and for columns.
pub fn along_number(a: Along) -> usize
    ensures { result ≡ along_number a }
{
    match a {
        Along::Rows => 0,
        Along::Columns => 1,
    }
}

// Done, or the refusal.
pub fn answer(r: Result<DriftReport, Refusal>) -> Result<(), Refusal>
    ensures { result ≡ answer_of r }
{
    match r {
        Ok(_) => Ok(()),
        Err(r) => Err(r),
    }
}

// Line q is row q, and from n on column q - n.
fn along_of(n: usize, q: usize) -> Along
    ensures { result ≡ along_of n q }
{
    if q < n {
        return Along::Rows;
    }
    Along::Columns
}

fn atom_of(n: usize, q: usize) -> usize
    ensures { result ≡ atom_of n q }
{
    if q < n {
        return q;
    }
    q - n
}

// The report whose place is that of sum r.
fn report_at(n: usize, d: Deviation, r: usize) -> DriftReport
    ensures { result ≡ report_at n d r }
{
    let line = row_of(r, 9);
    let along = along_of(n, line);
    let atom = atom_of(n, line);
    DriftReport {
        drift: d,
        along: along,
        atom: atom,
        k: row_of(column_of(r, 9), 3),
        l: column_of(column_of(r, 9), 3),
    }
}

fn still() -> DriftReport
    ensures { result ≡ still_report }
{
    DriftReport {
        drift: Deviation::Still,
        along: Along::Rows,
        atom: 0,
        k: 0,
        l: 0,
    }
}

// The report from what was seen of the sums.
pub fn conclude(n: usize, c: Seen) -> DriftReport
    ensures { result ≡ loops.concluded n c }
{
    if c.none {
        return report_at(n, Deviation::NoNumber, c.first);
    }
    if c.worst == 0.0 {
        return still();
    }
    report_at(n, Deviation::Worst(c.worst), c.at)
}
