// The drift report of a full set of third order: how far the sums over each of its legs are from zero. A block of 27 numbers is three blocks of nine,
// one for each direction of the first leg, so the sums over a leg are those of lines of such blocks, as at second order.
ghost use Rattle.std.specs.Prelude.{◌≡◌, ◌+◌, ◌*◌, ◌/◌, ◌%◌, ◌≤◌, ◌<◌, length};
ghost use Rattle.reports.specs.Loops.{concluded_by};
ghost use Rattle.drift.specs.ThirdReport.{leg_of, report_at3, still_report3, drift_report_fc3};
ghost use Rattle.drift.specs.Lines.{Apart, first_nine, look_leg, scanned3};

use crate::seen::{calm, look_line};
use lines::line_sums;
use places::{column_of, index_of, row_of};
use reports::Deviation;
use reports::seen::{Seen, start};
use tables::Refusal;
use tables::limits::LIMIT3;
use tables::sets::judge_full;

// The drift and its place: the leg that is summed over, 0, 1 or 2, the atoms of the two others, and the directions.
#[derive(Clone, Copy)]
pub struct LegReport {
    pub drift: Deviation,
    pub leg: usize,
    pub first: usize,
    pub second: usize,
    pub k: usize,
    pub l: usize,
    pub m: usize,
}

// The sums over the last leg come first.
fn leg_of(t: usize) -> usize
    ensures { result ≡ leg_of t }
{
    if t == 0 {
        return 2;
    }
    if t == 1 {
        return 1;
    }
    0
}

// The report whose place is that of sum r.
fn report_at(n: usize, d: Deviation, r: usize) -> LegReport
    requires { 0 < n }
    ensures { result ≡ report_at3 n d r }
{
    let lines = row_of(r, 27);
    let second = column_of(lines, n);
    let firsts = row_of(lines, n);
    let first = column_of(firsts, n);
    let leg = leg_of(row_of(firsts, n));
    LegReport {
        drift: d,
        leg: leg,
        first: first,
        second: second,
        k: row_of(column_of(r, 27), 9),
        l: row_of(column_of(r, 9), 3),
        m: column_of(r, 3),
    }
}

fn still() -> LegReport
    ensures { result ≡ still_report3 }
{
    LegReport {
        drift: Deviation::Still,
        leg: 2,
        first: 0,
        second: 0,
        k: 0,
        l: 0,
        m: 0,
    }
}

fn conclude(n: usize, c: Seen) -> LegReport
    requires { 0 < n }
    ensures { result ≡ concluded_by still_report3 (report_at3 n) c }
{
    if c.none {
        return report_at(n, Deviation::NoNumber, c.first);
    }
    if c.worst == 0.0 {
        return still();
    }
    report_at(n, Deviation::Worst(c.worst), c.at)
}

// The first block of nine of line e of a leg whose atoms stand step blocks of 27 apart.
fn first_nine(n: usize, step: usize, e: usize) -> usize
    requires { (0 < step) × (step * n ≤ 16777216) × (e / 3 / step * (step * n) + e / 3 % step < 33554432) }
    ensures { result ≡ first_nine n step e }
{
    let pair = row_of(e, 3);
    let block = index_of(row_of(pair, step), step * n, column_of(pair, step));
    index_of(block, 3, column_of(e, 3))
}

// Looks at the sums over one leg, a line of blocks of nine for each; the first of them is line from.
fn look_leg(fc: &[f64], n: usize, step: usize, from: usize, c: Seen) -> Seen
    requires { Apart n (length fc.now) step × (from ≤ 393216) }
    ensures { result ≡ look_leg n step from fc.now c }
{
    let mut seen = c;
    let count = n * n * 3;
    for e in 0..count {
        let first = first_nine(n, step, e);
        let s = line_sums(fc, [[0.0f64; 3]; 3], first, step * 3, n);
        if !calm(s, seen.worst) {
            let more = look_line(from + e, s, seen);
            seen = more;
        }
    }
    seen
}

// All sums: over the last leg, the middle one, the first.
fn scan(fc: &[f64], n: usize) -> Seen
    requires { (n ≤ 256) × (length fc.now ≡ n * n * n * 27) }
    ensures { result ≡ scanned3 n fc.now }
{
    let third = look_leg(fc, n, 1, 0, start());
    let second = look_leg(fc, n, n, n * n * 3, third);
    look_leg(fc, n, n * n, n * n * 6, second)
}

// The drift of the sums over each leg of a full set, and its place.
pub fn drift_report_fc3(fc: &[f64], num_atom: usize) -> Result<LegReport, Refusal>
    ensures { result ≡ drift_report_fc3 fc.now num_atom }
{
    judge_full(LIMIT3, 2, fc.len(), num_atom)?;
    if num_atom == 0 {
        return Ok(still());
    }
    let seen = scan(fc, num_atom);
    Ok(conclude(num_atom, seen))
}
