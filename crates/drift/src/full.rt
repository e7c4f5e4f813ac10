// The drift report of a full set of second order: all its sums, the rows' and then the columns'. A small set is read line by line. Of a larger one a
// column alone would be read from all over the memory: it is read once, row by row, and each block is added to the sums of its row and to those of its
// column. Most lines bring nothing new, and nothing is done for them but the test whether they do.
ghost use Rattle.std.specs.Prelude.{◌≡◌, ℕ, ◌+◌, ◌*◌, ◌-◌, ◌≤◌, ◌<◌, length};
ghost use Rattle.lines.specs.Lines.{Line, Sized};
ghost use Rattle.drift.specs.Drift.{drift_report};
ghost use Rattle.drift.specs.Loops as loops;

use crate::seen::{calm, look_line};
use crate::{DriftReport, conclude};
use lines::line_sums;
use lines::nine::more;
use places::index_of;
use reports::seen::{Seen, start};
use tables::Refusal;

// Looks at n lines of n blocks: line i begins with block i * apart, and its blocks stand step apart.
fn look_lines(fc: &[f64], first: usize, apart: usize, step: usize, n: usize, c: Seen) -> Seen
    requires { (n ≤ 1024) × (first ≤ 1024) × ((i : ℕ) → i < n → Line (i * apart) step n (length fc.now)) }
    ensures { result ≡ loops.look_lines first apart step n fc.now c }
{
    let mut seen = c;
    for i in 0..n {
        let s = line_sums(fc, [[0.0f64; 3]; 3], index_of(i, apart, 0), step, n);
        if !calm(s, seen.worst) {
            let more = look_line(first + i, s, seen);
            seen = more;
        }
    }
    seen
}

fn scan_small(fc: &[f64], n: usize) -> Seen
    requires { Sized n n (length fc.now) }
    ensures { result ≡ loops.scanned n fc.now }
{
    let rows = look_lines(fc, 0, n, 1, n, start());
    look_lines(fc, n, 1, n, n, rows)
}

fn scan_set(fc: &[f64], n: usize) -> Seen
    requires { Sized n n (length fc.now) }
    ensures { result ≡ loops.scanned n fc.now }
{
    scan_small(fc, n)
}

// The drift of each row sum over the second atom and of each column sum over the first, and its place.
pub fn drift_report(fc: &[f64], n_satom: usize) -> Result<DriftReport, Refusal>
    ensures { result ≡ drift_report fc.now n_satom }
{
    tables::sets::judge_full(tables::limits::LIMIT2, 1, fc.len(), n_satom)?;
    let seen = scan_set(fc, n_satom);
    Ok(conclude(n_satom, seen))
}
