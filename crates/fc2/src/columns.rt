// The column drift of a full set. Eight columns are taken at a time: their eight blocks of a row stand side by side, where the block of one column
// alone is less than two lines of memory in each row. Each of the eight 3 by 3 sums has the same terms in the same order as if its column stood alone.
ghost use Rattle.std.specs.Prelude.{◌≡◌, List, ◌+◌, ◌*◌, ◌≤◌, length, Float};
ghost use Rattle.lines.specs.Lines.{Sized};
ghost use Rattle.fc2.specs.FullLoops as loops;
ghost use Rattle.fc2.specs.Columns.{Columns as ColumnsDone};

use lines::nine::{less, more, scaled};
use places::full2;
use tables::atoms::SuperAtom;

// Eight 3 by 3 sums, and one block more for each: the eight blocks from block b on.
fn add8(s: [[[f64; 3]; 3]; 8], fc: &[f64], b: usize) -> [[[f64; 3]; 3]; 8]
    requires { b * 9 + 72 ≤ length fc.now }
    ensures { result ≡ loops.added8 s b fc.now }
{
    let mut r = [[[0.0f64; 3]; 3]; 8];
    for c in 0..8usize {
        let v = blocks::read9(fc, b + c);
        let m = more(s[c], v);
        r[c] = m;
    }
    r
}

fn scale8(s: [[[f64; 3]; 3]; 8], x: f64) -> [[[f64; 3]; 3]; 8]
    ensures { result ≡ loops.scaled8 s x }
{
    let mut r = [[[0.0f64; 3]; 3]; 8];
    for c in 0..8usize {
        let m = scaled(s[c], x);
        r[c] = m;
    }
    r
}

// Takes the eight drifts d from the eight blocks from block b on.
fn take8(fc: &mut [f64], b: usize, d: [[[f64; 3]; 3]; 8])
    requires { b * 9 + 72 ≤ length fc.old }
    ensures { fc.new ≡ loops.less8 d b fc.old }
{
    for c in 0..8usize {
        let v = blocks::read9(fc, b + c);
        let w = less(v, d[c]);
        blocks::write9(fc, b + c, w);
    }
}

// The sums of columns j to j + 7.
fn panel_sums(fc: &[f64], n: usize, j: usize) -> [[[f64; 3]; 3]; 8]
    requires { Sized n n (length fc.now) × (j + 8 ≤ n) }
    ensures { result ≡ loops.panel_sums n j n fc.now }
{
    let mut s = [[[0.0f64; 3]; 3]; 8];
    for i in 0..n {
        let b = full2(SuperAtom(i), SuperAtom(j), n);
        let m = add8(s, fc, b);
        s = m;
    }
    s
}

// Takes d from columns j to j + 7.
fn take_panel(fc: &mut [f64], d: [[[f64; 3]; 3]; 8], n: usize, j: usize)
    requires { Sized n n (length fc.old) × (j + 8 ≤ n) }
    ensures { fc.new ≡ loops.panel_less n j d n fc.old }
{
    for i in 0..n {
        let b = full2(SuperAtom(i), SuperAtom(j), n);
        take8(fc, b, d);
    }
}

// Takes their drift from columns j to j + 7.
fn panel_drift(fc: &mut [f64], n: usize, j: usize, inv_n: f64)
    requires { Sized n n (length fc.old) × (j + 8 ≤ n) }
    ensures { fc.new ≡ loops.panel_drift n j inv_n fc.old }
{
    let s = panel_sums(fc, n, j);
    let d = scale8(s, inv_n);
    take_panel(fc, d, n, j);
}

// The first count panels of eight columns.
fn panels(fc: &mut [f64], n: usize, count: usize, inv_n: f64)
    requires { Sized n n (length fc.old) × (count * 8 ≤ n) }
    ensures { ColumnsDone n inv_n fc.old (count * 8) fc.new }
{
    for g in 0..count {
        panel_drift(fc, n, g * 8, inv_n);
    }
}

// The columns from column from on, one after another.
fn last_columns(fc: &mut [f64], n: usize, from: usize, inv_n: f64)
    requires { Sized n n (length fc.old) × (from ≤ n) }
    ensures { (xs : List Float) → ColumnsDone n inv_n xs from fc.old → ColumnsDone n inv_n xs n fc.new }
{
    for j in from..n {
        lines::line_drift(fc, j, n, n, inv_n);
    }
}

// Takes its drift from each column.
pub fn column_drift(fc: &mut [f64], n: usize, inv_n: f64)
    requires { Sized n n (length fc.old) }
    ensures { fc.new ≡ loops.columns n inv_n fc.old }
{
    let count = n / 8;
    panels(fc, n, count, inv_n);
    last_columns(fc, n, count * 8, inv_n);
}
