// Lines of blocks of nine numbers, in full sets and in compact ones: a row of a set is a line, and so is a column. The sums of a line, and a
// line less its drift.
#![tactic(auto)]

pub mod nine;
pub mod nines;

ghost use Rattle.std.specs.Prelude.{◌≡◌, length};
ghost use Rattle.lines.specs.Lines as lines;
ghost use Rattle.lines.specs.Lines.{Inside, Line, RowOf, Sized};

use nine::{averaged, less, more, scaled};
use places::index_of;
use tables::atoms::SuperAtom;

// The 3 by 3 sums s, to which the blocks of a line are added one after another: blocks first, first + step, ..
pub fn line_sums(
    fc: &[f64],
    s: [[f64; 3]; 3],
    first: usize,
    step: usize,
    count: usize,
) -> [[f64; 3]; 3]
    requires { Line first step count (length fc.now) }
    ensures { result ≡ lines.line_sums first step count fc.now s }
{
    let mut sums = s;
    for k in 0..count {
        let b = blocks::read9(fc, index_of(k, step, first));
        // A call's result is not laid straight into an array that lives on: no proof is made for that.
        let next = more(sums, b);
        sums = next;
    }
    sums
}

// Takes d from each block of a line.
fn take_drift(fc: &mut [f64], d: [[f64; 3]; 3], first: usize, step: usize, count: usize)
    requires { Line first step count (length fc.old) }
    ensures { fc.new ≡ lines.line_less first step count d fc.old }
{
    for k in 0..count {
        let at = index_of(k, step, first);
        let b = blocks::read9(fc, at);
        blocks::write9(fc, at, less(b, d));
    }
}

// Takes its drift from a line: the sum times 1 / n, which is not the sum divided by n.
pub fn line_drift(fc: &mut [f64], first: usize, step: usize, count: usize, inv_n: f64)
    requires { Line first step count (length fc.old) }
    ensures { fc.new ≡ lines.line_drift first step count inv_n fc.old }
{
    let s = line_sums(fc, [[0.0f64; 3]; 3], first, step, count);
    let d = scaled(s, inv_n);
    take_drift(fc, d, first, step, count);
}

// Takes its drift from each row of n blocks.
pub fn row_drift(fc: &mut [f64], rows: usize, n: usize, inv_n: f64)
    requires { Sized rows n (length fc.old) }
    ensures { fc.new ≡ lines.row_drifts rows n inv_n fc.old }
{
    for i in 0..rows {
        line_drift(fc, index_of(i, n, 0), 1, n, inv_n);
    }
}

// Blocks a and b become the mean of the one and the other transposed.
pub fn average_pair(fc: &mut [f64], a: usize, b: usize)
    requires { Inside a b (length fc.old) }
    ensures { fc.new ≡ lines.pair_at a b fc.old }
{
    let one = blocks::read9(fc, a);
    let other = blocks::read9(fc, b);
    let m = averaged(one, other);
    blocks::write9(fc, a, m);
    blocks::write9(fc, b, blocks::transposed9(m));
}

// The off-site sums of a row of n blocks: block b, that of atom own in the row, is left out.
pub fn other_sums(fc: &[f64], b: usize, own: SuperAtom, n: usize) -> [[f64; 3]; 3]
    requires { RowOf b own.0 n (length fc.now) }
    ensures { result ≡ lines.others n b own.0 fc.now }
{
    let before = own.0;
    let s = line_sums(fc, [[0.0f64; 3]; 3], b - before, 1, before);
    line_sums(fc, s, b + 1, 1, n - before - 1)
}
