// Row sums of a full second-order set (document 02, A.10): made by a fresh pass, and kept up to date while pair blocks are replaced.
#![tactic(auto)]

ghost use Rattle.std.specs.Prelude.{◌≡◌, ◌*◌, length};
ghost use Rattle.lines.specs.Lines.{Sized};
ghost use Rattle.row_sums.specs.RowSums.{flat_sums as flatOf, corrected as correctedOf, row_sums, judged_sums, judged_block, judged_replace, row_sums_fc2, replaced, replace_block};
ghost use Rattle.row_sums.specs.Calls.{Ready};

use places::{full2, index_of};
use tables::Refusal;
use tables::atoms::SuperAtom;
use tables::limits::LIMIT2;
use tables::sets::judge_full;

// Refusals 1 and 2, which both calls have.
fn judge_lengths(fc_len: usize, sums_len: usize, n: usize) -> Result<(), Refusal>
    ensures { result ≡ judged_sums fc_len sums_len n }
{
    judge_full(LIMIT2, 1, fc_len, n)?;
    if sums_len == n * 9 {
        return Ok(());
    }
    Err(Refusal::WrongLength)
}

// ---- the sums afresh

// 3 by 3 sums as nine numbers, row after row.
fn flat(s: [[f64; 3]; 3]) -> [f64; 9]
    ensures { result ≡ flatOf s }
{
    [
        s[0][0], s[0][1], s[0][2], s[1][0], s[1][1], s[1][2], s[2][0], s[2][1], s[2][2],
    ]
}

// The nine sums of each atom.
fn sum_rows(sums: &mut [f64], fc: &[f64], n: usize)
    requires { Sized n n (length fc.now) × (length sums.old ≡ n * 9) }
    ensures { sums.new ≡ row_sums n fc.now }
{
    for i in 0..n {
        let s = lines::line_sums(fc, [[0.0f64; 3]; 3], index_of(i, n, 0), 1, n);
        blocks::write9(sums, i, flat(s));
    }
}

// The nine sums of each atom over the second atom, each from 0.0 and rising. What was in the slice has no influence.
pub fn row_sums_fc2(sums: &mut [f64], fc: &[f64], n_satom: usize) -> Result<(), Refusal>
    ensures { (result, sums.new) ≡ row_sums_fc2 sums.old fc.now n_satom }
{
    judge_lengths(fc.len(), sums.len(), n_satom)?;
    sum_rows(sums, fc, n_satom);
    Ok(())
}

// ---- a block replaced

// Nine sums, each less the old number and then plus the new one.
fn corrected(s: [f64; 9], old: [f64; 9], new: [f64; 9]) -> [f64; 9]
    ensures { result ≡ correctedOf s old new }
{
    [
        s[0] - old[0] + new[0],
        s[1] - old[1] + new[1],
        s[2] - old[2] + new[2],
        s[3] - old[3] + new[3],
        s[4] - old[4] + new[4],
        s[5] - old[5] + new[5],
        s[6] - old[6] + new[6],
        s[7] - old[7] + new[7],
        s[8] - old[8] + new[8],
    ]
}

// Refusal 3, and 10 after it.
fn judge_block(fc: &[f64], block: [f64; 9], i: usize, j: usize, n: usize) -> Result<(), Refusal>
    requires { Sized n n (length fc.now) }
    ensures { result ≡ judged_block fc.now block i j n }
{
    if i >= n {
        return Err(Refusal::IndexOutOfRange);
    }
    if j >= n {
        return Err(Refusal::IndexOutOfRange);
    }
    let old = blocks::read9(fc, full2(SuperAtom(i), SuperAtom(j), n));
    if grid::nine_on_grid(old) {
        if grid::nine_on_grid(block) {
            return Ok(());
        }
    }
    Err(Refusal::OffGrid)
}

fn judge(
    fc: &[f64],
    sums_len: usize,
    block: [f64; 9],
    i: usize,
    j: usize,
    n: usize,
) -> Result<(), Refusal>
    ensures { result ≡ judged_replace fc.now sums_len block i j n }
{
    judge_lengths(fc.len(), sums_len, n)?;
    judge_block(fc, block, i, j, n)
}

// Block (i, j) becomes the given one, and the nine sums of atom i follow.
fn replace(fc: &mut [f64], sums: &mut [f64], block: [f64; 9], i: usize, j: usize, n: usize)
    requires { Ready i j n (length fc.old) (length sums.old) }
    ensures { (fc.new, sums.new) ≡ replaced fc.old sums.old block i j n }
{
    let b = full2(SuperAtom(i), SuperAtom(j), n);
    let old = blocks::read9(fc, b);
    let s = blocks::read9(sums, i);
    blocks::write9(fc, b, block);
    blocks::write9(sums, i, corrected(s, old, block));
}

// Replaces block (i, j) and brings the sums of atom i up to date. On the grid, sums that were those of a fresh pass stay so, bit for bit.
pub fn replace_block_fc2(
    fc: &mut [f64],
    sums: &mut [f64],
    block: [f64; 9],
    i: usize,
    j: usize,
    n_satom: usize,
) -> Result<(), Refusal>
    ensures { (result, fc.new, sums.new) ≡ replace_block fc.old sums.old block i j n_satom }
{
    judge(fc, sums.len(), block, i, j, n_satom)?;
    replace(fc, sums, block, i, j, n_satom);
    Ok(())
}
