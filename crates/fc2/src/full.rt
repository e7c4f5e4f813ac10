// The full symmetrizer of second order (fc2.rs, perm_trans_symmetrize_fc).
ghost use Rattle.std.specs.Prelude.{◌≡◌, ◌<◌, length};
ghost use Rattle.fc2.specs.Full.{judged_full_levels, symmetrized_full, perm_trans_symmetrize_fc};
ghost use Rattle.fc2.specs.FullLoops as loops;
ghost use Rattle.lines.specs.Lines.{Inside, Sized};

use crate::columns::column_drift;
use lines::nines::balance;
use places::full2;
use tables::Refusal;
use tables::atoms::SuperAtom;

// The mean of an on-site block and itself transposed; its own diagonal is left alone, as in the Rust.
fn evened(b: [f64; 9]) -> [f64; 9]
    ensures { result ≡ loops.evened b }
{
    let x = (b[1] + b[3]) / 2.0;
    let y = (b[2] + b[6]) / 2.0;
    let z = (b[5] + b[7]) / 2.0;
    [b[0], x, y, x, b[4], z, y, z, b[8]]
}

// Atom i with the atoms before it.
fn average_before(fc: &mut [f64], n: usize, i: usize)
    requires sized { Sized n n (length fc.old) }
    requires i_lt_n { i < n }
    ensures { fc.new ≡ loops.pairs_before n i fc.old }
{
    for j in 0..i {
        let b = full2(SuperAtom(j), SuperAtom(i), n);
        let c = full2(SuperAtom(i), SuperAtom(j), n);
        lines::average_pair(fc, b, c);
    }
}

fn average_own(fc: &mut [f64], b: usize)
    requires { Inside b b (length fc.old) }
    ensures { fc.new ≡ loops.own_at b fc.old }
{
    let own = blocks::read9(fc, b);
    blocks::write9(fc, b, evened(own));
}

fn set_index_permutation_symmetry_fc(fc: &mut [f64], n: usize)
    requires { Sized n n (length fc.old) }
    ensures { fc.new ≡ loops.pairs n fc.old }
{
    for i in 0..n {
        average_before(fc, n, i);
        let b = full2(SuperAtom(i), SuperAtom(i), n);
        average_own(fc, b);
    }
}

// The on-site blocks by the acoustic sum rule, each from the sums over the other atoms.
fn set_translational_symmetry_fc(fc: &mut [f64], n: usize)
    requires { Sized n n (length fc.old) }
    ensures { fc.new ≡ loops.diagonals n fc.old }
{
    for i in 0..n {
        let b = full2(SuperAtom(i), SuperAtom(i), n);
        let s = lines::other_sums(fc, b, SuperAtom(i), n);
        blocks::write9(fc, b, balance(s));
    }
}

fn one_level(fc: &mut [f64], n: usize, inv_n: f64)
    requires { Sized n n (length fc.old) }
    ensures { fc.new ≡ loops.swept n inv_n fc.old }
{
    column_drift(fc, n, inv_n);
    lines::row_drift(fc, n, n, inv_n);
    set_index_permutation_symmetry_fc(fc, n);
}

fn symmetrize(fc: &mut [f64], n: usize, level: usize)
    requires { Sized n n (length fc.old) }
    ensures { fc.new ≡ symmetrized_full n level fc.old }
{
    let inv_n = 1.0 / (n as f64);
    for t in 0..level {
        one_level(fc, n, inv_n);
    }
    set_translational_symmetry_fc(fc, n);
}

fn judge_levels(len: usize, n: usize, level: usize) -> Result<(), Refusal>
    ensures { result ≡ judged_full_levels «len» n level }
{
    if level > tables::limits::LIMIT_LEVEL {
        return Err(Refusal::CountAboveLimit);
    }
    tables::sets::judge_full(tables::limits::LIMIT2, 1, len, n)
}

// Symmetrizes a full set (document 01, "Second order"): per level column drift, row drift and pair averages, at the end the on-site blocks.
pub fn perm_trans_symmetrize_fc(fc: &mut [f64], n_satom: usize, level: usize) -> Result<(), Refusal>
    ensures { (result, fc.new) ≡ perm_trans_symmetrize_fc fc.old n_satom level }
{
    judge_levels(fc.len(), n_satom, level)?;
    symmetrize(fc, n_satom, level);
    Ok(())
}
