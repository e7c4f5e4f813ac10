// A group worked out and written: all six places of each mean are read, and the mean is written to all six. Whole blocks are written, each once, but for
// groups whose blocks coincide in another way than those of two or three equal atoms.
ghost use Rattle.std.specs.Prelude.{◌≡◌, true, [], ◌∷◌, ◌+◌, ◌*◌, ◌≤◌, length};
ghost use Rattle.places.specs.Permutations.{perms3};
ghost use Rattle.orbits.specs.Groups.{mean_block, spread_block, Apart, Distinct};
ghost use Rattle.fc3.specs.Mean.{mean6, Blocks6};
ghost use Rattle.fc3.specs.Repeated.{Pairs};

use crate::later::{later_lnm, later_mln};
use crate::means::{any_means, group_means, means_first_two, means_last_two};
use crate::spots::put_positions;

// A group of six different blocks. The order of writing is the fastest that was found; it makes no difference to the set.
pub fn work_distinct(
    fc3: &mut [f64],
    b0: usize,
    b1: usize,
    b2: usize,
    b3: usize,
    b4: usize,
    b5: usize,
)
    requires { Blocks6 (length fc3.old) b0 b1 b2 b3 b4 b5 × Distinct (b0 ∷ b1 ∷ b2 ∷ b3 ∷ b4 ∷ b5 ∷ []) }
    ensures { fc3.new
        ≡ spread_block 2 perms3 (b0 ∷ b1 ∷ b2 ∷ b3 ∷ b4 ∷ b5 ∷ []) (mean_block mean6 2 perms3 (b0 ∷ b1 ∷ b2 ∷ b3 ∷ b4 ∷ b5 ∷ []) fc3.old)
        fc3.old }
{
    let v = group_means(fc3, b0, b1, b2, b3, b4, b5);
    blocks::write27(fc3, b2, blocks::permute::permute_mln(v));
    blocks::write27(fc3, b0, v);
    blocks::write27(fc3, b4, blocks::permute::permute_mnl(v));
    blocks::write27(fc3, b1, blocks::permute::permute_lnm(v));
    blocks::write27(fc3, b5, blocks::permute::permute_nml(v));
    blocks::write27(fc3, b3, blocks::permute::permute_nlm(v));
}

// The three blocks aac, aca and caa of a group whose first two atoms are the same.
pub fn work_first_two(fc3: &mut [f64], aac: usize, aca: usize, caa: usize)
    requires { Blocks6 (length fc3.old) aac aca aac aca caa caa × Distinct (aac ∷ aca ∷ caa ∷ []) }
    ensures { fc3.new
        ≡ spread_block 2 perms3 (aac ∷ aca ∷ aac ∷ aca ∷ caa ∷ caa ∷ []) (mean_block mean6 2 perms3 (aac ∷ aca ∷ aac ∷ aca ∷ caa ∷ caa ∷ []) fc3.old)
        fc3.old }
{
    let w = later_mln(means_first_two(fc3, aac, aca, caa));
    blocks::write27(fc3, aac, w);
    blocks::write27(fc3, aca, blocks::permute::permute_lnm(w));
    blocks::write27(fc3, caa, blocks::permute::permute_mnl(w));
}

// The three blocks abb, bab and bba of a group whose last two atoms are the same.
pub fn work_last_two(fc3: &mut [f64], abb: usize, bab: usize, bba: usize)
    requires { Blocks6 (length fc3.old) abb abb bab bba bab bba × Distinct (abb ∷ bab ∷ bba ∷ []) }
    ensures { fc3.new
        ≡ spread_block 2 perms3 (abb ∷ abb ∷ bab ∷ bba ∷ bab ∷ bba ∷ []) (mean_block mean6 2 perms3 (abb ∷ abb ∷ bab ∷ bba ∷ bab ∷ bba ∷ []) fc3.old)
        fc3.old }
{
    let w = later_lnm(means_last_two(fc3, abb, bab, bba));
    blocks::write27(fc3, abb, w);
    blocks::write27(fc3, bab, blocks::permute::permute_mln(w));
    blocks::write27(fc3, bba, blocks::permute::permute_nlm(w));
}

// The one block of a group whose atoms are all the same: of all six permutations of a position the number of the latest one.
pub fn work_same(fc3: &mut [f64], aaa: usize)
    requires { aaa * 27 + 27 ≤ length fc3.old }
    ensures { fc3.new
        ≡ spread_block 2 perms3 (aaa ∷ aaa ∷ aaa ∷ aaa ∷ aaa ∷ aaa ∷ []) (mean_block mean6 2 perms3 (aaa ∷ aaa ∷ aaa ∷ aaa ∷ aaa ∷ aaa ∷ []) fc3.old)
        fc3.old }
{
    let v = any_means(fc3, aaa, aaa, aaa, aaa, aaa, aaa);
    let w = later_mln(later_lnm(later_mln(v)));
    blocks::write27(fc3, aaa, w);
}

// Whether a differs from each of five numbers.
fn apart(a: usize, b: usize, c: usize, d: usize, e: usize, f: usize) -> bool
    ensures { result ≡ true → Apart a (b ∷ c ∷ d ∷ e ∷ f ∷ []) }
{
    if a == b {
        return false;
    }
    if a == c {
        return false;
    }
    if a == d {
        return false;
    }
    if a == e {
        return false;
    }
    a != f
}

// Whether six blocks are all different. Where fewer are left to compare, one is given more than once.
fn distinct(b0: usize, b1: usize, b2: usize, b3: usize, b4: usize, b5: usize) -> bool
    ensures { result ≡ true → Distinct (b0 ∷ b1 ∷ b2 ∷ b3 ∷ b4 ∷ b5 ∷ []) }
{
    if apart(b0, b1, b2, b3, b4, b5) {
        if apart(b1, b2, b3, b4, b5, b5) {
            if apart(b2, b3, b4, b5, b5, b5) {
                if apart(b3, b4, b5, b5, b5, b5) {
                    return b4 != b5;
                }
            }
        }
    }
    false
}

// Whether six blocks are three pairs of the same block, and the three are all different.
fn pairs(x: usize, x2: usize, y: usize, y2: usize, z: usize, z2: usize) -> bool
    ensures { result ≡ true → Pairs x x2 y y2 z z2 }
{
    if x2 == x {
        if y2 == y {
            if z2 == z {
                if apart(x, y, z, z, z, z) {
                    return y != z;
                }
            }
        }
    }
    false
}

// A group of which nothing is known.
pub fn work_group(fc3: &mut [f64], b0: usize, b1: usize, b2: usize, b3: usize, b4: usize, b5: usize)
    requires { Blocks6 (length fc3.old) b0 b1 b2 b3 b4 b5 }
    ensures { fc3.new
        ≡ spread_block 2 perms3 (b0 ∷ b1 ∷ b2 ∷ b3 ∷ b4 ∷ b5 ∷ []) (mean_block mean6 2 perms3 (b0 ∷ b1 ∷ b2 ∷ b3 ∷ b4 ∷ b5 ∷ []) fc3.old)
        fc3.old }
{
    if distinct(b0, b1, b2, b3, b4, b5) {
        work_distinct(fc3, b0, b1, b2, b3, b4, b5);
        return;
    }
    if pairs(b0, b2, b1, b3, b4, b5) {
        work_first_two(fc3, b0, b1, b4);
        return;
    }
    if pairs(b0, b1, b2, b4, b3, b5) {
        work_last_two(fc3, b0, b2, b3);
        return;
    }
    let v = any_means(fc3, b0, b1, b2, b3, b4, b5);
    put_positions(fc3, b0, b1, b2, b3, b4, b5, v);
}
