// The permutations of the legs at the places of one block, whatever the rank. bs has the block of each permutation, with width numbers in each; t has
// the position that each permutation gives to each position of a block, a row for each. The numbers are compared where they stand in the set.
ghost use Rattle.std.specs.Prelude.{◌≡◌, true, ◌+◌, ◌*◌, ◌≤◌, ◌<◌, length, get_or};
ghost use Rattle.std.specs.Float.{nan};
ghost use Rattle.lists.specs.Tests.{some};
ghost use Rattle.lists.specs.Lowest.{lowest};
ghost use Rattle.audits.specs.Kernel.{BlocksFit, there, another, first_position, seen_before, looked, difference_in};

use crate::{Difference, differ};
use places::index_of;

// The number at position k of block b.
pub fn own(fc: &[f64], width: usize, b: usize, k: usize) -> f64
    requires { b * width + k < length fc.now }
    ensures { result ≡ get_or fc.now (b * width + k) nan }
{
    fc[index_of(b, width, k)]
}

// The position that permutation i gives to position k.
fn position(t: &[u8], width: usize, i: usize, k: usize) -> usize
    requires { (length t.now ≤ 1944) × (i * width + k < length t.now) × (get_or t.now (i * width + k) 0 < 81) }
    ensures { result ≡ get_or t.now (i * width + k) 0 }
{
    t[index_of(i, width, k)] as usize
}

// The number that permutation i reads at position k.
pub fn read(fc: &[f64], bs: &[usize], t: &[u8], width: usize, i: usize, k: usize) -> f64
    requires { (i < length bs.now)
        × (length t.now ≤ 1944)
        × (i * width + k < length t.now)
        × (get_or t.now (i * width + k) 0 < 81)
        × (get_or bs.now i 0 * width + get_or t.now (i * width + k) 0 < length fc.now) }
    ensures { result ≡ there width bs.now t.now fc.now i k }
{
    own(fc, width, bs[i], position(t, width, i, k))
}

// The first position below `until` at which permutation i reads another number than stands in block b, or `until`.
fn first_unlike(
    fc: &[f64],
    bs: &[usize],
    t: &[u8],
    width: usize,
    b: usize,
    i: usize,
    until: usize,
) -> usize
    requires { BlocksFit (length fc.now) width b bs.now t.now × (i < length bs.now) × (until ≤ width) }
    ensures { result ≡ lowest until (λ k. another width bs.now t.now fc.now b k i) }
{
    for k in 0..until {
        if differ(own(fc, width, b, k), read(fc, bs, t, width, i, k)) {
            return k;
        }
    }
    until
}

// The first position of block b at which some permutation reads another number, or width. The first permutation changes nothing.
fn first_position(fc: &[f64], bs: &[usize], t: &[u8], width: usize, b: usize) -> usize
    requires { BlocksFit (length fc.now) width b bs.now t.now }
    ensures { result ≡ first_position width bs.now t.now fc.now b }
{
    let mut until = width;
    for i in 1..bs.len() {
        until = first_unlike(fc, bs, t, width, b, i, until);
    }
    until
}

// The first permutation that reads another number at position k of block b, or their count.
fn first_order(fc: &[f64], bs: &[usize], t: &[u8], width: usize, b: usize, k: usize) -> usize
    requires { BlocksFit (length fc.now) width b bs.now t.now × (k < width) }
    ensures { result ≡ lowest (length bs.now) (another width bs.now t.now fc.now b k) }
{
    for i in 0..bs.len() {
        if differ(own(fc, width, b, k), read(fc, bs, t, width, i, k)) {
            return i;
        }
    }
    bs.len()
}

// Whether one of the blocks is before b.
fn seen_before(bs: &[usize], b: usize) -> bool
    ensures { result ≡ seen_before bs.now b }
{
    for x in bs {
        if *x < b {
            return true;
        }
    }
    false
}

// Looks at block b: the first position at which some permutation reads another number, or width. Where a block of the group is before b, all numbers of
// the group were compared there.
pub fn look(fc: &[f64], bs: &[usize], t: &[u8], width: usize, b: usize) -> usize
    requires { BlocksFit (length fc.now) width b bs.now t.now }
    ensures { result ≡ looked width bs.now t.now fc.now b }
{
    if seen_before(bs, b) {
        return width;
    }
    first_position(fc, bs, t, width, b)
}

// What was found at position k of block b.
pub fn difference(
    fc: &[f64],
    bs: &[usize],
    t: &[u8],
    width: usize,
    b: usize,
    k: usize,
) -> Difference
    requires { BlocksFit (length fc.now) width b bs.now t.now
        × (k < width)
        × (some (length bs.now) (another width bs.now t.now fc.now b k) ≡ true) }
    ensures { result ≡ difference_in width bs.now t.now fc.now b k }
{
    let place = index_of(b, width, k);
    let i = first_order(fc, bs, t, width, b, k);
    let here = own(fc, width, b, k);
    let there = read(fc, bs, t, width, i, k);
    Difference {
        place: place,
        order: i,
        here: here,
        there: there,
    }
}
