// The means of a group written back to its blocks. Where permutations of the legs lead to the same block, a place is written for several
// positions and keeps the last value, that of the greatest position: so each block is made of the means as a value, and written.
ghost use Rattle.std.specs.Prelude.{◌≡◌, ◌<◌, ◌≤◌, max, length, get_or};
ghost use Rattle.places.specs.Permutations.{perms4};
ghost use Rattle.orbits.specs.Groups.{spread_block};
ghost use Rattle.positions.specs.Positions.{address_table};
ghost use Rattle.fc4.specs.Mean.{Blocks24};
ghost use Rattle.positions.specs.Inverses.{inverses};
ghost use Rattle.fc4.specs.Spread.{later_of, sources_of, NextBlock};

use positions::entry;

// The permutations that undo the 24, by their numbers.
const INVERSES: [usize; 24] = [
    0, 1, 2, 4, 3, 5, 6, 7, 12, 18, 13, 19, 8, 10, 14, 20, 16, 22, 9, 11, 15, 21, 17, 23,
];

fn inverse_permutations() -> [usize; 24]
    ensures { result ≡ inverses }
{
    INVERSES
}

// The later of two positions.
fn later_of(a: u8, b: u8) -> u8
    ensures { result ≡ max a b }
{
    if a < b {
        return b;
    }
    a
}

// Place by place the later of the position in m and the one that permutation s gives.
fn later(m: [u8; 81], t: &[u8; 1944], s: usize) -> [u8; 81]
    requires { (t.now ≡ address_table) × (s < 24) }
    ensures { result ≡ later_of s m }
{
    let mut r = [0u8; 81];
    for k in 0..81 {
        r[k] = later_of(m[k], entry(t, s, k));
    }
    r
}

// The position that each place of block b gets its mean from: the last one that is written there. The inverse of a permutation that leads to
// the block tells which position each place is written from.
fn sources(bs: &[usize; 24], inverse: &[usize; 24], t: &[u8; 1944], b: usize) -> [u8; 81]
    requires { (inverse.now ≡ inverses) × (t.now ≡ address_table) }
    ensures { result ≡ sources_of bs.now b }
{
    let mut m = [0u8; 81];
    for s in 0..24 {
        if bs[s] == b {
            let n = later(m, t, inverse[s]);
            m = n;
        }
    }
    m
}

// A permutation, up to permutation s, that leads to the same block as s: s itself, if no earlier one does.
fn first_alike(bs: &[usize; 24], s: usize) -> usize
    requires { s < 24 }
    ensures { (result ≤ s) × (get_or bs.now result 0 ≡ get_or bs.now s 0) }
{
    for r in 0..s {
        if bs[r] == bs[s] {
            return r;
        }
    }
    s
}

// The next permutation, from permutation s on, whose block no earlier one leads to; 24 if there is none.
fn next_block(bs: &[usize; 24], s: usize) -> usize
    requires { s ≤ 24 }
    ensures { NextBlock bs.now s result }
{
    for n in s..24 {
        if first_alike(bs, n) == n {
            return n;
        }
    }
    24
}

// Each block once: made of the means as a value, and written. The loop over its places stands here, where the means are, because a function
// of its own would be given a copy of the means for each block.
pub fn put_blocks(fc4: &mut [f64], bs: &[usize; 24], t: &[u8; 1944], v: [f64; 81])
    requires { Blocks24 (length fc4.old) bs.now × (t.now ≡ address_table) }
    ensures { fc4.new ≡ spread_block 3 perms4 bs.now v fc4.old }
{
    let inverse = inverse_permutations();
    let mut s = 0;
    // Not a count: each turn goes on to the next block that is not written yet.
    while s < 24 {
        let m = sources(bs, &inverse, t, bs[s]);
        let mut block = [0.0f64; 81];
        for k in 0..81 {
            let q = m[k] as usize;
            block[k] = v[q];
        }
        blocks::write81(fc4, bs[s], block);
        s = next_block(bs, s + 1);
    }
}
