// How two blocks of fourth order change places, each with its directions permuted.
ghost use Rattle.std.specs.Prelude.{◌≡◌, true, ◌+◌, ◌*◌, ◌≤◌, length};
ghost use Rattle.blocks.specs.Block.{block, put_block};
ghost use Rattle.blocks.specs.Permuted.{permuted_block, permuted as permutedBy};
ghost use Rattle.places.specs.Moves.{order4};
ghost use Rattle.orbits.specs.Trading.{the_other};
ghost use Rattle.orbits.specs.BlockPairs.{joined_pair};
ghost use Rattle.transposes_fc4.specs.Runs.{traded};
ghost use Rattle.transposes_fc4.specs.Pairs.{Inside54, from_pairs, FirstTwo};

use places::index_of;

// Blocks a and b change places whole.
pub fn swap_blocks(fc4: &mut [f64], a: usize, b: usize)
    requires { (a * 81 + 81 ≤ length fc4.old) × (b * 81 + 81 ≤ length fc4.old) }
    ensures { fc4.new ≡ put_block 81 b (block 81 a fc4.old) (put_block 81 a (block 81 b fc4.old) fc4.old) }
{
    let one = blocks::read81(fc4, a);
    let other = blocks::read81(fc4, b);
    blocks::write81(fc4, a, other);
    blocks::write81(fc4, b, one);
}

// Blocks x and y of nine numbers change places.
fn swap_nines(fc4: &mut [f64], x: usize, y: usize)
    requires { (x * 9 + 9 ≤ length fc4.old) × (y * 9 + 9 ≤ length fc4.old) }
    ensures { fc4.new ≡ traded x y fc4.old }
{
    let one = blocks::read9(fc4, x);
    let other = blocks::read9(fc4, y);
    blocks::write9(fc4, x, other);
    blocks::write9(fc4, y, one);
}

// Block b where it stands, with its first two directions exchanged. They number its nine blocks of nine numbers: block (x, y) comes from block (y, x), so
// that (0, 0), (1, 1) and (2, 2) stay and the others change places in pairs.
fn permute_nines(fc4: &mut [f64], b: usize)
    requires { b * 81 + 81 ≤ length fc4.old }
    ensures { fc4.new ≡ put_block 81 b (permuted_block 81 (permutedBy 3 (order4 0)) (block 81 b fc4.old)) fc4.old }
{
    swap_nines(fc4, index_of(b, 9, 1), index_of(b, 9, 3));
    swap_nines(fc4, index_of(b, 9, 2), index_of(b, 9, 6));
    swap_nines(fc4, index_of(b, 9, 5), index_of(b, 9, 7));
}

// Blocks a and b change places, each with its first two directions exchanged: they are moved whole first, and permuted where they stand then, because a
// permuted copy of a block would be one copy more.
fn exchange_nines(fc4: &mut [f64], a: usize, b: usize)
    requires { (a * 81 + 81 ≤ length fc4.old) × (b * 81 + 81 ≤ length fc4.old) }
    ensures { fc4.new ≡ joined_pair the_other 81 (permutedBy 3 (order4 0)) a b fc4.old }
{
    if a == b {
        permute_nines(fc4, a);
        return;
    }
    swap_blocks(fc4, a, b);
    permute_nines(fc4, a);
    permute_nines(fc4, b);
}

// Block b where it stands, with 27 pairs of its numbers exchanged: those at positions m[n] and m[n + 27].
pub fn permute_pairs(fc4: &mut [f64], b: usize, m: &[u8; 54])
    requires { Inside54 m.now × (b * 81 + 81 ≤ length fc4.old) }
    ensures { fc4.new ≡ put_block 81 b (permuted_block 81 (from_pairs m.now 27) (block 81 b fc4.old)) fc4.old }
{
    for n in 0..27 {
        let x = index_of(b, 81, m[n] as usize);
        let y = index_of(b, 81, m[n + 27] as usize);
        let one = fc4[x];
        let other = fc4[y];
        fc4[x] = other;
        fc4[y] = one;
    }
}

// Blocks a and b change places, each with the pairs m of its numbers exchanged.
fn exchange_pairs(fc4: &mut [f64], m: &[u8; 54], a: usize, b: usize)
    requires { Inside54 m.now × (a * 81 + 81 ≤ length fc4.old) × (b * 81 + 81 ≤ length fc4.old) }
    ensures { fc4.new ≡ joined_pair the_other 81 (from_pairs m.now 27) a b fc4.old }
{
    if b == a {
        permute_pairs(fc4, a, m);
        return;
    }
    swap_blocks(fc4, a, b);
    permute_pairs(fc4, a, m);
    permute_pairs(fc4, b, m);
}

// The same; where the pairs exchange the first two directions, nine numbers stay side by side, which is faster.
pub fn exchange(fc4: &mut [f64], first_two: bool, m: &[u8; 54], a: usize, b: usize)
    requires { Inside54 m.now × (first_two ≡ true → FirstTwo m.now) × (a * 81 + 81 ≤ length fc4.old) × (b * 81 + 81 ≤ length fc4.old) }
    ensures { fc4.new ≡ joined_pair the_other 81 (from_pairs m.now 27) a b fc4.old }
{
    if first_two {
        exchange_nines(fc4, a, b);
        return;
    }
    exchange_pairs(fc4, m, a, b);
}
