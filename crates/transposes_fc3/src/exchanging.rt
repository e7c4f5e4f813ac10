// How two blocks of third order change places, each permuted as a type of transpose says.
ghost use Rattle.std.specs.Prelude.{◌≡◌, ◌+◌, ◌*◌, ◌≤◌, length};
ghost use Rattle.blocks.specs.Block.{block, put_block};
ghost use Rattle.blocks.specs.Permuted.{permuted as permutedBy, permuted_block};
ghost use Rattle.places.specs.Moves.{order};
ghost use Rattle.orbits.specs.Trading.{the_other};
ghost use Rattle.orbits.specs.BlockPairs.{joined_pair};
ghost use Rattle.transposes_fc3.specs.Nines.{turned};

use places::index_of;

// Blocks a and b change places, each with directions 0 and 1 exchanged (type 0).
pub fn exchange0(fc3: &mut [f64], a: usize, b: usize)
    requires { (a * 27 + 27 ≤ length fc3.old) × (b * 27 + 27 ≤ length fc3.old) }
    ensures { fc3.new ≡ joined_pair the_other 27 (permutedBy 2 (order 0)) a b fc3.old }
{
    let one = blocks::read27(fc3, a);
    let other = blocks::read27(fc3, b);
    blocks::write27(fc3, a, blocks::permute::permute_mln(other));
    blocks::write27(fc3, b, blocks::permute::permute_mln(one));
}

// Blocks a and b change places, each with directions 0 and 2 exchanged (type 1).
pub fn exchange1(fc3: &mut [f64], a: usize, b: usize)
    requires { (a * 27 + 27 ≤ length fc3.old) × (b * 27 + 27 ≤ length fc3.old) }
    ensures { fc3.new ≡ joined_pair the_other 27 (permutedBy 2 (order 1)) a b fc3.old }
{
    let one = blocks::read27(fc3, a);
    let other = blocks::read27(fc3, b);
    blocks::write27(fc3, a, blocks::permute::permute_nml(other));
    blocks::write27(fc3, b, blocks::permute::permute_nml(one));
}

// Blocks a and b change places whole.
fn swap_blocks(fc3: &mut [f64], a: usize, b: usize)
    requires { (a * 27 + 27 ≤ length fc3.old) × (b * 27 + 27 ≤ length fc3.old) }
    ensures { fc3.new ≡ put_block 27 b (block 27 a fc3.old) (put_block 27 a (block 27 b fc3.old) fc3.old) }
{
    let one = blocks::read27(fc3, a);
    let other = blocks::read27(fc3, b);
    blocks::write27(fc3, a, other);
    blocks::write27(fc3, b, one);
}

// Block g of nine numbers is transposed where it stands.
fn transpose_nine(fc3: &mut [f64], g: usize)
    requires { g * 9 + 9 ≤ length fc3.old }
    ensures { fc3.new ≡ turned g fc3.old }
{
    let v = blocks::read9(fc3, g);
    blocks::write9(fc3, g, blocks::transposed9(v));
}

// Block b where it stands, with directions 1 and 2 exchanged: they are the directions of its three blocks of nine numbers.
fn permute2(fc3: &mut [f64], b: usize)
    requires { b * 27 + 27 ≤ length fc3.old }
    ensures { fc3.new ≡ put_block 27 b (permuted_block 27 (permutedBy 2 (order 2)) (block 27 b fc3.old)) fc3.old }
{
    transpose_nine(fc3, index_of(b, 3, 0));
    transpose_nine(fc3, index_of(b, 3, 1));
    transpose_nine(fc3, index_of(b, 3, 2));
}

// Blocks a and b change places, each with directions 1 and 2 exchanged (type 2). They are moved first and permuted then: with both at once 54 numbers are
// on the way, of which the registers hold 16, while whole blocks move two numbers to a register and permuting touches only the numbers off the diagonal.
pub fn exchange2(fc3: &mut [f64], a: usize, b: usize)
    requires { (a * 27 + 27 ≤ length fc3.old) × (b * 27 + 27 ≤ length fc3.old) }
    ensures { fc3.new ≡ joined_pair the_other 27 (permutedBy 2 (order 2)) a b fc3.old }
{
    if a == b {
        permute2(fc3, a);
        return;
    }
    swap_blocks(fc3, a, b);
    permute2(fc3, a);
    permute2(fc3, b);
}
