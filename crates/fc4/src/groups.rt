// A group of blocks of fourth order: the means over the 24 permutations of four legs, and the blocks that they are written to.
ghost use Rattle.std.specs.Prelude.{◌≡◌, length};
ghost use Rattle.places.specs.Permutations.{perms4};
ghost use Rattle.orbits.specs.Groups.{mean_block, spread_block};
ghost use Rattle.fc4.specs.Mean24.{mean24};
ghost use Rattle.positions.specs.Positions.{address_table};
ghost use Rattle.fc4.specs.Mean.{Blocks24};

use crate::mean::group_means;
use crate::spread::put_blocks;

// A group worked out and written: all 24 places of each mean are read, and the mean is written to all 24.
pub fn work_group(fc4: &mut [f64], bs: &[usize; 24], t: &[u8; 1944])
    requires { Blocks24 (length fc4.old) bs.now × (t.now ≡ address_table) }
    ensures { fc4.new ≡ spread_block 3 perms4 bs.now (mean_block mean24 3 perms4 bs.now fc4.old) fc4.old }
{
    let v = group_means(fc4, bs, t);
    put_blocks(fc4, bs, t, v);
}
