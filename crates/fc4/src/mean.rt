// The means over the 24 permutations of four legs, for a group of blocks.
ghost use Rattle.std.specs.Prelude.{◌≡◌, [], ◌<◌, length, get_or};
ghost use Rattle.places.specs.Permutations.{perms4};
ghost use Rattle.orbits.specs.Groups.{mean_block};
ghost use Rattle.fc4.specs.Mean24.{mean24};
ghost use Rattle.positions.specs.Positions.{address_table};
ghost use Rattle.fc4.specs.Mean.{Blocks24, Group24, group_of, added_nine, nine_sums, divided as dividedOf};

use places::index_of;
use positions::entry;

// The 24 blocks of a group, as values.
fn read_group(fc4: &[f64], bs: &[usize; 24]) -> [[f64; 81]; 24]
    requires { Blocks24 (length fc4.now) bs.now }
    ensures { result ≡ group_of fc4.now bs.now }
{
    let mut g = [[0.0f64; 81]; 24];
    for s in 0..24 {
        g[s] = blocks::read81(fc4, bs[s]);
    }
    g
}

// To the sums of positions 9 h to 9 h + 8 the numbers of block s are added, each from the position that permutation s gives it.
fn add_nine(sums: [f64; 9], g: &[[f64; 81]; 24], t: &[u8; 1944], s: usize, h: usize) -> [f64; 9]
    requires { Group24 g.now × (t.now ≡ address_table) × (s < 24) × (h < 9) }
    ensures { result ≡ added_nine s h (get_or g.now s []) sums }
{
    let mut r = [0.0f64; 9];
    for k in 0..9 {
        let q = entry(t, s, index_of(h, 9, k)) as usize;
        r[k] = sums[k] + g[s][q];
    }
    r
}

// Nine sums at a time, because so many stay in registers. Block after block, so that each sum has its terms in the order of the 24 permutations, from 0.0.
fn nine_sums(g: &[[f64; 81]; 24], t: &[u8; 1944], h: usize) -> [f64; 9]
    requires { Group24 g.now × (t.now ≡ address_table) × (h < 9) }
    ensures { result ≡ nine_sums g.now h }
{
    let mut sums = [0.0f64; 9];
    for s in 0..24 {
        let more = add_nine(sums, g, t, s, h);
        sums = more;
    }
    sums
}

// Each sum divided by 24.
fn divided(sums: [f64; 9]) -> [f64; 9]
    ensures { result ≡ dividedOf sums }
{
    let mut r = [0.0f64; 9];
    for k in 0..9 {
        r[k] = sums[k] / 24.0;
    }
    r
}

// The means of a group whose blocks are given in the order of the 24 permutations.
pub fn group_means(fc4: &[f64], bs: &[usize; 24], t: &[u8; 1944]) -> [f64; 81]
    requires { Blocks24 (length fc4.now) bs.now × (t.now ≡ address_table) }
    ensures { result ≡ mean_block mean24 3 perms4 bs.now fc4.now }
{
    let g = read_group(fc4, bs);
    let mut v = [0.0f64; 81];
    for h in 0..9 {
        let nine = divided(nine_sums(&g, t, h));
        blocks::write9(&mut v, h, nine);
    }
    v
}
