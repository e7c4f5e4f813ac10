// Blocks of 9, 27 and 81 numbers of a set as whole values: one for each pair, triple or quadruple of atoms.
// A block is named by its number b; where it stands in the set is worked out here only.
#![tactic(auto)]

pub mod permute;
pub mod sized;

ghost use Rattle.std.specs.Prelude.{◌≡◌, length, ◌+◌, ◌*◌, ◌≤◌};
ghost use Rattle.blocks.specs.Block.{block, put_block};
ghost use Rattle.blocks.specs.Block9.{transposed9 as transposed, joined27};

// Block b of a set of second order.
pub fn read9(fc: &[f64], b: usize) -> [f64; 9]
    requires { b * 9 + 9 ≤ length fc.now }
    ensures { result ≡ block 9 b fc.now }
{
    let at = b * 9;
    let mut r = [0.0f64; 9];
    lists::copy_all(&mut r, &fc[at..at + 9]);
    r
}

// Three blocks of nine as one of 27.
fn join27(x: [f64; 9], y: [f64; 9], z: [f64; 9]) -> [f64; 27]
    ensures { result ≡ joined27 x y z }
{
    [
        x[0], x[1], x[2], x[3], x[4], x[5], x[6], x[7], x[8], y[0], y[1], y[2], y[3], y[4], y[5],
        y[6], y[7], y[8], z[0], z[1], z[2], z[3], z[4], z[5], z[6], z[7], z[8],
    ]
}

// Block b of a set of third order: 27 single loads, which the compiler keeps in registers, where a copy of 27 numbers is a call of memcpy.
pub fn read27(fc: &[f64], b: usize) -> [f64; 27]
    requires { b * 27 + 27 ≤ length fc.now }
    ensures { result ≡ block 27 b fc.now }
{
    let g = b * 3;
    let x = read9(fc, g);
    let y = read9(fc, g + 1);
    let z = read9(fc, g + 2);
    join27(x, y, z)
}

// Block b of a set of fourth order.
pub fn read81(fc: &[f64], b: usize) -> [f64; 81]
    requires { b * 81 + 81 ≤ length fc.now }
    ensures { result ≡ block 81 b fc.now }
{
    let at = b * 81;
    let mut r = [0.0f64; 81];
    lists::copy_all(&mut r, &fc[at..at + 81]);
    r
}

// Puts v in the place of block b of a set of second order.
pub fn write9(fc: &mut [f64], b: usize, v: [f64; 9])
    requires { b * 9 + 9 ≤ length fc.old }
    ensures { fc.new ≡ put_block 9 b v fc.old }
{
    let at = b * 9;
    lists::copy_all(&mut fc[at..at + 9], &v);
}

// Puts v in the place of block b of a set of third order.
pub fn write27(fc: &mut [f64], b: usize, v: [f64; 27])
    requires { b * 27 + 27 ≤ length fc.old }
    ensures { fc.new ≡ put_block 27 b v fc.old }
{
    let at = b * 27;
    lists::copy_all(&mut fc[at..at + 27], &v);
}

// Puts v in the place of block b of a set of fourth order.
pub fn write81(fc: &mut [f64], b: usize, v: [f64; 81])
    requires { b * 81 + 81 ≤ length fc.old }
    ensures { fc.new ≡ put_block 81 b v fc.old }
{
    let at = b * 81;
    lists::copy_all(&mut fc[at..at + 81], &v);
}

// A 3 by 3 block or matrix with rows and columns exchanged.
pub fn transposed9(b: [f64; 9]) -> [f64; 9]
    ensures { result ≡ transposed b }
{
    [b[0], b[3], b[6], b[1], b[4], b[7], b[2], b[5], b[8]]
}
