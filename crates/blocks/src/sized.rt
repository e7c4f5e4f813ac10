// Blocks of any one size.
ghost use Rattle.std.specs.Prelude.{◌≡◌, length, ◌+◌, ◌*◌, ◌≤◌};
ghost use Rattle.blocks.specs.Block.{block};

// Block b of a set in blocks of N numbers.
pub fn read<const N: usize>(fc: &[f64], b: usize) -> [f64; N]
    requires { b * N + N ≤ length fc.now }
    ensures { result ≡ block N b fc.now }
{
    let at = b * N;
    let mut r = [0.0f64; N];
    lists::copy_all(&mut r, &fc[at..at + N]);
    r
}
