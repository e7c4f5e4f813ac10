// Bytes laid over a slice, and integers in 4 bytes, the lowest first.
ghost use Rattle.std.specs.Prelude.{◌≡◌, ◌+◌, ◌%◌, ◌≤◌, length};
ghost use Rattle.roll.specs.Format.{in_four};
ghost use Rattle.roll.specs.Laid.{laid};

// Lays src over s from byte `at`.
pub fn lay(s: &mut [u8], at: usize, src: &[u8])
    requires { at + length src.now ≤ length s.old }
    ensures { s.new ≡ laid s.old at src.now }
{
    s[at..at + src.len()].copy_from_slice(src);
}

// Lays the lowest 4 bytes of a number over the 4 bytes at `at`.
pub fn lay_four(s: &mut [u8], at: usize, n: usize)
    requires { at + 4 ≤ length s.old }
    ensures { s.new ≡ laid s.old at (in_four n) }
{
    lay(s, at, &n.to_le_bytes()[..4]);
}
