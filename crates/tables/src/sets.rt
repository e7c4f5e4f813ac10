// How many blocks and numbers a set has, and the guard of every call on a full set.
ghost use Rattle.std.specs.Prelude.{◌≡◌, [], ℕ, ◌≤◌, ◌<◌, ◌^◌};
ghost use Rattle.lists.specs.Digits.{times_power};
ghost use Rattle.tables.specs.Lengths.{set_blocks, set_length};
ghost use Rattle.tables.specs.Full.{judged_full};

use super::Refusal;

// n · b · … · b, with k factors b.
fn times_power(b: usize, k: usize, n: usize) -> usize
    requires { (j : ℕ) → j ≤ k → times_power b j n < 2 ^ 64 }
    ensures { result ≡ times_power b k n }
{
    let mut x = n;
    for _ in 0..k {
        x *= b;
    }
    x
}

// The blocks of a set with so many first atoms and k more atoms of n each.
pub fn set_blocks(first: usize, n: usize, k: usize) -> usize
    requires { (first ≤ 1024) × (n ≤ 1024) × (k ≤ 3) }
    ensures { result ≡ set_blocks first n k }
{
    times_power(n, k, first)
}

// Its numbers.
pub fn set_length(first: usize, n: usize, k: usize) -> usize
    requires { (first ≤ 1024) × (n ≤ 1024) × (k ≤ 3) }
    ensures { result ≡ set_length first n k }
{
    let blocks = set_blocks(first, n, k);
    times_power(3, k + 1, blocks)
}

// Refusals 1 and 2 of a full set of n atoms, of rank m + 1.
pub fn judge_full(limit: usize, m: usize, len: usize, n: usize) -> Result<(), Refusal>
    requires { (limit ≤ 1024) × (m ≤ 3) }
    ensures { result ≡ judged_full limit m «len» [] n }
{
    if n > limit {
        return Err(Refusal::CountAboveLimit);
    }
    if len != set_length(n, n, m) {
        return Err(Refusal::WrongLength);
    }
    Ok(())
}
