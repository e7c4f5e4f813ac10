// The crystal reports: how far a set is from obeying the crystal's own operations, each a Cartesian matrix and a map of the atoms. The guard of the
// operations.
#![tactic(auto)]

pub mod any_order;
pub mod fourth;
pub mod second;
pub mod third;

ghost use Rattle.std.specs.Prelude.{◌≡◌, ◌≤◌};
ghost use Rattle.tables.specs.Answers.{number_of};
ghost use Rattle.crystal.specs.Crystal.{judged_operations, earlier as earlier_of};

use tables::Refusal;
use tables::index::all_below;

// The most operations of a call.
const MOST: usize = 1024;

// Refusals 1, 2 and 3 of num_rot operations on n atoms.
fn judge_operations(
    n: usize,
    num_rot: usize,
    carts_len: usize,
    operations: &[i64],
) -> Result<(), Refusal>
    requires { n ≤ 1024 }
    ensures { result ≡ judged_operations n num_rot carts_len operations.now }
{
    if num_rot > MOST {
        return Err(Refusal::CountAboveLimit);
    }
    if carts_len != num_rot * 9 {
        return Err(Refusal::WrongLength);
    }
    if operations.len() != num_rot * n {
        return Err(Refusal::WrongLength);
    }
    if !all_below(operations, n) {
        return Err(Refusal::IndexOutOfRange);
    }
    Ok(())
}

// Of two answers the refusal that comes first.
#[tactic(auto, unfolding(crate::specs::Crystal::earlier))]
fn earlier(a: Result<(), Refusal>, b: Result<(), Refusal>) -> Result<(), Refusal>
    ensures { result ≡ earlier_of a b }
{
    match (a, b) {
        (Ok(()), _) => b,
        (Err(r), Err(q)) if u8::from(q) < u8::from(r) => b,
        (Err(_), _) => a,
    }
}

// The answer a to the set, and that to the operations on its n atoms. Where a count of the set is above its limit nothing else is looked at.
pub fn judge(
    a: Result<(), Refusal>,
    n: usize,
    num_rot: usize,
    carts_len: usize,
    operations: &[i64],
) -> Result<(), Refusal>
    requires { (number_of a ≡ 1 → ⊥) → n ≤ 1024 }
    ensures { result ≡ earlier_of a (judged_operations n num_rot carts_len operations.now) }
{
    if tables::is_above_limit(a) {
        return a;
    }
    let b = judge_operations(n, num_rot, carts_len, operations);
    earlier(a, b)
}
