// How far two sets are apart: how much a step changed a set.
ghost use Rattle.std.specs.Prelude.{◌≡◌};
ghost use Rattle.reports.specs.Sets.{set_difference};

use crate::seen::{look_differences, start};
use crate::{Report, conclude};
use tables::Refusal;

// The worst difference between the numbers of two sets, and its address. The second is to have the length of the first.
pub fn set_difference(a: &[f64], b: &[f64]) -> Result<Report, Refusal>
    ensures { result ≡ set_difference a.now b.now }
{
    if b.len() != a.len() {
        return Err(Refusal::WrongLength);
    }
    let seen = look_differences(a, b, 0, start());
    Ok(conclude(seen))
}
