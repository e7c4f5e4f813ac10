// A delivery roll (document 02, A.7): one file that lists what was delivered. What a roll is.
#![tactic(auto)]

ghost use Rattle.std.specs.Prelude.{◌≡◌};
ghost use Rattle.roll.specs.Reading.{roll_bytes};

pub mod append;
pub mod judge;
mod lay;
pub mod layout;
pub mod numbers;
pub mod read;
pub mod reading;

// The bytes of a roll that fills the first count bytes of a lent slice; none where the count passes the slice, and no bytes are no roll.
pub fn roll_bytes(lent: &[u8], count: usize) -> &[u8]
    ensures { result.now ≡ roll_bytes lent.now count }
{
    lent.get(..count).unwrap_or(&[])
}
