// Where the parts of a roll stand.
ghost use Rattle.std.specs.Prelude.{◌≡◌, ◌+◌, ◌*◌, ◌-◌, ◌≤◌, ◌<◌, length};
ghost use Rattle.roll.specs.Reading.{four_at, size_at};

use super::numbers::four;

// The kinds of a record, by their numbers in a roll.
// Bytes that are no roll have any number there and each test asks for one kind, so a byte is compared with that kind's number: no plainer by
// `TryFrom`.
#[derive(Clone, Copy)]
pub enum Kind {
    Delivery = 1,
    Replacement = 2,
    Retirement = 3,
}

// The record count of a roll in the first len bytes.
pub fn count_in(b: &[u8], len: usize) -> usize
    requires { (8 ≤ len) × (len ≤ length b.now) }
    ensures { (result ≡ four_at b.now (len - 8)) × (result < 4294967296) }
{
    four(b, len - 8)
}

// Where its trailer begins.
pub fn trailer_in(b: &[u8], len: usize) -> usize
    requires { (8 ≤ len) × (len ≤ length b.now) }
    ensures { (result ≡ four_at b.now (len - 4)) × (result < 4294967296) }
{
    four(b, len - 4)
}

// Where number i of the trailer's list stands, 4 bytes each, the first at t. The record count stands where one more number would.
pub fn listed_at(t: usize, i: usize) -> usize
    requires { t + 4 * i < 18446744073709551616 }
    ensures { result ≡ t + 4 * i }
{
    t + 4 * i
}

// The set's number in the record at `at`.
pub fn set_at(b: &[u8], at: usize) -> usize
    requires { at + 10 ≤ length b.now }
    ensures { (result ≡ four_at b.now (at + 1)) × (result < 4294967296) }
{
    four(b, at + 1)
}

// The earlier set's number in it.
pub fn earlier_at(b: &[u8], at: usize) -> usize
    requires { at + 10 ≤ length b.now }
    ensures { (result ≡ four_at b.now (at + 5)) × (result < 4294967296) }
{
    four(b, at + 5)
}

// Where the record at `at` ends: after 10 bytes, the last of them the label's length, and the label.
pub fn record_end(b: &[u8], at: usize) -> usize
    requires { at + 10 ≤ length b.now }
    ensures { result ≡ at + size_at b.now at }
{
    at + (10 + usize::from(b[at + 9]))
}
