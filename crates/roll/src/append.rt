// The appender of a delivery roll (document 02, A.7): the record over the old trailer, and a new trailer after it.
ghost use Rattle.std.specs.Prelude.{◌≡◌, true, ◌++◌, ◌+◌, ◌*◌, ◌≤◌, ◌<◌, length, take, drop};
ghost use Rattle.lists.specs.Tab.{tab};
ghost use Rattle.roll.specs.Format.{entry, bytes_of, in_four, in_fours};
ghost use Rattle.roll.specs.Reading.{record_start, holds_roll};
ghost use Rattle.roll.specs.AppendCalls.{number_of_appended, with_entry, judged_append, appended};
ghost use Rattle.roll.specs.Laid.{laid};

use crate::judge::{is_roll, is_ruled};
use crate::lay::{lay, lay_four};
use crate::layout::{count_in, listed_at, record_end, trailer_in};
use tables::Refusal;

// The number of the appender's answer; 0 is done.
pub fn number_of_appended(a: Result<usize, Refusal>) -> u8
    ensures { result ≡ number_of_appended a }
{
    match a {
        Ok(_) => 0,
        Err(r) => u8::from(r),
    }
}

// Lays a record over the bytes at `at`.
fn lay_record(s: &mut [u8], at: usize, kind: u8, set: usize, earlier: usize, label: &[u8])
    requires { (at + (10 + length label.now) ≤ length s.old) × (length label.now ≤ 255) }
    ensures { s.new ≡ laid s.old at (bytes_of (entry kind set earlier label.now)) }
{
    s[at] = kind;
    lay_four(s, at + 1, set);
    lay_four(s, at + 5, earlier);
    s[at + 9] = label.len() as u8;
    lay(s, at + 10, label);
}

// Lays the starts of n records, which end at t, over the bytes at t, in rising order.
fn lay_starts(s: &mut [u8], n: usize, t: usize)
    requires { (record_start s.old n ≡ t) × (t + 4 * n ≤ length s.old) }
    ensures { s.new ≡ laid s.old t (in_fours (tab n (record_start s.old))) }
{
    let mut at = 0;
    for i in 0..n {
        lay_four(s, listed_at(t, i), at);
        at = record_end(s, at);
    }
}

// Lays the trailer of n records, which end at t, over the bytes at t.
fn lay_trailer(s: &mut [u8], n: usize, t: usize)
    requires { (record_start s.old n ≡ t) × (t + 4 * n + 8 ≤ length s.old) }
    ensures { s.new ≡ laid s.old t (in_fours (tab n (record_start s.old)) ++ (in_four n ++ in_four t)) }
{
    lay_starts(s, n, t);
    let place = listed_at(t, n);
    lay_four(s, place, n);
    lay_four(s, place + 4, t);
}

// The appender's answer alone, with nothing written: how many bytes the new roll would have, or a refusal. 7 comes first of all, where the
// bytes are no roll, the slice has fewer than the count, or the record breaks a rule; 8 last, where the new roll would be too long for a roll
// or for the slice.
pub fn judge_append(
    lent: &[u8],
    count: usize,
    kind: u8,
    set: usize,
    earlier: usize,
    label: &[u8],
) -> Result<usize, Refusal>
    ensures { result ≡ judged_append lent.now count (entry kind set earlier label.now) }
{
    if !is_roll(lent, count) {
        return Err(Refusal::NotARoll);
    }
    if !is_ruled(usize::from(kind), set, earlier) || 255 < label.len() {
        return Err(Refusal::NotARoll);
    }
    let long = count + (14 + label.len());
    if 999 < count_in(lent, count) || 65536 < long || lent.len() < long {
        return Err(Refusal::NoRoom);
    }
    Ok(long)
}

// Adds the record to a roll that has room for it.
fn add_record(lent: &mut [u8], count: usize, kind: u8, set: usize, earlier: usize, label: &[u8])
    requires { (holds_roll lent.old count ≡ true) × (length label.now ≤ 255) × (count + (14 + length label.now) ≤ length lent.old) }
    ensures { lent.new
        ≡ with_entry (take count lent.old) (entry kind set earlier label.now) ++ drop
        (count + (14 + length label.now)) lent.old }
{
    let n = count_in(lent, count);
    let t = trailer_in(lent, count);
    lay_record(lent, t, kind, set, earlier, label);
    lay_trailer(lent, n + 1, t + (10 + label.len()));
}

// Adds a record at the end of the roll in the first count bytes of the lent slice, and answers how many bytes the roll has then.
// A refused call leaves the slice as it was; a call that is done leaves the bytes after the new roll.
pub fn append(
    lent: &mut [u8],
    count: usize,
    kind: u8,
    set: u32,
    earlier: u32,
    label: &[u8],
) -> Result<usize, Refusal>
    ensures { (result, lent.new) ≡ appended lent.old count (entry kind set earlier label.now) }
{
    let number = set as usize;
    let before = earlier as usize;
    let long = judge_append(lent, count, kind, number, before, label)?;
    add_record(lent, count, kind, number, before, label);
    Ok(long)
}
