// Whether bytes are a roll.
ghost use Rattle.std.specs.Prelude.{◌≡◌, true, ◌&&◌, ◌+◌, ◌*◌, ◌≤◌, eqb, leb, length, replicate};
ghost use Rattle.lists.specs.Tests.{every};
ghost use Rattle.roll.specs.Format.{record_ruled};
ghost use Rattle.roll.specs.Reading.{size_at, record_start, ruled_at, follow, listed, listed_once, count_of, trailer_at, sized, is_roll, is_former_roll, holds_roll, holds_former_roll};
ghost use Rattle.roll.specs.Roll.{Sized, Marked};

use super::layout::{Kind, count_in, earlier_at, listed_at, record_end, set_at, trailer_in};
use super::numbers::four;

// Whether a record's kind and numbers keep the rules.
pub fn is_ruled(kind: usize, number: usize, earlier: usize) -> bool
    ensures { result ≡ record_ruled kind number earlier }
{
    if kind < 1 || 3 < kind || number < 1 {
        return false;
    }
    if kind == Kind::Replacement as usize {
        earlier != 0
    } else {
        earlier == 0
    }
}

// Whether the record at `at` ends at or before t and keeps the rules.
fn fits(b: &[u8], at: usize, t: usize) -> bool
    requires { (at ≤ t) × (t ≤ length b.now) × (t ≤ 65536) }
    ensures { result ≡ (leb (at + size_at b.now at) t && ruled_at b.now at) }
{
    if t < at + 10 {
        return false;
    }
    record_end(b, at) <= t && is_ruled(usize::from(b[at]), set_at(b, at), earlier_at(b, at))
}

// Whether n records follow each other from byte 0 up to t; marks where each of them starts.
fn mark_starts(b: &[u8], n: usize, t: usize, marks: &mut [u8; 65536]) -> bool
    requires { (t ≤ length b.now) × (t ≤ 65536) × (marks.old ≡ replicate 65536 0) }
    ensures { (result ≡ follow b.now n t) × (result ≡ true → Marked b.now n marks.new) }
{
    let mut at = 0;
    for _ in 0..n {
        if !fits(b, at, t) {
            return false;
        }
        marks[at] = 1;
        at = record_end(b, at);
    }
    at == t
}

// Whether each number of the trailer's list is marked, and none twice: a mark that was met is taken away.
fn lists_once(b: &[u8], n: usize, t: usize, marks: &mut [u8; 65536]) -> bool
    requires { (n ≡ count_of b.now) × (t ≡ trailer_at b.now) × Sized b.now n t × Marked b.now n marks.old }
    ensures { result ≡ every n (λ i. listed_once b.now i) }
{
    for i in 0..n {
        let x = four(b, listed_at(t, i));
        if t <= x {
            return false;
        }
        if marks[x] == 0 {
            return false;
        }
        marks[x] = 0;
    }
    true
}

// The records and the list of a roll whose counts are right, with a table of marks.
fn has_records(b: &[u8], n: usize, t: usize) -> bool
    requires { (n ≡ count_of b.now) × (t ≡ trailer_at b.now) × (n ≤ 1000) × (length b.now ≤ 65536) × (t + 4 * n + 8 ≡ length b.now) }
    ensures { result ≡ (follow b.now n t && every n (λ i. listed_once b.now i)) }
{
    let mut marks = [0u8; 65536];
    mark_starts(b, n, t, &mut marks) && lists_once(b, n, t, &mut marks)
}

// Whether n records follow each other from byte 0 up to t, and number i of the trailer's list is where record i starts.
fn lists_in_order(b: &[u8], n: usize, t: usize) -> bool
    requires { (n ≡ count_of b.now) × (t ≡ trailer_at b.now) × (n ≤ 1000) × (length b.now ≤ 65536) × (t + 4 * n + 8 ≡ length b.now) }
    ensures { result ≡ (follow b.now n t && every n (λ i. eqb (listed b.now i) (record_start b.now i))) }
{
    let mut p = 0;
    for i in 0..n {
        if !fits(b, p, t) {
            return false;
        }
        if four(b, listed_at(t, i)) != p {
            return false;
        }
        p = record_end(b, p);
    }
    p == t
}

// Whether the number of bytes and the two last numbers of the trailer agree with each other and keep the limits.
fn is_sized(b: &[u8]) -> bool
    ensures { result ≡ sized b.now }
{
    let len = b.len();
    if len < 8 || 65536 < len {
        return false;
    }
    let n = count_in(b, len);
    let t = trailer_in(b, len);
    n <= 1000 && listed_at(t, n) + 8 == len
}

// Whether all the bytes are a roll.
pub fn is_whole_roll(b: &[u8]) -> bool
    ensures { result ≡ is_roll b.now }
{
    let len = b.len();
    is_sized(b) && lists_in_order(b, count_in(b, len), trailer_in(b, len))
}

// Whether all the bytes are a roll by the former rule, which leaves the order of the starts free.
pub fn is_whole_roll_former(b: &[u8]) -> bool
    ensures { result ≡ is_former_roll b.now }
{
    let len = b.len();
    is_sized(b) && has_records(b, count_in(b, len), trailer_in(b, len))
}

// Whether the first count bytes of the lent slice are there and are a roll.
pub fn is_roll(lent: &[u8], count: usize) -> bool
    ensures { result ≡ holds_roll lent.now count }
{
    lent.get(..count).is_some_and(is_whole_roll)
}

// The same by the former rule.
pub fn is_roll_former(lent: &[u8], count: usize) -> bool
    ensures { result ≡ holds_former_roll lent.now count }
{
    lent.get(..count).is_some_and(is_whole_roll_former)
}
