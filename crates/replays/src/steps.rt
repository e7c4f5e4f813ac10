// What the replay programs count with, and where the parts of a page and of a record begin.
ghost use Rattle.std.specs.Prelude.{◌≡◌, ◌+◌, ◌%◌, ◌^◌, ◌≤◌, length, if◌then◌else◌, nat_eq, nat_lt};
ghost use Rattle.replays.specs.Words.{word_of, end_within};

use crate::records::word_of;

// A count with b more.
pub fn plus(a: u64, b: u64) -> u64
    ensures { result ≡ (a + b) % 2 ^ 64 }
{
    a.wrapping_add(b)
}

// The position n places after `at`.
pub fn after(at: usize, n: usize) -> usize
    ensures { result ≡ (at + n) % 2 ^ 64 }
{
    at.wrapping_add(n)
}

// 1 where the two are the same, else 0.
pub fn is(a: u64, b: u64) -> u64
    ensures { result ≡ (if nat_eq a b then 1 else 0) }
{
    u64::from(a == b)
}

// 1 where something differs, else 0.
pub fn some(differences: u64) -> u64
    ensures { result ≡ (if nat_eq differences 0 then 0 else 1) }
{
    u64::from(differences != 0)
}

// Word number k of a record, where it is a count.
pub fn count_of(r: &[u8], k: usize) -> usize
    ensures { result ≡ word_of r.now k }
{
    word_of(r, k) as usize
}

// A recorded length, not above `most`.
pub fn size(w: u64, most: usize) -> usize
    ensures { (result ≡ (if nat_lt most w then most else w)) × (result ≤ most) }
{
    (w as usize).min(most)
}

// The first places of `all`, as many as word k of the record says, or as there are.
pub fn part<'a, T>(r: &[u8], k: usize, all: &'a mut [T]) -> &'a mut [T] {
    let n = size(word_of(r, k), all.len());
    &mut all[..n]
}

// Where a table ends that begins at `from` among `most` entries, with n of its own or as many as there are.
pub fn ends(from: usize, n: usize, most: usize) -> usize
    requires { from ≤ most }
    ensures { (result ≡ end_within from n most) × (from ≤ result) × (result ≤ most) }
{
    from + n.min(most - from)
}

// Where the first n tables of a record end, which stand one after another among `most` entries, the first from 0. Word `at` of the record
// and those after it have their lengths.
pub fn tables_end(r: &[u8], at: usize, n: usize, most: usize) -> usize
    ensures { result ≤ most }
{
    let mut e = 0;
    for i in 0..n {
        e = ends(e, count_of(r, after(at, i)), most);
    }
    e
}

// Table number k of those, with the entries that it has in `all`. Who asks for it has no bounds of slices to prove.
pub fn table<'a>(r: &[u8], at: usize, k: usize, all: &'a [i64]) -> &'a [i64] {
    let from = tables_end(r, at, k, all.len());
    let to = ends(from, count_of(r, after(at, k)), all.len());
    &all[from..to]
}

// Where the records of a page begin.
pub fn first(s: &[u8]) -> usize
    ensures { (result ≡ (if nat_lt (length s.now) 8 then length s.now else 8)) × (result ≤ length s.now) }
{
    s.len().min(8)
}
