// Retire a set everywhere (document 02, A.12): a retirement for each set that is linked to one by replacements and has none.
ghost use Rattle.std.specs.Prelude.{◌≡◌, true, cond, ℕ, ◌+◌, ◌*◌, ◌≤◌, ◌<◌, min, max, length, take};
ghost use Rattle.roll.specs.Reading.{entry_at, entries_of, count_of, is_roll, roll_bytes};
ghost use Rattle.standing.specs.Walk.{record_of};
ghost use Rattle.standing.specs.RetireAll.{inserted, to_retire, add_all, judged_retire, retire_all};
ghost use Rattle.standing.specs.Steps.{waits_at, gathered_to};

use roll::judge::is_whole_roll;
use roll::layout::{Kind, count_in, record_end, set_at};
use tables::Refusal;

// Whether the record at `at` delivers a set whose chain ends in `last` and which has no retirement of its own.
fn waits(b: &[u8], n: usize, at: usize, last: usize) -> bool
    requires { (is_roll b.now ≡ true) × (n ≡ count_of b.now) × (at + 10 ≤ length b.now) }
    ensures { result ≡ waits_at (record_of b.now) n last (entry_at b.now at) }
{
    if b[at] == Kind::Retirement as u8 {
        return false;
    }
    let set = set_at(b, at);
    crate::end_of(b, n, set) == last && !crate::look_up(b, n, set).retired
}

// Puts y into the first m numbers of the list: the lesser stays, the greater goes on.
fn place(list: &mut [u32], m: usize, y: u32)
    requires { m < length list.old }
    ensures { take (m + 1) list.new ≡ inserted y (take m list.old) }
{
    let mut on = y;
    for i in 0..m {
        let z = list[i];
        list[i] = on.min(z);
        on = on.max(z);
    }
    list[m] = on;
}

// Puts y into the list where it is to be, and answers how many numbers there are then.
fn place_if(list: &mut [u32], m: usize, y: u32, wanted: bool) -> usize
    requires { m < length list.old }
    ensures { (result ≤ m + 1) × (take result list.new ≡ cond wanted (inserted y (take m list.old)) (take m list.old)) }
{
    if wanted {
        place(list, m, y);
        m + 1
    } else {
        m
    }
}

// Gathers the sets to retire with one whose chain ends in `last`, by rising number, and answers how many there are.
fn gather(b: &[u8], n: usize, last: usize, list: &mut [u32]) -> usize
    requires { (is_roll b.now ≡ true) × (n ≡ count_of b.now) × (length list.old ≡ 1000) }
    ensures { (result ≤ n)
        × (take result list.new ≡ gathered_to (waits_at (record_of b.now) n last) (record_of b.now) n)
        × (length (gathered_to (waits_at (record_of b.now) n last) (record_of b.now) n) ≡ result) }
{
    let mut m = 0;
    let mut p = 0;
    for _ in 0..n {
        m = place_if(list, m, set_at(b, p) as u32, waits(b, n, p, last));
        p = record_end(b, p);
    }
    m
}

// The answer before anything is written: how many retirements are to be added, and then the list begins with the sets to retire; or
// 7, 9, 11 or 8.
fn judge(lent: &[u8], count: usize, x: usize, list: &mut [u32]) -> Result<usize, Refusal>
    requires { (x < 4294967296) × (length list.old ≡ 1000) }
    ensures { (result ≡ judged_retire lent.now count x)
        × ((m : ℕ) → result ≡ Ok m → take m list.new ≡ to_retire (entries_of (roll_bytes lent.now count)) x) }
{
    let b = roll::roll_bytes(lent, count);
    if !is_whole_roll(b) {
        return Err(Refusal::NotARoll);
    }
    let n = count_in(b, b.len());
    if !crate::is_lawful(b, n) {
        return Err(Refusal::NotLawful);
    }
    let f = crate::look_up(b, n, x);
    if !f.delivered {
        return Err(Refusal::UnknownSet);
    }
    let m = gather(b, n, crate::end_of(b, n, x), list);
    let long = count + 14 * m;
    if 1000 < n + m || 65536 < long || lent.len() < long {
        return Err(Refusal::NoRoom);
    }
    Ok(m)
}

// Appends the retirements of the sets of the list.
fn add_all(lent: &mut [u8], count: usize, list: &[u32])
    requires { count + 14 * length list.now ≤ 65536 }
    ensures { lent.new ≡ add_all lent.old count list.now }
{
    let mut long = count;
    for set in list {
        let _ = roll::append::append(lent, long, Kind::Retirement as u8, *set, 0, b"");
        long += 14;
    }
}

// Retires a set and all sets that replacements link with it, before and after it: those that have no retirement get one with an empty
// label, lowest number first, and answers how many bytes the roll has then. A refused call leaves the slice as it was.
pub fn retire_all(lent: &mut [u8], count: usize, set: u32) -> Result<usize, Refusal>
    ensures { (result, lent.new) ≡ retire_all lent.old count set }
{
    let mut list = [0u32; 1000];
    let m = judge(lent, count, set as usize, &mut list)?;
    add_all(lent, count, &list[..m]);
    Ok(count + 14 * m)
}
