// Which set stands now (document 02, A.8 and A.14): the rules over a plain register, each entry of it read off the roll by a walk.
#![tactic(auto)]

pub mod retire;

ghost use Rattle.std.specs.Prelude.{◌≡◌, true, ◌||◌, cond, ◌+◌, ◌≤◌, ◌<◌, length, IfSome};
ghost use Rattle.roll.specs.Reading.{record_start, entry_at, count_of, is_roll, roll_bytes};
ghost use Rattle.standing.specs.Register.{standing_number, delivers, retires, replaces, allowed, answer, stands_now};
ghost use Rattle.standing.specs.Walk.{record_of, register_after, lawful_to, Notes, set_or_zero};
ghost use Rattle.standing.specs.Chains.{carried};

use roll::judge::is_whole_roll;
use roll::layout::{Kind, count_in, earlier_at, record_end, set_at};
use tables::Refusal;

// What a roll answers for a set.
#[derive(Clone, Copy)]
pub enum Standing {
    Unknown,
    Retired,
    // the number to use
    Current(u32),
}

// The number of an answer; 0 is a set to use.
pub fn standing_number(a: Result<Standing, Refusal>) -> u8
    ensures { result ≡ standing_number a }
{
    match a {
        Ok(Standing::Unknown) => 70,
        Ok(Standing::Retired) => 71,
        Ok(Standing::Current(_)) => 0,
        Err(r) => u8::from(r),
    }
}

// What the register notes of one set: `by` is the set that replaced it.
#[derive(Clone, Copy)]
pub struct Found {
    pub delivered: bool,
    pub retired: bool,
    pub by: Option<usize>,
}

// Whether the record at `at` delivers x: deliveries and replacements do.
fn delivers_at(b: &[u8], at: usize, x: usize) -> bool
    requires { at + 10 ≤ length b.now }
    ensures { result ≡ delivers (entry_at b.now at) x }
{
    b[at] != Kind::Retirement as u8 && set_at(b, at) == x
}

// Whether it retires x.
fn retires_at(b: &[u8], at: usize, x: usize) -> bool
    requires { at + 10 ≤ length b.now }
    ensures { result ≡ retires (entry_at b.now at) x }
{
    b[at] == Kind::Retirement as u8 && set_at(b, at) == x
}

// Whether it replaces x.
fn replaces_at(b: &[u8], at: usize, x: usize) -> bool
    requires { at + 10 ≤ length b.now }
    ensures { result ≡ replaces (entry_at b.now at) x }
{
    b[at] == Kind::Replacement as u8 && earlier_at(b, at) == x
}

// The set that the record at `at` replaces x by, if it does.
fn replacer(b: &[u8], at: usize, x: usize) -> Option<usize>
    requires { at + 10 ≤ length b.now }
    ensures { (result ≡ cond (replaces (entry_at b.now at) x) (Some (entry_at b.now at).number) None) × ((entry_at b.now at).number < 4294967296) }
{
    if replaces_at(b, at, x) {
        Some(set_at(b, at))
    } else {
        None
    }
}

// What the register of the first n records of the roll b notes of x.
pub fn look_up(b: &[u8], n: usize, x: usize) -> Found
    requires { (is_roll b.now ≡ true) × (n ≤ count_of b.now) }
    ensures notes { Notes (register_after (record_of b.now) n) x result.delivered result.retired (set_or_zero result.by) }
    ensures named { IfSome result.by (λ m. 0 < m) }
{
    let mut delivered = false;
    let mut retired = false;
    let mut by = None;
    let mut p = 0;
    for _ in 0..n {
        delivered |= delivers_at(b, p, x);
        retired |= retires_at(b, p, x);
        by = replacer(b, p, x).or(by);
        p = record_end(b, p);
    }
    Found {
        delivered,
        retired,
        by,
    }
}

// Whether 9 does not apply to record n, which starts at `at`.
fn is_allowed(b: &[u8], n: usize, at: usize) -> bool
    requires { (is_roll b.now ≡ true) × (n < count_of b.now) × (at ≡ record_start b.now n) }
    ensures { result ≡ allowed (register_after (record_of b.now) n) (record_of b.now n) }
{
    let kind = b[at];
    let own = look_up(b, n, set_at(b, at));
    if kind == Kind::Retirement as u8 {
        return own.delivered;
    }
    if own.delivered {
        return false;
    }
    if kind != Kind::Replacement as u8 {
        return true;
    }
    let old = look_up(b, n, earlier_at(b, at));
    old.delivered && old.by.is_none()
}

// Whether 9 applies to none of the n records.
pub fn is_lawful(b: &[u8], n: usize) -> bool
    requires { (is_roll b.now ≡ true) × (n ≡ count_of b.now) }
    ensures { result ≡ lawful_to (record_of b.now) n }
{
    let mut p = 0;
    for i in 0..n {
        if !is_allowed(b, i, p) {
            return false;
        }
        p = record_end(b, p);
    }
    true
}

// Where the chain of replacements from x ends: a set is replaced after it is delivered, so one walk over the records finds the end.
// It is not inlined: inside `retire_all` the roll's address then stands in rbp, and on an Intel processor the walk over a roll of 50 to 65 kB takes
// 1.8 times as long.
#[inline(never)]
pub fn end_of(b: &[u8], n: usize, x: usize) -> usize
    requires { (is_roll b.now ≡ true) × (n ≡ count_of b.now) × (x < 4294967296) }
    ensures { (result ≡ carried (record_of b.now) n x) × (result < 4294967296) }
{
    let mut y = x;
    let mut p = 0;
    for _ in 0..n {
        y = replacer(b, p, y).unwrap_or(y);
        p = record_end(b, p);
    }
    y
}

// The rules: replacement is followed first, and retirement looked at where the chain ends.
fn follow(b: &[u8], n: usize, x: usize) -> Standing
    requires { (is_roll b.now ≡ true) × (n ≡ count_of b.now) × (x < 4294967296) × (lawful_to (record_of b.now) n ≡ true) }
    ensures { Ok result ≡ answer (n + 1) (register_after (record_of b.now) n) x }
{
    let f = look_up(b, n, x);
    if !f.delivered {
        return Standing::Unknown;
    }
    let last = end_of(b, n, x);
    let e = look_up(b, n, last);
    if e.retired {
        Standing::Retired
    } else {
        Standing::Current(last as u32)
    }
}

// Which set stands now for a set, by the roll in the first count bytes of the lent slice. 7: the bytes are not a roll; 9: a record delivers
// a set again, names one that no record before it delivers, or replaces one for the second time.
pub fn stands_now(lent: &[u8], count: usize, set: u32) -> Result<Standing, Refusal>
    ensures { result ≡ stands_now (roll_bytes lent.now count) set }
{
    let b = roll::roll_bytes(lent, count);
    if !is_whole_roll(b) {
        return Err(Refusal::NotARoll);
    }
    let n = count_in(b, b.len());
    if !is_lawful(b, n) {
        return Err(Refusal::NotLawful);
    }
    Ok(follow(b, n, set as usize))
}
