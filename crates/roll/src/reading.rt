// The reader's work, on a plain slice and a position, by either rule for the trailer's list.
ghost use Rattle.std.specs.Prelude.{◌≡◌, true, ◌+◌, ◌≤◌, ◌<◌, length};
ghost use Rattle.roll.specs.Reading.{framed, is_start, entry_at};
ghost use Rattle.roll.specs.ReadCalls.{holds_record, read_entry, read_by, label_by, past_by, read_at, label_at, past_at, read_at_former, label_at_former, past_at_former};

use crate::judge::{is_whole_roll, is_whole_roll_former};
use crate::layout::{count_in, earlier_at, record_end, set_at, trailer_in};
use crate::read::Item;
use tables::Refusal;

// Whether a record of the roll b starts at `at`.
fn starts_at(b: &[u8], at: usize) -> bool
    requires { framed b.now ≡ true }
    ensures { result ≡ is_start b.now at }
{
    let n = count_in(b, b.len());
    let mut p = 0;
    for _ in 0..n {
        if p == at {
            return true;
        }
        p = record_end(b, p);
    }
    false
}

// Whether the bytes are a roll, which ok says, and a record of it starts at `at`.
fn holds_record(ok: bool, b: &[u8], at: usize) -> bool
    requires { ok ≡ true → framed b.now ≡ true }
    ensures { result ≡ holds_record ok b.now at }
{
    ok && starts_at(b, at)
}

// The record at `at`.
fn record_at(b: &[u8], at: usize) -> Item
    requires { at + 10 ≤ length b.now }
    ensures { result ≡ read_entry (entry_at b.now at) }
{
    Item::Record {
        kind: b[at],
        set: set_at(b, at) as u32,
        earlier: earlier_at(b, at) as u32,
    }
}

// What stands at a position of the bytes: a record of the roll, its end, or 7.
fn read_by(ok: bool, b: &[u8], at: usize) -> Result<Item, Refusal>
    requires { ok ≡ true → framed b.now ≡ true }
    ensures { result ≡ read_by ok b.now at }
{
    if !ok {
        return Err(Refusal::NotARoll);
    }
    if starts_at(b, at) {
        return Ok(record_at(b, at));
    }
    if at == trailer_in(b, b.len()) {
        return Ok(Item::End);
    }
    Err(Refusal::NotARoll)
}

// The label of the record that starts at a position, as a part of the roll; an empty part where none starts there.
fn label_by(ok: bool, b: &[u8], at: usize) -> &[u8]
    requires { ok ≡ true → framed b.now ≡ true }
    ensures { result.now ≡ label_by ok b.now at }
{
    if !holds_record(ok, b, at) {
        return &[];
    }
    let from = at + 10;
    let end = record_end(b, at);
    &b[from..end]
}

// Where the record that starts at a position ends; the position itself where none starts there.
fn past_by(ok: bool, b: &[u8], at: usize) -> usize
    requires { ok ≡ true → framed b.now ≡ true }
    ensures { result ≡ past_by ok b.now at }
{
    if holds_record(ok, b, at) {
        record_end(b, at)
    } else {
        at
    }
}

// What stands at a position of the bytes, the label of the record there, and where it ends.
pub fn read_at(b: &[u8], at: usize) -> Result<Item, Refusal>
    ensures { result ≡ read_at b.now at }
{
    read_by(is_whole_roll(b), b, at)
}

pub fn label_at(b: &[u8], at: usize) -> &[u8]
    ensures { result.now ≡ label_at b.now at }
{
    label_by(is_whole_roll(b), b, at)
}

pub fn past_at(b: &[u8], at: usize) -> usize
    ensures { result ≡ past_at b.now at }
{
    past_by(is_whole_roll(b), b, at)
}

// The same of an older roll, by the former rule.
pub fn read_at_former(b: &[u8], at: usize) -> Result<Item, Refusal>
    ensures { result ≡ read_at_former b.now at }
{
    read_by(is_whole_roll_former(b), b, at)
}

pub fn label_at_former(b: &[u8], at: usize) -> &[u8]
    ensures { result.now ≡ label_at_former b.now at }
{
    label_by(is_whole_roll_former(b), b, at)
}

pub fn past_at_former(b: &[u8], at: usize) -> usize
    ensures { result ≡ past_at_former b.now at }
{
    past_by(is_whole_roll_former(b), b, at)
}
