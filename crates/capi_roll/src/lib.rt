// C names of a delivery roll and of what it says. A slice is passed as a pointer and its length; include/gullyfork.h says the rest.
#![tactic(auto)]

ghost use Rattle.std.specs.Prelude.{◌≡◌, [], ◌∷◌, ◌+◌, length};
ghost use Rattle.roll.specs.Format.{entry};
ghost use Rattle.roll.specs.Reading.{holds_roll, holds_former_roll};
ghost use Rattle.capi_roll.specs.Roll.{seven_or_two, item_slots, told_in, appended_slots, standing_slots, read_roll, read_roll_former, append_roll, set_now, retire_all_slots};
ghost use Rattle.capi_roll.specs.Told.{ItemFits};

use roll::layout::record_end;
use roll::read::Item;
use standing::Standing;
use tables::Refusal;

// Whether the first count bytes of the lent slice are there and are a roll.
#[unsafe(no_mangle)]
pub extern "C" fn gf_is_roll(lent: &[u8], count: usize) -> bool
    ensures { result ≡ holds_roll lent.now count }
{
    roll::judge::is_roll(lent, count)
}

// The same by the former rule, under which older rolls list their starts in any order.
#[unsafe(no_mangle)]
pub extern "C" fn gf_is_roll_former(lent: &[u8], count: usize) -> bool
    ensures { result ≡ holds_former_roll lent.now count }
{
    roll::judge::is_roll_former(lent, count)
}

// The answer where a slot has a wrong length: 7 is looked at first of all, then 2.
fn seven_or_two(number: u8) -> u8
    ensures { result ≡ seven_or_two number }
{
    if number == 7 { 7 } else { 2 }
}

// Puts what the reader said at a position of the roll b into the slots: kind, set number, earlier set number, where the label begins,
// its length, where the record ends. The end and a refusal leave them.
fn tell(b: &[u8], at: usize, a: Result<Item, Refusal>, slots: &mut [usize]) -> u8
    requires { (length slots.old ≡ 6) × ItemFits b.now at a }
    ensures { (result, slots.new) ≡ item_slots b.now at a slots.old }
{
    match a {
        Ok(Item::Record { kind, set, earlier }) => {
            slots.copy_from_slice(&[
                usize::from(kind),
                set as usize,
                earlier as usize,
                at + 10,
                usize::from(b[at + 9]),
                record_end(b, at),
            ]);
            0
        }
        Ok(Item::End) => 68,
        Err(r) => u8::from(r),
    }
}

// The same where there may be another number of slots.
fn tell_in(b: &[u8], at: usize, a: Result<Item, Refusal>, slots: &mut [usize]) -> u8
    requires { ItemFits b.now at a }
    ensures { (result, slots.new) ≡ told_in b.now at a slots.old }
{
    if slots.len() == 6 {
        return tell(b, at, a, slots);
    }
    seven_or_two(roll::read::item_number(a))
}

// What stands at a position of the roll in the first count bytes of the lent slice: 0 for a record, 68 for the end, 7. slots has six
// slots, for the record's kind, set number, earlier set number, where its label begins, the label's length, where the record ends.
#[unsafe(no_mangle)]
pub extern "C" fn gf_read_roll(lent: &[u8], count: usize, at: usize, slots: &mut [usize]) -> u8
    ensures { (result, slots.new) ≡ read_roll lent.now count at slots.old }
{
    let b = roll::roll_bytes(lent, count);
    let a = roll::reading::read_at(b, at);
    tell_in(b, at, a, slots)
}

// The same of an older roll, by the former rule.
#[unsafe(no_mangle)]
pub extern "C" fn gf_read_roll_former(
    lent: &[u8],
    count: usize,
    at: usize,
    slots: &mut [usize],
) -> u8
    ensures { (result, slots.new) ≡ read_roll_former lent.now count at slots.old }
{
    let b = roll::roll_bytes(lent, count);
    let a = roll::reading::read_at_former(b, at);
    tell_in(b, at, a, slots)
}

// Puts the appender's answer into the slot: how many bytes the roll has now. A refusal leaves it.
fn report(a: Result<usize, Refusal>, slot: &mut [usize]) -> u8
    requires { length slot.old ≡ 1 }
    ensures { (result, slot.new) ≡ appended_slots a slot.old }
{
    match a {
        Ok(n) => {
            slot[0] = n;
            0
        }
        Err(r) => u8::from(r),
    }
}

// Adds a record at the end of the roll in the first count bytes of the lent slice: 0 done, 7 or 8. new_count has one slot, for how many
// bytes the roll has then.
#[unsafe(no_mangle)]
pub extern "C" fn gf_append_roll(
    lent: &mut [u8],
    count: usize,
    kind: u8,
    set: u32,
    earlier: u32,
    label: &[u8],
    new_count: &mut [usize],
) -> u8
    ensures { (result, lent.new, new_count.new) ≡ append_roll lent.old count (entry kind set earlier label.now) new_count.old }
{
    if new_count.len() == 1 {
        let a = roll::append::append(lent, count, kind, set, earlier, label);
        return report(a, new_count);
    }
    let a = roll::append::judge_append(lent, count, kind, set as usize, earlier as usize, label);
    seven_or_two(roll::append::number_of_appended(a))
}

// Puts the set to use into the slot. Every other answer leaves it.
fn name_set(a: Result<Standing, Refusal>, slot: &mut [usize]) -> u8
    requires { length slot.old ≡ 1 }
    ensures { (result, slot.new) ≡ standing_slots a slot.old }
{
    match a {
        Ok(Standing::Unknown) => 70,
        Ok(Standing::Retired) => 71,
        Ok(Standing::Current(set)) => {
            slot[0] = set as usize;
            0
        }
        Err(r) => u8::from(r),
    }
}

// Which set stands now for a set, by the roll in the first count bytes of the lent slice: 0 with the set to use in the slot, 70 unknown,
// 71 retired, 7 or 9.
#[unsafe(no_mangle)]
pub extern "C" fn gf_stands_now(lent: &[u8], count: usize, set: u32, slot: &mut [usize]) -> u8
    ensures { (result, slot.new) ≡ set_now lent.now count set slot.old }
{
    let a = standing::stands_now(lent, count, set);
    if slot.len() == 1 {
        return name_set(a, slot);
    }
    seven_or_two(standing::standing_number(a))
}

// Retires a set and all sets that replacements link with it: 0 done, 7, 9, 11 or 8. new_count has one slot, for how many bytes the roll has
// then.
#[unsafe(no_mangle)]
pub extern "C" fn gf_retire_all(
    lent: &mut [u8],
    count: usize,
    set: u32,
    new_count: &mut [usize],
) -> u8
    ensures { (result, lent.new, new_count.new) ≡ retire_all_slots lent.old count set new_count.old }
{
    if new_count.len() == 1 {
        let a = standing::retire::retire_all(lent, count, set);
        return report(a, new_count);
    }
    if roll::judge::is_roll(lent, count) {
        return 2;
    }
    7
}
