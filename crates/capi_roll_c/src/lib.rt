// What C calls of capi_roll: each export calls the function of that name there and states its clauses. A library for other crates exports nothing itself.
#![tactic(auto)]

ghost use Rattle.std.specs.Prelude.{◌≡◌, length};
ghost use Rattle.roll.specs.Format.{entry};
ghost use Rattle.roll.specs.Reading.{holds_roll, holds_former_roll};
ghost use Rattle.capi_roll.specs.Roll.{read_roll, read_roll_former, append_roll, set_now, retire_all_slots};

// Whether the first count bytes of the lent slice are there and are a roll.
#[unsafe(no_mangle)]
pub extern "C" fn gf_is_roll(lent: &[u8], count: usize) -> bool
    ensures { result ≡ holds_roll lent.now count }
{
    capi_roll::gf_is_roll(lent, count)
}

// The same by the former rule, under which older rolls list their starts in any order.
#[unsafe(no_mangle)]
pub extern "C" fn gf_is_roll_former(lent: &[u8], count: usize) -> bool
    ensures { result ≡ holds_former_roll lent.now count }
{
    capi_roll::gf_is_roll_former(lent, count)
}

// What stands at a position of the roll in the first count bytes of the lent slice: 0 for a record, 68 for the end, 7. slots has six
// slots, for the record's kind, set number, earlier set number, where its label begins, the label's length, where the record ends.
#[unsafe(no_mangle)]
pub extern "C" fn gf_read_roll(lent: &[u8], count: usize, at: usize, slots: &mut [usize]) -> u8
    ensures { (result, slots.new) ≡ read_roll lent.now count at slots.old }
{
    capi_roll::gf_read_roll(lent, count, at, slots)
}

// The same of an older roll, by the former rule.
#[unsafe(no_mangle)]
pub extern "C" fn gf_read_roll_former(
    lent: &[u8],
    count: usize,
    at: usize,
    slots: &mut [usize],
) -> u8
    ensures { (result, slots.new) ≡ read_roll_former lent.now count at slots.old }
{
    capi_roll::gf_read_roll_former(lent, count, at, slots)
}

// Adds a record at the end of the roll in the first count bytes of the lent slice: 0 done, 7 or 8. new_count has one slot, for how many
// bytes the roll has then.
#[unsafe(no_mangle)]
pub extern "C" fn gf_append_roll(
    lent: &mut [u8],
    count: usize,
    kind: u8,
    set: u32,
    earlier: u32,
    label: &[u8],
    new_count: &mut [usize],
) -> u8
    ensures { (result, lent.new, new_count.new) ≡ append_roll lent.old count (entry kind set earlier label.now) new_count.old }
{
    capi_roll::gf_append_roll(lent, count, kind, set, earlier, label, new_count)
}

// Which set stands now for a set, by the roll in the first count bytes of the lent slice: 0 with the set to use in the slot, 70 unknown,
// 71 retired, 7 or 9.
#[unsafe(no_mangle)]
pub extern "C" fn gf_stands_now(lent: &[u8], count: usize, set: u32, slot: &mut [usize]) -> u8
    ensures { (result, slot.new) ≡ set_now lent.now count set slot.old }
{
    capi_roll::gf_stands_now(lent, count, set, slot)
}

// Retires a set and all sets that replacements link with it: 0 done, 7, 9, 11 or 8. new_count has one slot, for how many bytes the roll has
// then.
#[unsafe(no_mangle)]
pub extern "C" fn gf_retire_all(
    lent: &mut [u8],
    count: usize,
    set: u32,
    new_count: &mut [usize],
) -> u8
    ensures { (result, lent.new, new_count.new) ≡ retire_all_slots lent.old count set new_count.old }
{
    capi_roll::gf_retire_all(lent, count, set, new_count)
}
