// Calls on delivery rolls, recorded from the sentences of document 02.
use capi_roll::{
    gf_append_roll, gf_is_roll, gf_is_roll_former, gf_read_roll, gf_read_roll_former, gf_stands_now,
};
use replays::Tally;
use replays::steps::{after, count_of, size};
use replays::values::{bytes, fill_bytes, mix_bytes, mix_slots};
use std::io;
use std::io::Write;

// A recorded set number.
fn set_number(w: u64) -> u32 {
    size(w, 4294967295) as u32
}

// Appends a delivery to the roll in the first count bytes.
fn deliver(lent: &mut [u8], count: usize, set: u32, label: &[u8]) {
    let mut slot = [0usize];
    gf_append_roll(lent, count, 1, set, 0, label, &mut slot);
}

// Appends deliveries of the sets 1 to n to an empty roll, all with one label.
fn deliver_all(lent: &mut [u8], n: usize, label: &[u8]) {
    let mut count = 8;
    for set in 1..=n {
        deliver(lent, count, set_number(set as u64), label);
        count = after(count, after(14, label.len()));
    }
}

// The lent slice: its bytes, and the deliveries that the record asks for before its call.
fn prepare(r: &[u8], lent: &mut [u8]) {
    bytes(r, 112, lent);
    let mut label = [0u8; 255];
    let n = size(replays::records::word_of(r, 11), 1001);
    let m = size(replays::records::word_of(r, 12), 255);
    fill_bytes(&mut label, 1);
    deliver_all(lent, n, &label[0..m]);
}

// The appender's answer.
fn append(r: &[u8], lent: &mut [u8], slots: &mut [usize], label: &[u8]) -> u64 {
    let kind = size(replays::records::word_of(r, 6), 255) as u8;
    let set = set_number(replays::records::word_of(r, 7));
    let earlier = set_number(replays::records::word_of(r, 8));
    u64::from(gf_append_roll(lent, count_of(r, 5), kind, set, earlier, label, slots))
}

// The number of a test's answer: 0 for yes, 7 for no.
fn zero_or_seven(yes: bool) -> u64 {
    if yes { 0 } else { 7 }
}

// The number of the call's answer, of calls on older rolls.
fn answer_former(r: &[u8], lent: &[u8], slots: &mut [usize]) -> u64 {
    match replays::records::word_of(r, 4) {
        4 => zero_or_seven(gf_is_roll_former(lent, count_of(r, 5))),
        _ => u64::from(gf_read_roll_former(lent, count_of(r, 5), count_of(r, 6), slots)),
    }
}

// The number of the call's answer.
fn answer(r: &[u8], lent: &mut [u8], slots: &mut [usize], label: &[u8]) -> u64 {
    match replays::records::word_of(r, 4) {
        0 => zero_or_seven(gf_is_roll(lent, count_of(r, 5))),
        1 => u64::from(gf_read_roll(lent, count_of(r, 5), count_of(r, 6), slots)),
        2 => append(r, lent, slots, label),
        3 => {
            let set = set_number(replays::records::word_of(r, 7));
            u64::from(gf_stands_now(lent, count_of(r, 5), set, slots))
        }
        _ => answer_former(r, lent, slots),
    }
}

// The record r, whose slices are filled.
fn compare(t: Tally, r: &[u8], lent: &mut [u8], slots: &mut [usize], label: &[u8]) -> Tally {
    let a = answer(r, lent, slots, label);
    let got = [a, mix_bytes(lent, 0), mix_slots(slots, 0)];
    t.compared(r, a, &got)
}

// The record r, with room for its slices.
fn fill_and_compare(
    t: Tally,
    r: &[u8],
    lent: &mut [u8],
    slots: &mut [usize],
    label: &mut [u8],
) -> Tally {
    prepare(r, lent);
    fill_bytes(label, replays::records::word_of(r, 7));
    compare(t, r, lent, slots, label)
}

// The record r. The slots hold 9 before the call.
pub fn step(t: Tally, r: &[u8]) -> Tally {
    let mut lent = [0u8; 65600];
    let mut slots = [9usize; 8];
    let mut label = [0u8; 300];
    let a = size(replays::records::word_of(r, 13), 65600);
    let b = size(replays::records::word_of(r, 10), 8);
    let c = size(replays::records::word_of(r, 9), 300);
    fill_and_compare(t, r, &mut lent[0..a], &mut slots[0..b], &mut label[0..c])
}

// The end of a roll is 68; of a set 70 is unknown and 71 retired.
pub fn report<W: Write>(out: &mut W, t: Tally) -> io::Result<()> {
    let a = t.answers;
    replays::first_line(out, b"delivery rolls", t.seen, t.differ)?;
    replays::line(out, b"ended well: ", a[0])?;
    replays::line(out, b"refused, 2: ", a[2])?;
    replays::line(out, b"refused, 7: ", a[7])?;
    replays::line(out, b"refused, 8: ", a[8])?;
    replays::line(out, b"refused, 9: ", a[9])?;
    replays::line(out, b"end: ", a[68])?;
    replays::line(out, b"unknown: ", a[70])?;
    replays::line(out, b"retired: ", a[71])?;
    replays::line(out, b"checksum ", t.sum)
}
