// Audits, comparisons of two sets and reports, recorded from the sentences that they are asked for in.
use crate::{audit_calls, crystal_calls, deviation_calls};
use replays::Tally;
use replays::records::{float, wide, word_of};
use replays::shift_tables::shift_tables_of;
use replays::steps::{after, count_of, part, size, table, tables_end};
use replays::values::{fill, floats, integers, mix_floats, mix_slots};
use std::io;
use std::io::Write;

// One number of a set put in its place; a place past the end is left out.
fn put(r: &[u8], k: usize, set: &mut [f64]) {
    let at = count_of(r, k);
    if at < set.len() {
        set[at] = float(word_of(r, after(k, 1)));
    }
}

// Where the matrices of a record begin, after the tables.
fn matrices_at(r: &[u8]) -> usize {
    after(22, tables_end(r, 14, 5, 160))
}

// The set of the record: made from its seed, and then single numbers, whose places and words stand after the matrices.
fn made(r: &[u8], set: &mut [f64]) {
    fill(set, word_of(r, 8), word_of(r, 9));
    let from = after(matrices_at(r), count_of(r, 20));
    let n = size(word_of(r, 10), 200);
    for i in 0..n {
        put(r, after(from, 2 * i), set);
    }
}

// The first set: where two are compared, without the single numbers of the record.
fn prepare(r: &[u8], fc: &mut [f64]) {
    if word_of(r, 4) % 20 == 0 {
        fill(fc, word_of(r, 8), word_of(r, 9));
        return;
    }
    made(r, fc);
}

// The crystal report that the record names. There is room for 48 numbers of matrices.
fn crystal(r: &[u8], fc: &[f64], all: &[i64], place: &mut [usize], numbers: &mut [f64]) -> u8 {
    let mut m = [0.0f64; 48];
    floats(r, matrices_at(r), &mut m);
    let t = shift_tables_of(r, 5, 14, all);
    let maps = table(r, 14, 4, all);
    crystal_calls::call(r, fc, t, maps, part(r, 20, &mut m), place, numbers)
}

// The call that the record names. There is room for 160 entries of its tables, which are one after another: perms, p2s, s2pp, nsym_list and
// the operations. The number of the call is only matched, here and where it ends, so no type of its own stands for it.
fn call(r: &[u8], fc: &[f64], other: &[f64], place: &mut [usize], numbers: &mut [f64]) -> u8 {
    let mut all = [0i64; 160];
    integers(r, 22, &mut all);
    let t = shift_tables_of(r, 5, 14, &all);
    match word_of(r, 4) {
        0..=19 => audit_calls::call(r, fc, other, t, place, numbers),
        41..=59 => crystal(r, fc, &all, place, numbers),
        _ => deviation_calls::call(r, fc, other, t, place, numbers),
    }
}

// The record r. The slots hold 7 before the call.
pub fn step(t: Tally, r: &[u8]) -> Tally {
    let mut fc = [0.0f64; 10400];
    let mut other = [0.0f64; 800];
    let mut place = [7usize; 7];
    let mut numbers = [7.0f64; 3];
    let fc = part(r, 11, &mut fc);
    let other = part(r, 12, &mut other);
    let place = part(r, 13, &mut place);
    let numbers = part(r, 19, &mut numbers);
    prepare(r, fc);
    made(r, other);
    let a = wide(call(r, fc, other, place, numbers));
    let got = [a, mix_slots(place, 0), mix_floats(numbers, 0)];
    t.compared(r, a, &got)
}

// A set that is alike is 73, one that is not 74.
pub fn report_audits<W: Write>(out: &mut W, t: Tally) -> io::Result<()> {
    let a = t.answers;
    t.report(out, b"audits")?;
    replays::line(out, b"alike: ", a[73])?;
    replays::line(out, b"unlike: ", a[74])
}

// Still is 65, worst 66, no number 67.
pub fn report<W: Write>(out: &mut W, t: Tally) -> io::Result<()> {
    let a = t.answers;
    t.report(out, b"reports")?;
    replays::line(out, b"still: ", a[65])?;
    replays::line(out, b"worst: ", a[66])?;
    replays::line(out, b"no number: ", a[67])
}
