// Row sums and edits of them, recorded from the sentences of document 02, A.10.
use capi_fc2::sums::{gf_replace_block_fc2, gf_row_sums_fc2};
use replays::Tally;
use replays::cursor::Cursor;
use replays::records::{wide, word_of};
use replays::steps::{count_of, part};
use replays::values::mix_floats;
use std::io;
use std::io::Write;

// The number of the call's answer.
fn answer(r: &[u8], fc: &mut [f64], sums: &mut [f64], block: &[f64]) -> u64 {
    let n = count_of(r, 5);
    if word_of(r, 4) == 0 {
        return wide(gf_row_sums_fc2(sums, fc, n));
    }
    wide(gf_replace_block_fc2(fc, sums, block, count_of(r, 6), count_of(r, 7), n))
}

// The record r.
pub fn step(t: Tally, r: &[u8]) -> Tally {
    let mut fc = [0.0f64; 90];
    let mut sums = [0.0f64; 36];
    let mut block = [0.0f64; 12];
    let fc = part(r, 8, &mut fc);
    let sums = part(r, 9, &mut sums);
    let block = part(r, 10, &mut block);
    let mut words = Cursor { record: r, at: 11 };
    words.floats(fc);
    words.floats(sums);
    words.floats(block);
    let a = answer(r, fc, sums, block);
    let got = [a, mix_floats(fc, 0), mix_floats(sums, 0)];
    t.compared(r, a, &got)
}

pub fn report<W: Write>(out: &mut W, t: Tally) -> io::Result<()> {
    let a = t.answers;
    t.report(out, b"row sums")?;
    replays::line(out, b"refused, 10: ", a[10])
}
