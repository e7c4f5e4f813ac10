// What the Rust answered for compute_permutation. The Rust has no answer that names a pair: it counts as false there, and the pair is that of the
// recorder's plain model.
use capi_cells::gf_compute_permutation;
use replays::Tally;
use replays::cursor::Cursor;
use replays::records::{float, wide, word_of};
use replays::steps::{count_of, ends, part};
use replays::values::{mix_integers, mix_slots};
use std::io;
use std::io::Write;

// The number of the call's answer. The flags of the axes are the first bytes of word 11.
fn answer(
    r: &[u8],
    slots: &mut [i64],
    lattice: &[f64],
    pos: &[f64],
    rot_pos: &[f64],
    pair: &mut [usize],
) -> u64 {
    let n = count_of(r, 4);
    let f = ends(0, 88, r.len());
    let g = ends(f, count_of(r, 9), r.len());
    wide(gf_compute_permutation(
        slots,
        lattice,
        float(word_of(r, 12)),
        &r[f..g],
        pos,
        rot_pos,
        pair,
        n,
    ))
}

// The record r. The slots and the pair hold 7 before the call.
pub fn step(t: Tally, r: &[u8]) -> Tally {
    let mut slots = [7i64; 64];
    let mut lattice = [0.0f64; 10];
    let mut pos = [0.0f64; 192];
    let mut rot_pos = [0.0f64; 192];
    let mut pair = [7usize; 3];
    let slots = part(r, 5, &mut slots);
    let pos = part(r, 6, &mut pos);
    let rot_pos = part(r, 7, &mut rot_pos);
    let lattice = part(r, 8, &mut lattice);
    let pair = part(r, 10, &mut pair);
    let mut words = Cursor { record: r, at: 13 };
    words.floats(lattice);
    words.floats(pos);
    words.floats(rot_pos);
    let a = answer(r, slots, lattice, pos, rot_pos, pair);
    let got = [a, mix_integers(slots, 0), mix_slots(pair, 0)];
    t.compared(r, a, &got)
}

// True is 0, false 64, or 69 where it names a pair.
pub fn report<W: Write>(out: &mut W, t: Tally) -> io::Result<()> {
    let a = t.answers;
    t.report(out, b"matching")?;
    replays::line(out, b"false: ", a[64])?;
    replays::line(out, b"false, with a pair: ", a[69])
}
