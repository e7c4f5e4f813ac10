// Calls of find_permutation, recorded from the sentences of document 02, A.6. Which bijection comes back is free where greedy has none, and
// which group is: there the record says which slots are near each position, and what comes back has to be one.
use capi_cells::capi_finding::gf_find_permutation;
use replays::Tally;
use replays::cursor::Cursor;
use replays::records::{differs, float, integer_word, wide, word_of};
use replays::steps::{after, count_of, ends, part, plus, size};
use replays::values::{mix_bytes, mix_integers};
use std::io;
use std::io::Write;

// No answer's number: matches that greedy has none for are counted under it.
const BY_CHAINS: u64 = 127;

// 1 if slot j is near position number w, else 0. The record has 16 words for each position, from number `at` to its end.
fn near(r: &[u8], at: usize, w: u64, j: usize) -> u64 {
    let i = size(w, 16);
    word_of(r, after(after(at, 16 * i), j))
}

// How many slots do not hold a position that is near.
fn not_near(r: &[u8], at: usize, slots: &[i64]) -> u64 {
    let held = slots.iter().enumerate();
    held.filter(|(j, x)| near(r, at, integer_word(**x), *j) != 1)
        .count() as u64
}

// How many slots hold position i.
fn holders(slots: &[i64], i: usize) -> u64 {
    slots
        .iter()
        .filter(|x| integer_word(**x) == i as u64)
        .count() as u64
}

// How many positions are not in just one slot.
fn not_placed(slots: &[i64]) -> u64 {
    (0..slots.len()).filter(|i| holders(slots, *i) != 1).count() as u64
}

// How many marks are m.
fn marks_that_are(marks: &[u8], m: u64) -> u64 {
    marks.iter().filter(|x| wide(**x) == m).count() as u64
}

// To how many marked positions slot j is near.
fn marked_near(r: &[u8], at: usize, marks: &[u8], j: usize) -> u64 {
    let mut d = 0;
    for (i, mark) in marks.iter().enumerate() {
        if *mark == 1 {
            d = plus(d, near(r, at, i as u64, j));
        }
    }
    d
}

// How many slots are near a marked position.
fn reached(r: &[u8], at: usize, marks: &[u8]) -> u64 {
    (0..marks.len())
        .filter(|j| marked_near(r, at, marks, *j) != 0)
        .count() as u64
}

// What is left of the slots: their sum, or where any bijection of near pairs may come back how much they are short of one.
fn slots_left(r: &[u8], at: usize, slots: &[i64]) -> u64 {
    if word_of(r, 4) == 1 {
        return plus(not_near(r, at, slots), not_placed(slots));
    }
    mix_integers(slots, 0)
}

// What is left of the marks: their sum, or where any group may come back that has fewer near slots than members how much they are short of one.
fn marks_left(r: &[u8], at: usize, marks: &[u8]) -> u64 {
    if word_of(r, 4) == 2 {
        let members = marks_that_are(marks, 1);
        let others = marks_that_are(marks, 0);
        let short = u64::from(reached(r, at, marks) >= members);
        return plus(short, differs(plus(members, others), marks.len() as u64));
    }
    mix_bytes(marks, 0)
}

// The call of the record r, whose slices are filled: its answer's number. The flags of the axes are the first bytes of word 12.
fn answer(
    r: &[u8],
    slots: &mut [i64],
    marks: &mut [u8],
    lattice: &[f64],
    pos: &[f64],
    rot_pos: &[f64],
) -> u64 {
    let n = count_of(r, 5);
    let f = ends(0, 96, r.len());
    let g = ends(f, count_of(r, 9), r.len());
    wide(gf_find_permutation(
        slots,
        marks,
        lattice,
        float(word_of(r, 13)),
        &r[f..g],
        pos,
        rot_pos,
        n,
    ))
}

// What the answer a is counted as.
fn kind(r: &[u8], a: u64) -> u64 {
    if a == 0 && word_of(r, 4) == 1 {
        return BY_CHAINS;
    }
    a
}

// The record r. The slots and the marks hold 7 before the call. The near slots are the words after those of the three slices.
pub fn step(t: Tally, r: &[u8]) -> Tally {
    let mut slots = [7i64; 16];
    let mut marks = [7u8; 16];
    let mut lattice = [0.0f64; 16];
    let mut pos = [0.0f64; 48];
    let mut rot_pos = [0.0f64; 48];
    let slots = part(r, 6, &mut slots);
    let marks = part(r, 7, &mut marks);
    let lattice = part(r, 8, &mut lattice);
    let pos = part(r, 10, &mut pos);
    let rot_pos = part(r, 11, &mut rot_pos);
    let mut words = Cursor { record: r, at: 14 };
    words.floats(lattice);
    words.floats(pos);
    words.floats(rot_pos);
    let a = answer(r, slots, marks, lattice, pos, rot_pos);
    let got = [
        a,
        slots_left(r, words.at, slots),
        marks_left(r, words.at, marks),
    ];
    t.compared(r, kind(r, a), &got)
}

// A call that finds no match is 72.
pub fn report<W: Write>(out: &mut W, t: Tally) -> io::Result<()> {
    let a = t.answers;
    t.report_with(out, b"finding", plus(a[0], a[127]))?;
    replays::line(out, b"by chains: ", a[127])?;
    replays::line(out, b"no match: ", a[72])
}
