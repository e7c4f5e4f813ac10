// Filling the slots, one position after another.
ghost use Rattle.std.specs.Prelude.{◌≡◌, ◌+◌, ◌*◌, ◌≤◌, ◌<◌, length, replicate, negsuc};
ghost use Rattle.lists.specs.Tab.{times};
ghost use Rattle.distances.specs.Near.{near as nearOf, distance as distance_of};
ghost use Rattle.distances.specs.Reach.{ReachFits};
ghost use Rattle.matching.specs.Matching.{is_filled, slot_for, match_one as place_of, all_filled, failed_by, searched};
ghost use Rattle.matching.specs.Search.{tried_as, earlier_of, noted_by, noted_at, first_pair, pair_after};
ghost use Rattle.matching.specs.Slots.{FilledBelow, FreeAt, Row, Triples};

use crate::cells::{Matching, Pair};
use distances::{Cell, Distance, Reach, distance_of, is_near, reach_of};

// Sets every slot to -1.
pub fn clear(rot_atom: &mut [i64])
    ensures { rot_atom.new ≡ replicate (length rot_atom.old) (negsuc 0) }
{
    rot_atom.fill(-1);
}

pub fn is_filled(slot: i64) -> bool
    ensures { result ≡ is_filled slot }
{
    slot >= 0
}

// What the distance of position i and slot j, which holds slot, is to the tolerance. A filled slot is not tried, and counts as far.
fn tried(
    slot: i64,
    cell: Cell,
    reach: Reach,
    pos: &[f64],
    rot_pos: &[f64],
    i: usize,
    j: usize,
) -> Distance
    requires { (i * 3 + 3 ≤ length pos.now) × (j * 3 + 3 ≤ length rot_pos.now) × ReachFits cell reach }
    ensures { result ≡ tried_as slot (distance_of cell pos.now rot_pos.now i j) }
{
    if is_filled(slot) {
        return Distance::Far;
    }
    distance_of(cell, reach, pos, rot_pos, i, j)
}

// The first slot of n whose distance is no number, n if there is none: `none` is that of the slots before j, and d the distance of slot j.
fn noted(d: Distance, none: usize, n: usize, j: usize) -> usize
    ensures { result ≡ noted_by d none n j }
{
    match d {
        Distance::Near => none,
        Distance::Far => none,
        Distance::NoNumber => earlier(none, n, j),
    }
}

// `none`, which comes before j; j if there is none.
fn earlier(none: usize, n: usize, j: usize) -> usize
    ensures { result ≡ earlier_of none n j }
{
    if none < n {
        return none;
    }
    j
}

// All slots are filled.
fn all_filled(rot_atom: &[i64]) -> bool
    ensures { result ≡ all_filled rot_atom.now }
{
    skip_filled(rot_atom, 0) == rot_atom.len()
}

// The first slot from start on that is free; the end if none is. Before start all are filled.
fn skip_filled(rot_atom: &[i64], start: usize) -> usize
    requires { FilledBelow rot_atom.now start }
    ensures { FilledBelow rot_atom.now result × FreeAt rot_atom.now result }
{
    for k in start..rot_atom.len() {
        if !is_filled(rot_atom[k]) {
            return k;
        }
    }
    rot_atom.len()
}

// The slot that takes a position, and the first slot tried for it whose distance is no number: each the number of slots if there is none.
#[derive(Clone, Copy)]
pub struct Found {
    pub at: usize,
    pub none: usize,
}

// Tries the free slots for position i, rising, up to the first that is near. Before start all are filled.
fn find(
    rot_atom: &[i64],
    cell: Cell,
    reach: Reach,
    pos: &[f64],
    rot_pos: &[f64],
    i: usize,
    start: usize,
) -> Found
    requires { Row (length rot_atom.now) i (length pos.now) (length rot_pos.now) × FilledBelow rot_atom.now start × ReachFits cell reach }
    ensures { (result.at ≡ slot_for (distance_of cell pos.now rot_pos.now) rot_atom.now i)
        × (result.none ≡ noted_at (distance_of cell pos.now rot_pos.now) rot_atom.now i) }
{
    let mut none = rot_atom.len();
    for j in start..rot_atom.len() {
        let d = tried(rot_atom[j], cell, reach, pos, rot_pos, i, j);
        if is_near(d) {
            return Found { at: j, none };
        }
        none = noted(d, none, rot_atom.len(), j);
    }
    Found {
        at: rot_atom.len(),
        none,
    }
}

// The lowest free slot that is near position i takes i. Returns the first slot tried whose distance is no number; the number of slots if there is none.
fn place(
    rot_atom: &mut [i64],
    cell: Cell,
    reach: Reach,
    pos: &[f64],
    rot_pos: &[f64],
    i: usize,
    start: usize,
) -> usize
    requires { Row (length rot_atom.old) i (length pos.now) (length rot_pos.now) × FilledBelow rot_atom.old start × ReachFits cell reach }
    ensures { (rot_atom.new ≡ place_of (nearOf cell pos.now rot_pos.now) i rot_atom.old)
        × (result ≡ noted_at (distance_of cell pos.now rot_pos.now) rot_atom.old i) }
{
    let f = find(rot_atom, cell, reach, pos, rot_pos, i, start);
    let j = f.at;
    if j < rot_atom.len() {
        rot_atom[j] = i as i64;
    }
    f.none
}

// The first pair: p, which has position n if there was none so far; otherwise position i with slot s, which is n if there is none.
fn first_pair(p: Pair, n: usize, i: usize, s: usize) -> Pair
    ensures { result ≡ first_pair p n i s }
{
    if p.position < n {
        return p;
    }
    if s < n {
        return Pair {
            position: i,
            slot: s,
        };
    }
    p
}

// Places every position, for i rising. Returns the first pair that was tried and whose distance is no number; its position is the number of slots if there is none.
fn place_all(rot_atom: &mut [i64], cell: Cell, pos: &[f64], rot_pos: &[f64]) -> Pair
    requires { Triples (length rot_atom.old) (length pos.now) (length rot_pos.now) }
    ensures { (rot_atom.new
        ≡ times (length rot_atom.old) (place_of (nearOf cell pos.now rot_pos.now)) rot_atom.old)
        × (result ≡ pair_after (distance_of cell pos.now rot_pos.now) rot_atom.old (length rot_atom.old)) }
{
    let r = reach_of(cell);
    let mut first = Pair {
        position: rot_atom.len(),
        slot: 0,
    };
    let mut start = 0;
    for i in 0..rot_atom.len() {
        start = skip_filled(rot_atom, start);
        let s = place(rot_atom, cell, r, pos, rot_pos, i, start);
        first = first_pair(first, rot_atom.len(), i, s);
    }
    first
}

// What a match that fails answers: p is the first pair whose distance is no number, and has position n if there is none.
fn failed(n: usize, p: Pair) -> Matching
    ensures { result ≡ failed_by n p }
{
    if p.position < n {
        return Matching::NoNumber(p);
    }
    Matching::NotMatched
}

// Sets every slot to -1 and places every position.
pub fn fill(rot_atom: &mut [i64], cell: Cell, pos: &[f64], rot_pos: &[f64]) -> Matching
    requires { Triples (length rot_atom.old) (length pos.now) (length rot_pos.now) }
    ensures { (result, rot_atom.new) ≡ searched (distance_of cell pos.now rot_pos.now) (length rot_atom.old) }
{
    clear(rot_atom);
    let p = place_all(rot_atom, cell, pos, rot_pos);
    if all_filled(rot_atom) {
        return Matching::Matched;
    }
    failed(rot_atom.len(), p)
}
