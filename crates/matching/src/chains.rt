// The search for a chain of exchanges: position i takes a near slot, and the position that it drives out looks for another, one position deeper.
ghost use Rattle.std.specs.Prelude.{◌≡◌, ◌<◌, length, set, pos};
ghost use Rattle.distances.specs.Near.{near as nearOf};
ghost use Rattle.distances.specs.Reach.{ReachFits};
ghost use Rattle.matching.specs.Matching.{is_filled};
ghost use Rattle.matching.specs.Slots.{Triples, slot_at};
ghost use Rattle.matching.specs.Chains.{Homeless, Ready, Searched, is_open};

use distances::{Cell, Reach, near};

// Slot j gets position i.
fn give(rot_atom: &mut [i64], j: usize, i: usize)
    requires { (j < length rot_atom.old) × (i < 1024) }
    ensures { rot_atom.new ≡ set rot_atom.old j (pos i) }
{
    rot_atom[j] = i as i64;
}

// Whether slot j holds a position.
pub fn filled_at(rot_atom: &[i64], j: usize) -> bool
    requires { j < length rot_atom.now }
    ensures { result ≡ is_filled (slot_at rot_atom.now j) }
{
    crate::slots::is_filled(rot_atom[j])
}

// Whether position i may take slot j: it is near, and free or held by a position that was not met yet.
fn is_open(
    rot_atom: &[i64],
    marks: &[u8],
    cell: Cell,
    reach: Reach,
    pos: &[f64],
    rot_pos: &[f64],
    i: usize,
    j: usize,
) -> bool
    requires homeless { Homeless (nearOf cell pos.now rot_pos.now) (length rot_atom.now) rot_atom.now marks.now i }
    requires triples { Triples (length rot_atom.now) (length pos.now) (length rot_pos.now) × ReachFits cell reach }
    requires j_in_bounds { j < length rot_atom.now }
    ensures { result ≡ is_open (nearOf cell pos.now rot_pos.now) rot_atom.now marks.now i j }
{
    if near(cell, reach, pos, rot_pos, i, j) {
        if filled_at(rot_atom, j) {
            return marks[tables::index::entry(rot_atom, j)] != 1;
        }
        return true;
    }
    false
}

// Looks for a slot for position i, which is in none: true where a chain of exchanges places it, false where the slots stay as they were. The positions met on
// the way are marked, each once; `left` is the depth that is left: no fewer than the positions that are not marked, and less by one at each call. A slot is
// given before the position that it held looks for another, and given back where that fails, so at every call just one position is without a slot.
// Which of several chains is found document 02 leaves free, so the promise is a relation, of what every chain leaves, and no equation.
pub fn search(
    rot_atom: &mut [i64],
    marks: &mut [u8],
    cell: Cell,
    reach: Reach,
    pos: &[f64],
    rot_pos: &[f64],
    i: usize,
    left: usize,
) -> bool
    requires ready { Ready (nearOf cell pos.now rot_pos.now) (length rot_atom.old) rot_atom.old marks.old i left }
    requires triples { Triples (length rot_atom.old) (length pos.now) (length rot_pos.now) × ReachFits cell reach }
    ensures { Searched (nearOf cell pos.now rot_pos.now) (length rot_atom.old) rot_atom.old
        marks.old i result rot_atom.new marks.new }
{
    marks[i] = 1;
    for j in 0..rot_atom.len() {
        if is_open(rot_atom, marks, cell, reach, pos, rot_pos, i, j) {
            if !filled_at(rot_atom, j) {
                give(rot_atom, j, i);
                return true;
            }
            let k = tables::index::entry(rot_atom, j);
            give(rot_atom, j, i);
            if search(rot_atom, marks, cell, reach, pos, rot_pos, k, left - 1) {
                return true;
            }
            give(rot_atom, j, k);
        }
    }
    false
}
