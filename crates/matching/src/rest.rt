// The rest: the positions that are left without a slot get one by chains of exchanges, one after another.
ghost use Rattle.std.specs.Prelude.{◌≡◌, ◌≤◌, ◌<◌, length, replicate};
ghost use Rattle.distances.specs.Near.{near as nearOf};
ghost use Rattle.distances.specs.Reach.{ReachFits};
ghost use Rattle.matching.specs.Slots.{Triples};
ghost use Rattle.matching.specs.Groups.{Partial};
ghost use Rattle.matching.specs.Rest.{HoldsAt, Holding, PlacedOne, PlacedAll};

use distances::{Cell, Reach, reach_of};

// Takes every mark away: a search starts with none, and a match leaves none.
pub fn unmark(marks: &mut [u8])
    ensures { marks.new ≡ replicate (length marks.old) 0 }
{
    lists::clear(marks, 0);
}

// Whether slot j holds position i.
fn holds_at(rot_atom: &[i64], j: usize, i: usize) -> bool
    requires { j < length rot_atom.now }
    ensures { HoldsAt rot_atom.now j i result }
{
    if crate::chains::filled_at(rot_atom, j) {
        let k = tables::index::entry(rot_atom, j);
        return k == i;
    }
    false
}

// Whether position i is in a slot.
fn is_held(rot_atom: &[i64], i: usize) -> bool
    ensures { Holding (length rot_atom.now) rot_atom.now i result }
{
    for j in 0..rot_atom.len() {
        if holds_at(rot_atom, j, i) {
            return true;
        }
    }
    false
}

// Position i gets a slot if it has none. Where that cannot be, the marks are a group with fewer near slots than members.
fn place_one(
    rot_atom: &mut [i64],
    marks: &mut [u8],
    cell: Cell,
    reach: Reach,
    pos: &[f64],
    rot_pos: &[f64],
    i: usize,
) -> bool
    requires partial { Partial (nearOf cell pos.now rot_pos.now) (length rot_atom.old) rot_atom.old
        × (i < length rot_atom.old)
        × (length rot_atom.old ≤ 1024)
        × (length marks.old ≡ length rot_atom.old) }
    requires triples { Triples (length rot_atom.old) (length pos.now) (length rot_pos.now) × ReachFits cell reach }
    ensures { PlacedOne (nearOf cell pos.now rot_pos.now) (length rot_atom.old) rot_atom.old i result
        rot_atom.new marks.new }
{
    if is_held(rot_atom, i) {
        return true;
    }
    unmark(marks);
    crate::chains::search(rot_atom, marks, cell, reach, pos, rot_pos, i, marks.len())
}

// Every position in turn. False at the first that cannot have a slot.
pub fn place_rest(
    rot_atom: &mut [i64],
    marks: &mut [u8],
    cell: Cell,
    pos: &[f64],
    rot_pos: &[f64],
) -> bool
    requires partial { Partial (nearOf cell pos.now rot_pos.now) (length rot_atom.old) rot_atom.old
        × (length rot_atom.old ≤ 1024)
        × (length marks.old ≡ length rot_atom.old) }
    requires triples { Triples (length rot_atom.old) (length pos.now) (length rot_pos.now) }
    ensures { PlacedAll (nearOf cell pos.now rot_pos.now) (length rot_atom.old) rot_atom.old result
        rot_atom.new marks.new }
{
    let reach = reach_of(cell);
    for i in 0..rot_atom.len() {
        if !place_one(rot_atom, marks, cell, reach, pos, rot_pos, i) {
            return false;
        }
    }
    true
}
