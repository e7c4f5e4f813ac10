// C name of `find_permutation`. A slice is passed as a pointer and its length; include/gullyfork.h says the rest.
ghost use Rattle.capi_cells.specs.Finding.{Finds};

use tables::limits::LIMIT2;

// Which position each rotated position comes from: 0 if a bijection of near pairs was found, 72 if none exists, and then the positions that marks
// has a 1 for have fewer near slots between them than they are; or document 01's number of the refusal.
#[unsafe(no_mangle)]
pub extern "C" fn gf_find_permutation(
    rot_atom: &mut [i64],
    marks: &mut [u8],
    lattice: &[f64],
    symprec: f64,
    periodic: &[u8],
    pos: &[f64],
    rot_pos: &[f64],
    num_pos: usize,
) -> u8
    ensures { Finds rot_atom.old marks.old lattice.now symprec periodic.now pos.now
        rot_pos.now num_pos (result, rot_atom.new, marks.new) }
{
    if crate::cell_fits(lattice.len(), periodic.len()) {
        let cell = crate::cell_of(lattice, symprec, periodic);
        let a = matching::finding::find_permutation(rot_atom, marks, cell, pos, rot_pos, num_pos);
        return matching::finding::finding_number(a);
    }
    if num_pos > LIMIT2 {
        return 1;
    }
    2
}
