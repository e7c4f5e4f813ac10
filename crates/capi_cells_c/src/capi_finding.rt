// The exports of capi_cells::capi_finding.
ghost use Rattle.capi_cells.specs.Finding.{Finds};

// Which position each rotated position comes from: 0 if a bijection of near pairs was found, 72 if none exists, and then the positions that marks
// has a 1 for have fewer near slots between them than they are; or document 01's number of the refusal.
#[unsafe(no_mangle)]
pub extern "C" fn gf_find_permutation(
    rot_atom: &mut [i64],
    marks: &mut [u8],
    lattice: &[f64],
    symprec: f64,
    periodic: &[u8],
    pos: &[f64],
    rot_pos: &[f64],
    num_pos: usize,
) -> u8
    ensures { Finds rot_atom.old marks.old lattice.now symprec periodic.now pos.now
        rot_pos.now num_pos (result, rot_atom.new, marks.new) }
{
    capi_cells::capi_finding::gf_find_permutation(
        rot_atom, marks, lattice, symprec, periodic, pos, rot_pos, num_pos,
    )
}
