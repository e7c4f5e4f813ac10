// distribute_fc4: the target slab receives the blocks of the source slab, rotated.
ghost use Rattle.std.specs.Prelude.{◌≡◌};
ghost use Rattle.distribute.specs.Fc4.{distribute_fc4};

use crate::slabs::{EachAtom, Fill};
use rotations::orders::Fourth;
use tables::Refusal;

// A single block of fourth order.
impl Fill<6561> for Fourth {
    type Block = Fourth;

    ghost atoms = { 0 };

    fn fill(
        fc: &mut [f64],
        c: &[f64; 6561],
        _atom_mapping: &[i64],
        _num_atom: usize,
        target: usize,
        source: usize,
    ) {
        let r = rotations::rotated81(c, blocks::read81(fc, source));
        blocks::write81(fc, target, r);
    }
}

// Fills slab target of fc4 from slab source: block by block at the images of the atoms, rotated. fc4 has num_first slabs.
pub fn distribute_fc4(
    fc4: &mut [f64],
    target: usize,
    source: usize,
    atom_mapping: &[i64],
    num_atom: usize,
    rot_cart: &[f64],
    num_first: usize,
) -> Result<(), Refusal>
    ensures { (result, fc4.new)
        ≡ distribute_fc4 fc4.old target source atom_mapping.now num_atom rot_cart.now num_first }
{
    crate::slabs::distribute::<6561, EachAtom<EachAtom<EachAtom<Fourth>>>>(
        tables::limits::LIMIT4,
        3,
        fc4,
        target,
        source,
        atom_mapping,
        num_atom,
        rot_cart,
        num_first,
    )
}
