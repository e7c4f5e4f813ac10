// distribute_fc3: the target slab receives the blocks of the source slab, rotated.
ghost use Rattle.std.specs.Prelude.{◌≡◌};
ghost use Rattle.distribute.specs.Fc3.{distribute_fc3};

use crate::slabs::{EachAtom, Fill};
use rotations::orders::Third;
use tables::Refusal;

// A single block of third order.
impl Fill<729> for Third {
    type Block = Third;

    ghost atoms = { 0 };

    fn fill(
        fc: &mut [f64],
        c: &[f64; 729],
        _atom_mapping: &[i64],
        _num_atom: usize,
        target: usize,
        source: usize,
    ) {
        let r = rotations::rotated27(c, blocks::read27(fc, source));
        blocks::write27(fc, target, r);
    }
}

// Fills slab target of fc3 from slab source: block by block at the images of the atoms, rotated. fc3 has num_first slabs.
pub fn distribute_fc3(
    fc3: &mut [f64],
    target: usize,
    source: usize,
    atom_mapping: &[i64],
    num_atom: usize,
    rot_cart: &[f64],
    num_first: usize,
) -> Result<(), Refusal>
    ensures { (result, fc3.new)
        ≡ distribute_fc3 fc3.old target source atom_mapping.now num_atom rot_cart.now num_first }
{
    crate::slabs::distribute::<729, EachAtom<EachAtom<Third>>>(
        tables::limits::LIMIT3,
        2,
        fc3,
        target,
        source,
        atom_mapping,
        num_atom,
        rot_cart,
        num_first,
    )
}
