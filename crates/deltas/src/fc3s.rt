// rotate_delta_fc3s (fc4.rs).
ghost use Rattle.std.specs.Prelude.{◌≡◌};
ghost use Rattle.deltas.specs.RotateDelta.{deltas_of, rotate_delta_fc3s};

use crate::rows::{EachAtom, Share, with_share};
use rotations::orders::Third;
use tables::Refusal;

// The share of a single block of third order.
impl Share<729> for Third {
    type Block = Third;

    ghost atoms = { 0 };

    fn share(
        res: &mut [f64],
        deltas: &[f64],
        _rot_map_syms: &[i64],
        c: &[f64; 729],
        u: [f64; 3],
        _s: usize,
        target: usize,
        source: usize,
        _num_atom: usize,
    ) {
        let x = rotations::rotated27(c, blocks::read27(deltas, source));
        let old = blocks::read81(res, target);
        blocks::write81(res, target, with_share(old, x, u));
    }
}

// The blocks of fourth order for a displaced atom and all triples of atoms, from delta_fc3s, the changes of a set of third order by num_disp displacements
// of that atom, as in rotate_delta_fc2s. rot_delta is a work slice.
pub fn rotate_delta_fc3s(
    fc4: &mut [f64],
    delta_fc3s: &[f64],
    inv_u: &[f64],
    site_sym_cart: &[f64],
    rot_map_syms: &[i64],
    rot_delta: &mut [f64],
    num_atom: usize,
    num_site_sym: usize,
    num_disp: usize,
) -> Result<(), Refusal>
    ensures { let D = deltas_of delta_fc3s.now inv_u.now site_sym_cart.now
        rot_map_syms.now num_atom num_site_sym num_disp in
        (result, fc4.new, rot_delta.new) ≡ rotate_delta_fc3s D fc4.old rot_delta.old }
{
    crate::rows::rotate_delta::<729, EachAtom<EachAtom<Third>>>(
        tables::limits::LIMIT4,
        3,
        27,
        fc4,
        delta_fc3s,
        inv_u,
        site_sym_cart,
        rot_map_syms,
        rot_delta,
        num_atom,
        num_site_sym,
        num_disp,
    )
}
