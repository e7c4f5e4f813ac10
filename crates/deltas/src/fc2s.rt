// rotate_delta_fc2s (fc3.rs).
ghost use Rattle.std.specs.Prelude.{◌≡◌};
ghost use Rattle.deltas.specs.RotateDelta.{deltas_of, rotate_delta_fc2s};

use crate::rows::{EachAtom, Share, with_share};
use rotations::orders::Second;
use tables::Refusal;

// The share of a single block of second order.
impl Share<81> for Second {
    type Block = Second;

    ghost atoms = { 0 };

    fn share(
        res: &mut [f64],
        deltas: &[f64],
        _rot_map_syms: &[i64],
        c: &[f64; 81],
        u: [f64; 3],
        _s: usize,
        target: usize,
        source: usize,
        _num_atom: usize,
    ) {
        let x = rotations::rotated9(c, blocks::read9(deltas, source));
        let old = blocks::read27(res, target);
        blocks::write27(res, target, with_share(old, x, u));
    }
}

// The blocks of third order for a displaced atom and all pairs of atoms, from delta_fc2s, the changes of a set of second order by num_disp displacements
// of that atom. Each change is rotated by each site symmetry, and inv_u, 3 by num_disp * num_site_sym, makes of them one block for each direction of
// the displaced atom. rot_delta is a work slice.
pub fn rotate_delta_fc2s(
    fc3: &mut [f64],
    delta_fc2s: &[f64],
    inv_u: &[f64],
    site_sym_cart: &[f64],
    rot_map_syms: &[i64],
    rot_delta: &mut [f64],
    num_atom: usize,
    num_site_sym: usize,
    num_disp: usize,
) -> Result<(), Refusal>
    ensures { let D = deltas_of delta_fc2s.now inv_u.now site_sym_cart.now
        rot_map_syms.now num_atom num_site_sym num_disp in
        (result, fc3.new, rot_delta.new) ≡ rotate_delta_fc2s D fc3.old rot_delta.old }
{
    crate::rows::rotate_delta::<81, EachAtom<Second>>(
        tables::limits::LIMIT3,
        2,
        9,
        fc3,
        delta_fc2s,
        inv_u,
        site_sym_cart,
        rot_map_syms,
        rot_delta,
        num_atom,
        num_site_sym,
        num_disp,
    )
}
