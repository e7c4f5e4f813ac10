// The distribute calls of third and fourth order: one guard, one loop over atoms and one call for both. The definitions and laws over the order
// are in specs/.
ghost use Rattle.std.specs.Prelude.{◌≡◌, ℕ, suc, List, ◌+◌, ◌*◌, ◌^◌, ◌≤◌, length, Float};
ghost use Rattle.tables.specs.Conditions.{IndexTable};
ghost use Rattle.rotations.specs.Rotation.{coefficients as coefficientsOf, rotated};
ghost use Rattle.blocks.specs.Inside.{BlocksIn};
ghost use Rattle.distribute.specs.Slab.{judged_slabs, distribute_slab, move};

use rotations::orders::Order;
use std::marker::PhantomData;
use tables::Refusal;

// Fills blocks of a set from others of it, rotated: a single block, or all that have some atoms more.
// A single block is an impl of its own for each order, since the sums of each size run in an arrangement of their own (crate rotations).
pub trait Fill<const C: usize> {
    type Block: Order<C>;

    // how many atoms more
    ghost atoms: { ℕ };

    // Fills the blocks below target from those below source: these number the slab and the atoms before. c has the rotation's coefficients.
    fn fill(
        fc: &mut [f64],
        c: &[f64; C],
        atom_mapping: &[i64],
        num_atom: usize,
        target: usize,
        source: usize,
    )
        requires index_table { IndexTable num_atom num_atom atom_mapping.now }
        requires blocks_in { BlocksIn num_atom Self.Block.width atoms target (length fc.old) × BlocksIn num_atom Self.Block.width atoms source (length fc.old) }
        ensures { (m : List Float)
            → c.now ≡ coefficientsOf m Self.Block.legs Self.Block.width
            → fc.new ≡ move atom_mapping.now num_atom Self.Block.width (rotated m Self.Block.legs) atoms target source fc.old };
}

// What F fills, for each atom.
pub struct EachAtom<F>(PhantomData<F>);

impl<const C: usize, F: Fill<C>> Fill<C> for EachAtom<F> {
    type Block = F::Block;

    ghost atoms = { suc F.atoms };

    fn fill(
        fc: &mut [f64],
        c: &[f64; C],
        atom_mapping: &[i64],
        num_atom: usize,
        target: usize,
        source: usize,
    ) {
        for i in 0..num_atom {
            let image = tables::index::entry(atom_mapping, i);
            let t = places::index_of(target, num_atom, i);
            let s = places::index_of(source, num_atom, image);
            F::fill(fc, c, atom_mapping, num_atom, t, s);
        }
    }
}

// The first of refusals 1, 2, 3 and 4 that applies, or done, for a set of rank k + 1.
pub fn judge_slabs(
    limit: usize,
    k: usize,
    set_len: usize,
    atom_mapping: &[i64],
    num_atom: usize,
    rotation_length: usize,
    num_first: usize,
    target: usize,
    source: usize,
) -> Result<(), Refusal>
    requires { (limit ≤ 1024) × (k ≤ 3) }
    ensures { result ≡ judged_slabs limit k set_len atom_mapping.now num_atom rotation_length num_first target source }
{
    if num_atom > limit {
        return Err(Refusal::CountAboveLimit);
    }
    if num_first > limit {
        return Err(Refusal::CountAboveLimit);
    }
    if set_len != tables::sets::set_length(num_first, num_atom, k) {
        return Err(Refusal::WrongLength);
    }
    if atom_mapping.len() != num_atom {
        return Err(Refusal::WrongLength);
    }
    if rotation_length != 9 {
        return Err(Refusal::WrongLength);
    }
    if !tables::index::all_below(atom_mapping, num_atom) {
        return Err(Refusal::IndexOutOfRange);
    }
    if target >= num_first {
        return Err(Refusal::BadSlab);
    }
    if source >= num_first {
        return Err(Refusal::BadSlab);
    }
    if target == source {
        return Err(Refusal::BadSlab);
    }
    Ok(())
}

// The call for a set of rank k + 1, whose blocks S fills for a whole slab.
pub fn distribute<const C: usize, S: Fill<C>>(
    limit: usize,
    k: usize,
    fc: &mut [f64],
    target: usize,
    source: usize,
    atom_mapping: &[i64],
    num_atom: usize,
    rot_cart: &[f64],
    num_first: usize,
) -> Result<(), Refusal>
    requires counts { (limit ≤ 1024) × (k ≤ 3) }
    requires order { (S.atoms ≡ k) × (S.Block.legs ≡ suc k) × (S.Block.width ≡ 3 ^ suc k) }
    ensures { (result, fc.new)
        ≡ distribute_slab limit k fc.old target source atom_mapping.now num_atom rot_cart.now num_first }
{
    judge_slabs(
        limit,
        k,
        fc.len(),
        atom_mapping,
        num_atom,
        rot_cart.len(),
        num_first,
        target,
        source,
    )?;
    let mut c = [0.0f64; C];
    S::Block::coefficients(blocks::read9(rot_cart, 0), &mut c);
    S::fill(fc, &c, atom_mapping, num_atom, target, source);
    Ok(())
}
