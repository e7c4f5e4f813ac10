// The rows of the result, for the deltas of second and of third order. The result is cleared and then made row after row: a row is the blocks that
// have the same first atom. Each pair of a displacement and a site symmetry adds its share to all blocks of the row, with coefficients that are worked
// out once, so every number is summed pair after pair as in the Rust. The work slice, which has the rotated blocks of all pairs there, is only cleared.
ghost use Rattle.std.specs.Prelude.{◌≡◌, ℕ, suc, List, ◌+◌, ◌*◌, ◌^◌, ◌<◌, ◌≤◌, length, Float};
ghost use Rattle.lists.specs.Tab.{times};
ghost use Rattle.tables.specs.Conditions.{index_at};
ghost use Rattle.rotations.specs.Rotation.{coefficients as coefficientsOf, rotated};
ghost use Rattle.blocks.specs.Inside.{BlocksIn};
ghost use Rattle.deltas.specs.RotateDelta.{Deltas, deltas_of, rotated_deltas, rotate_delta};
ghost use Rattle.deltas.specs.Rows.{axpy, lead, with_share, spread, add_pair};
ghost use Rattle.deltas.specs.Guard.{Ready, Images};

use rotations::orders::Order;
use std::marker::PhantomData;
use tables::Refusal;

// u times x, added to s number by number.
fn axpy<const W: usize>(s: &mut [f64], x: [f64; W], u: f64)
    requires { length s.old ≡ W }
    ensures { s.new ≡ axpy W u x.entry s.old }
{
    for p in 0..W {
        s[p] = s[p] + u * x[p];
    }
}

// The same with the g-th W numbers of a block.
fn lead<const W: usize>(s: &mut [f64], g: usize, x: [f64; W], u: f64)
    requires { (1 ≤ W) × (W ≤ 27) × (g * W + W ≤ length s.old) }
    ensures { s.new ≡ lead W g u x.entry s.old }
{
    let at = g * W;
    axpy(&mut s[at..at + W], x, u);
}

// A block of the result with the share x of a pair added, for each of its three first directions.
pub fn with_share<const W: usize, const B: usize>(s: [f64; B], x: [f64; W], u: [f64; 3]) -> [f64; B]
    requires { (1 ≤ W) × (W ≤ 27) × (B ≡ 3 * W) }
    ensures { result ≡ with_share W u x.entry s.entry }
{
    let mut r = s;
    lead(&mut r, 0, x, u[0]);
    lead(&mut r, 1, x, u[1]);
    lead(&mut r, 2, x, u[2]);
    r
}

// Adds shares of the deltas, rotated, to blocks of the result: to a single block, or to all that have some atoms more.
// A single block is an impl of its own for each order, since the sums of each size run in an arrangement of their own (crate rotations).
pub trait Share<const C: usize> {
    type Block: Order<C>;

    // how many atoms more
    ghost atoms: { ℕ };

    // Adds to the blocks below target the shares of those below source: target and source number the atoms before, and site symmetry s sends the atoms
    // to their images. c has the coefficients, u the column of inv_u.
    fn share(
        res: &mut [f64],
        deltas: &[f64],
        rot_map_syms: &[i64],
        c: &[f64; C],
        u: [f64; 3],
        s: usize,
        target: usize,
        source: usize,
        num_atom: usize,
    )
        requires images { Images rot_map_syms.now (s * num_atom) num_atom }
        requires blocks_in { BlocksIn num_atom (3 * Self.Block.width) atoms target (length res.old) × BlocksIn num_atom Self.Block.width atoms source (length deltas.now) }
        ensures { (m : List Float)
            → c.now ≡ coefficientsOf m Self.Block.legs Self.Block.width
            → res.new
            ≡ spread (λ j. index_at rot_map_syms.now (s * num_atom + j)) num_atom Self.Block.width u (rotated m Self.Block.legs) deltas.now atoms target
            source res.old };
}

// The shares that S adds, for each atom.
pub struct EachAtom<S>(PhantomData<S>);

impl<const C: usize, S: Share<C>> Share<C> for EachAtom<S> {
    type Block = S::Block;

    ghost atoms = { suc S.atoms };

    fn share(
        res: &mut [f64],
        deltas: &[f64],
        rot_map_syms: &[i64],
        c: &[f64; C],
        u: [f64; 3],
        s: usize,
        target: usize,
        source: usize,
        num_atom: usize,
    ) {
        for j in 0..num_atom {
            let image = tables::index::entry(rot_map_syms, s * num_atom + j);
            let t = places::index_of(target, num_atom, j);
            let f = places::index_of(source, num_atom, image);
            S::share(res, deltas, rot_map_syms, c, u, s, t, f, num_atom);
        }
    }
}

// The share of pair n in row i.
fn add_pair<const C: usize, S: Share<C>>(
    res: &mut [f64],
    deltas: &[f64],
    inv_u: &[f64],
    site_sym_cart: &[f64],
    rot_map_syms: &[i64],
    i: usize,
    n: usize,
    num_atom: usize,
    num_site_sym: usize,
    num_disp: usize,
)
    requires order { (S.Block.legs ≡ suc S.atoms) × (S.Block.width ≡ 3 ^ suc S.atoms) }
    requires ready { let D : Deltas = deltas_of deltas.now inv_u.now site_sym_cart.now rot_map_syms.now num_atom num_site_sym num_disp in Ready D (suc S.atoms) }
    requires in_range { (i < num_atom) × (n < num_disp * num_site_sym) × (length res.old ≡ num_atom ^ suc S.atoms * (3 * 3 ^ suc S.atoms)) }
    ensures { let D : Deltas = deltas_of deltas.now inv_u.now site_sym_cart.now rot_map_syms.now num_atom num_site_sym num_disp in res.new ≡ add_pair D S.atoms i n res.old }
{
    let s = places::column_of(n, num_site_sym);
    let d = places::row_of(n, num_site_sym);
    let mut c = [0.0f64; C];
    S::Block::coefficients(blocks::read9(site_sym_cart, s), &mut c);
    let u = crate::column(inv_u, n, num_disp * num_site_sym);
    let image = tables::index::entry(rot_map_syms, s * num_atom + i);
    let from = places::index_of(d, num_atom, image);
    S::share(res, deltas, rot_map_syms, &c, u, s, i, from, num_atom);
}

// The shares of all pairs in row i.
fn rotate_row<const C: usize, S: Share<C>>(
    res: &mut [f64],
    deltas: &[f64],
    inv_u: &[f64],
    site_sym_cart: &[f64],
    rot_map_syms: &[i64],
    i: usize,
    num_atom: usize,
    num_site_sym: usize,
    num_disp: usize,
)
    requires order { (S.Block.legs ≡ suc S.atoms) × (S.Block.width ≡ 3 ^ suc S.atoms) }
    requires ready { let D : Deltas = deltas_of deltas.now inv_u.now site_sym_cart.now rot_map_syms.now num_atom num_site_sym num_disp in Ready D (suc S.atoms) }
    requires in_range { (i < num_atom) × (length res.old ≡ num_atom ^ suc S.atoms * (3 * 3 ^ suc S.atoms)) }
    ensures { let D : Deltas = deltas_of deltas.now inv_u.now site_sym_cart.now rot_map_syms.now num_atom num_site_sym num_disp in res.new ≡ times (num_disp * num_site_sym) (add_pair D S.atoms i) res.old }
{
    for n in 0..num_disp * num_site_sym {
        add_pair::<C, S>(
            res,
            deltas,
            inv_u,
            site_sym_cart,
            rot_map_syms,
            i,
            n,
            num_atom,
            num_site_sym,
            num_disp,
        );
    }
}

// All rows, whatever stood there before.
fn rotate_rows<const C: usize, S: Share<C>>(
    res: &mut [f64],
    deltas: &[f64],
    inv_u: &[f64],
    site_sym_cart: &[f64],
    rot_map_syms: &[i64],
    num_atom: usize,
    num_site_sym: usize,
    num_disp: usize,
)
    requires order { (S.Block.legs ≡ suc S.atoms) × (S.Block.width ≡ 3 ^ suc S.atoms) }
    requires ready { let D : Deltas = deltas_of deltas.now inv_u.now site_sym_cart.now rot_map_syms.now num_atom num_site_sym num_disp in Ready D (suc S.atoms) }
    requires in_range { length res.old ≡ num_atom ^ suc S.atoms * (3 * 3 ^ suc S.atoms) }
    ensures { let D : Deltas = deltas_of deltas.now inv_u.now site_sym_cart.now rot_map_syms.now num_atom num_site_sym num_disp in res.new ≡ rotated_deltas D (suc S.atoms) }
{
    lists::clear_floats(res);
    for i in 0..num_atom {
        rotate_row::<C, S>(
            res,
            deltas,
            inv_u,
            site_sym_cart,
            rot_map_syms,
            i,
            num_atom,
            num_site_sym,
            num_disp,
        );
    }
}

// The call for deltas of m atoms a block, which has w = 3^m numbers. S adds a pair's shares to a whole row. rot_delta is a work slice.
pub fn rotate_delta<const C: usize, S: Share<C>>(
    limit: usize,
    m: usize,
    w: usize,
    res: &mut [f64],
    deltas: &[f64],
    inv_u: &[f64],
    site_sym_cart: &[f64],
    rot_map_syms: &[i64],
    rot_delta: &mut [f64],
    num_atom: usize,
    num_site_sym: usize,
    num_disp: usize,
) -> Result<(), Refusal>
    requires counts { (limit ≤ 256) × (m ≤ 3) × (w ≡ 3 ^ m) }
    requires order { (m ≡ suc S.atoms) × (S.Block.legs ≡ suc S.atoms) × (S.Block.width ≡ 3 ^ suc S.atoms) }
    ensures { let D : Deltas = deltas_of deltas.now inv_u.now site_sym_cart.now rot_map_syms.now num_atom num_site_sym num_disp in
        (result, res.new, rot_delta.new) ≡ rotate_delta limit m D res.old rot_delta.old }
{
    crate::judge_deltas(
        limit,
        m,
        w,
        res,
        deltas,
        inv_u,
        site_sym_cart,
        rot_map_syms,
        rot_delta,
        num_atom,
        num_site_sym,
        num_disp,
    )?;
    rotate_rows::<C, S>(
        res,
        deltas,
        inv_u,
        site_sym_cart,
        rot_map_syms,
        num_atom,
        num_site_sym,
        num_disp,
    );
    lists::clear_floats(rot_delta);
    Ok(())
}
