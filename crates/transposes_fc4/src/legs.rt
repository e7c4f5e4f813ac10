// Two legs of every number of a compact set of fourth order exchanged: the transposes and the swaps of fourth order. Pair after pair of first two
// atoms, block after block: a block and its counterpart change places, permuted, at the lower one of them. The loops know the two legs by the order
// that they make, which undoes itself. Blocks that a half shift exchanges with their own pair stay where half_shifts_stay says so: the Rust's
// transpose of legs 0 and 1 leaves them.
ghost use Rattle.std.specs.Prelude.{◌≡◌, false, ◌+◌, ◌*◌, ◌<◌, [], ◌∷◌, length, get_or};
ghost use Rattle.lists.specs.Elements.{Below};
ghost use Rattle.tables.specs.Compact.{given};
ghost use Rattle.places.specs.Permutations.{Permutation};
ghost use Rattle.places.specs.ReadOuts.{Tables};
ghost use Rattle.orbits.specs.Exchanging.{partner as partnerOf, exchanging};
ghost use Rattle.orbits.specs.HalfShift.{Trading, PairAt};
ghost use Rattle.positions.specs.Positions.{address_table};
ghost use Rattle.transposes_fc4.specs.Rows.{first_pairs, pair_rows, pair_row, taken_to};
ghost use Rattle.transposes_fc4.specs.Loops.{Swap, at4, read_out_in, trade_at, line4, plane4, pairs4};

use crate::exchanging::exchange;
use orbits::half_shifts::stays;
use places::{block4, column_of, index_of, row_of, stored_block4};
use positions::{addresses, entry};
use tables::atoms::{PrimAtom, SuperAtom};
use tables::shift_tables::ShiftTables;

// Positions of the 27 pairs of numbers of a block that change places where its first two directions do, and of their partners 27 places on: (0, 1, c, d),
// (0, 2, c, d) and (1, 2, c, d), and (1, 0, c, d), (2, 0, c, d) and (2, 1, c, d).
const FIRST_PAIRS: [u8; 54] = [
    9, 10, 11, 12, 13, 14, 15, 16, 17, 18, 19, 20, 21, 22, 23, 24, 25, 26, 45, 46, 47, 48, 49, 50,
    51, 52, 53, 27, 28, 29, 30, 31, 32, 33, 34, 35, 54, 55, 56, 57, 58, 59, 60, 61, 62, 63, 64, 65,
    66, 67, 68, 69, 70, 71,
];

fn first_pairs() -> [u8; 54]
    ensures { result ≡ first_pairs }
{
    FIRST_PAIRS
}

// Which of the 24 permutations takes directions 0 and 1 to legs a and b, in row a and column b.
const PAIR_ROWS: [usize; 16] = [0, 0, 2, 3, 0, 0, 12, 13, 2, 12, 0, 16, 3, 13, 16, 0];

fn pair_rows() -> [usize; 16]
    ensures { result ≡ pair_rows }
{
    PAIR_ROWS
}

fn pair_row(leg_a: usize, leg_b: usize) -> usize
    requires { (leg_a < 4) × (leg_b < 4) }
    ensures { result ≡ pair_row leg_a leg_b }
{
    let rows = pair_rows();
    rows[index_of(leg_a, 4, leg_b)]
}

// The leg that comes to stand at leg k.
fn partner(leg_a: usize, leg_b: usize, k: usize) -> usize
    ensures { result ≡ partnerOf leg_a leg_b k }
{
    if k == leg_a {
        return leg_b;
    }
    if k == leg_b {
        return leg_a;
    }
    k
}

// The order of the four legs with two of them exchanged.
pub fn order_of(leg_a: usize, leg_b: usize) -> [usize; 4]
    ensures { result ≡ exchanging 3 leg_a leg_b }
{
    [
        partner(leg_a, leg_b, 0),
        partner(leg_a, leg_b, 1),
        partner(leg_a, leg_b, 2),
        partner(leg_a, leg_b, 3),
    ]
}

// The 27 pairs of numbers of a block that change places where two of its directions do: those of the first two directions, taken to the legs by row s of
// the table.
fn pairs_by(t: &[u8; 1944], s: usize) -> [u8; 54]
    requires { (t.now ≡ address_table) × (s < 24) }
    ensures { result ≡ taken_to s }
{
    let first = first_pairs();
    let mut m = [0u8; 54];
    for n in 0..54 {
        m[n] = entry(t, s, first[n] as usize);
    }
    m
}

// Those of two different legs.
pub fn pairs_of(leg_a: usize, leg_b: usize) -> [u8; 54]
    requires { (leg_a < 4) × (leg_b < 4) × (leg_a ≡ leg_b → ⊥) }
    ensures { result ≡ taken_to (pair_row leg_a leg_b) }
{
    let t = addresses();
    pairs_by(&t, pair_row(leg_a, leg_b))
}

// The atom that comes to stand at leg k, of the atoms w in the order o.
fn atom_at(w: &[usize; 4], o: &[usize; 4], k: usize) -> SuperAtom
    requires { (k < 4) × (get_or o.now k 0 < 4) }
    ensures { result.0 ≡ get_or w.now (get_or o.now k 0) 0 }
{
    let q = o[k];
    SuperAtom(w[q])
}

// The counterpart of block (p, j, k, l): the read-out block of its atoms in the order o. i is p's representative.
pub fn counterpart_of(
    tables: &ShiftTables,
    o: &[usize; 4],
    i: SuperAtom,
    j: SuperAtom,
    k: SuperAtom,
    l: SuperAtom,
) -> usize
    requires { Tables tables.now.n_satom tables.now.s2pp.now tables.now.nsym_list.now tables.now.perms.now × Permutation 3 o.now × Below tables.now.n_satom (i.0 ∷ (j.0 ∷ (k.0 ∷ (l.0 ∷ [])))) }
    ensures { result
        ≡ read_out_in tables.now.n_satom tables.now.s2pp.now tables.now.nsym_list.now tables.now.perms.now o.now
        (i.0 ∷ (j.0 ∷ (k.0 ∷ (l.0 ∷ [])))) }
{
    let w = [i.0, j.0, k.0, l.0];
    stored_block4(
        tables,
        atom_at(&w, o, 0),
        atom_at(&w, o, 1),
        atom_at(&w, o, 2),
        atom_at(&w, o, 3),
    )
}

// Block (p, j, k, l) and its counterpart: i is p's representative.
fn trade(
    fc4: &mut [f64],
    tables: &ShiftTables,
    o: &[usize; 4],
    m: &[u8; 54],
    p: PrimAtom,
    i: SuperAtom,
    j: SuperAtom,
    k: SuperAtom,
    l: SuperAtom,
)
    requires pair_at { PairAt 3 (length fc4.old) (given tables.now) p.0 i.0 j.0 × Swap o.now m.now }
    requires in_range { (k.0 < tables.now.n_satom) × (l.0 < tables.now.n_satom) }
    ensures { let T = given tables.now in fc4.new ≡ trade_at false o.now T (at4 T p.0 j.0 k.0 l.0) fc4.old }
{
    let b = block4(p, j, k, l, tables.n_satom);
    let c = counterpart_of(tables, o, i, j, k, l);
    if b <= c {
        exchange(fc4, o[0] == 1, m, b, c);
    }
}

// The blocks (p, j, k, 0), (p, j, k, 1), ..
fn line(
    fc4: &mut [f64],
    tables: &ShiftTables,
    o: &[usize; 4],
    m: &[u8; 54],
    p: PrimAtom,
    i: SuperAtom,
    j: SuperAtom,
    k: SuperAtom,
)
    requires pair_at { PairAt 3 (length fc4.old) (given tables.now) p.0 i.0 j.0 × Swap o.now m.now }
    requires in_range { k.0 < tables.now.n_satom }
    ensures { fc4.new ≡ line4 false o.now (given tables.now) (p.0 * tables.now.n_satom + j.0) k.0 fc4.old }
{
    for l in 0..tables.n_satom {
        trade(fc4, tables, o, m, p, i, j, k, SuperAtom(l));
    }
}

// The blocks of pair (p, j).
fn plane(
    fc4: &mut [f64],
    tables: &ShiftTables,
    o: &[usize; 4],
    m: &[u8; 54],
    p: PrimAtom,
    i: SuperAtom,
    j: SuperAtom,
)
    requires { PairAt 3 (length fc4.old) (given tables.now) p.0 i.0 j.0 × Swap o.now m.now }
    ensures { fc4.new ≡ plane4 false o.now (given tables.now) (p.0 * tables.now.n_satom + j.0) fc4.old }
{
    for k in 0..tables.n_satom {
        line(fc4, tables, o, m, p, i, j, SuperAtom(k));
    }
}

// Pair q: its atoms are a block's of second order.
fn pair(
    fc4: &mut [f64],
    tables: &ShiftTables,
    half_shifts_stay: bool,
    o: &[usize; 4],
    m: &[u8; 54],
    q: usize,
)
    requires { Trading 3 (length fc4.old) (given tables.now) × (q < tables.now.n_patom * tables.now.n_satom) × Swap o.now m.now }
    ensures { fc4.new ≡ plane4 half_shifts_stay o.now (given tables.now) q fc4.old }
{
    let first = row_of(q, tables.n_satom);
    let second = column_of(q, tables.n_satom);
    let p = PrimAtom(first);
    let j = SuperAtom(second);
    if stays(tables, half_shifts_stay, p, j) {
        return;
    }
    let i = tables.p2s_at(p);
    plane(fc4, tables, o, m, p, i, j);
}

// All pairs.
fn pairs(
    fc4: &mut [f64],
    tables: &ShiftTables,
    half_shifts_stay: bool,
    o: &[usize; 4],
    m: &[u8; 54],
)
    requires { Trading 3 (length fc4.old) (given tables.now) × Swap o.now m.now }
    ensures { fc4.new ≡ pairs4 half_shifts_stay o.now (given tables.now) fc4.old }
{
    for q in 0..tables.n_patom * tables.n_satom {
        pair(fc4, tables, half_shifts_stay, o, m, q);
    }
}

// Legs a and b of every number, two different ones, change places, but for blocks that stay.
pub fn exchange_legs(
    fc4: &mut [f64],
    tables: &ShiftTables,
    half_shifts_stay: bool,
    leg_a: usize,
    leg_b: usize,
)
    requires { Trading 3 (length fc4.old) (given tables.now) × (leg_a < 4) × (leg_b < 4) × (leg_a ≡ leg_b → ⊥) }
    ensures { fc4.new ≡ pairs4 half_shifts_stay (exchanging 3 leg_a leg_b) (given tables.now) fc4.old }
{
    let o = order_of(leg_a, leg_b);
    let m = pairs_of(leg_a, leg_b);
    pairs(fc4, tables, half_shifts_stay, &o, &m);
}
