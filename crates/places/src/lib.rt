// The one address rule of every rank, in code.
// A block of numbers is named by its number; crate blocks reads and writes it by that.
#![tactic(auto)]

ghost use Rattle.tables.specs.Compact.{given};
ghost use Rattle.std.specs.Prelude.{◌≡◌, [], ◌∷◌, ◌+◌, ◌*◌, ◌/◌, ◌%◌, ◌≤◌, ◌<◌};
ghost use Rattle.lists.specs.Digits.{horner};
ghost use Rattle.places.specs.ReadOuts.{Tables, stored_in};

use tables::atoms::{PrimAtom, SuperAtom};
use tables::shift_tables::ShiftTables;

// One leg more: of the blocks that block b of the legs before it is divided into, one for each of n atoms, the one of atom a. A place in
// a table of rows of n entries is the same sum, and so is a position inside a block, with directions for atoms. The number of every block
// is made by this function; crate blocks has the starts of blocks, crate tables the places in the rows of perms.
pub fn index_of(b: usize, n: usize, a: usize) -> usize
    requires { b * n + a < 4611686018427387904 }
    ensures { result ≡ b * n + a }
{
    b * n + a
}

// The other way: the last leg's atom of block b, and the block of the legs before it.
pub fn column_of(b: usize, n: usize) -> usize
    requires { 0 < n }
    ensures { result ≡ b % n }
{
    b % n
}

pub fn row_of(b: usize, n: usize) -> usize
    requires { 0 < n }
    ensures { result ≡ b / n }
{
    b / n
}

// Block (p, j) of a compact set of second order.
pub fn block2(p: PrimAtom, j: SuperAtom, n_satom: usize) -> usize
    requires { (n_satom ≤ 1024) × (p.0 < 1024) × (j.0 < n_satom) }
    ensures { result ≡ horner n_satom p.0 (j.0 ∷ []) }
{
    index_of(p.0, n_satom, j.0)
}

// Block (p, j, k) of a compact set of third order.
pub fn block3(p: PrimAtom, j: SuperAtom, k: SuperAtom, n_satom: usize) -> usize
    requires { (n_satom ≤ 1024) × (p.0 < 1024) × (j.0 < n_satom) × (k.0 < n_satom) }
    ensures { result ≡ horner n_satom p.0 (j.0 ∷ k.0 ∷ []) }
{
    index_of(block2(p, j, n_satom), n_satom, k.0)
}

// Block (p, j, k, l) of a compact set of fourth order.
pub fn block4(p: PrimAtom, j: SuperAtom, k: SuperAtom, l: SuperAtom, n_satom: usize) -> usize
    requires { (n_satom ≤ 1024) × (p.0 < 1024) × (j.0 < n_satom) × (k.0 < n_satom) × (l.0 < n_satom) }
    ensures { result ≡ horner n_satom p.0 (j.0 ∷ k.0 ∷ l.0 ∷ []) }
{
    index_of(block3(p, j, k, n_satom), n_satom, l.0)
}

// Block (i, j) of a full set of second order, whose first atom is one of the supercell too.
pub fn full2(i: SuperAtom, j: SuperAtom, n: usize) -> usize
    requires { (n ≤ 1024) × (i.0 < n) × (j.0 < n) }
    ensures { result ≡ horner n i.0 (j.0 ∷ []) }
{
    index_of(i.0, n, j.0)
}

// Block (i, j, k) of a full set of third order.
pub fn full3(i: SuperAtom, j: SuperAtom, k: SuperAtom, n: usize) -> usize
    requires { (n ≤ 1024) × (i.0 < n) × (j.0 < n) × (k.0 < n) }
    ensures { result ≡ horner n i.0 (j.0 ∷ k.0 ∷ []) }
{
    index_of(full2(i, j, n), n, k.0)
}

// Block (i, j, k, l) of a full set of fourth order.
pub fn full4(i: SuperAtom, j: SuperAtom, k: SuperAtom, l: SuperAtom, n: usize) -> usize
    requires { (n ≤ 1024) × (i.0 < n) × (j.0 < n) × (k.0 < n) × (l.0 < n) }
    ensures { result ≡ horner n i.0 (j.0 ∷ k.0 ∷ l.0 ∷ []) }
{
    index_of(full3(i, j, k, n), n, l.0)
}

// The position of directions a, b in a block of 9.
pub fn dir2(a: usize, b: usize) -> usize
    requires { (a < 3) × (b < 3) }
    ensures { result ≡ horner 3 a (b ∷ []) }
{
    index_of(a, 3, b)
}

// The position of directions a, b, c in a block of 27.
pub fn dir3(a: usize, b: usize, c: usize) -> usize
    requires { (a < 3) × (b < 3) × (c < 3) }
    ensures { result ≡ horner 3 a (b ∷ c ∷ []) }
{
    index_of(dir2(a, b), 3, c)
}

// Where the block of atoms i and j is stored: at s2pp[i] and where row nsym_list[i] sends j.
pub fn stored_block2(tables: &ShiftTables, i: SuperAtom, j: SuperAtom) -> usize
    requires { let T = given tables.now in Tables T.n_satom T.s2pp T.nsym_list T.perms × (i.0 < T.n_satom) × (j.0 < T.n_satom) }
    ensures { let T = given tables.now in result ≡ stored_in T.n_satom T.s2pp T.nsym_list T.perms i.0 (j.0 ∷ []) }
{
    let t = tables.nsym_at(i);
    block2(tables.s2pp_at(i), tables.perms_at(t, j), tables.n_satom)
}

// The same for atoms i, j and k, of which the row sends the last two.
pub fn stored_block3(tables: &ShiftTables, i: SuperAtom, j: SuperAtom, k: SuperAtom) -> usize
    requires { let T = given tables.now in Tables T.n_satom T.s2pp T.nsym_list T.perms × (i.0 < T.n_satom) × (j.0 < T.n_satom) × (k.0 < T.n_satom) }
    ensures { let T = given tables.now in result ≡ stored_in T.n_satom T.s2pp T.nsym_list T.perms i.0 (j.0 ∷ k.0 ∷ []) }
{
    let t = tables.nsym_at(i);
    block3(
        tables.s2pp_at(i),
        tables.perms_at(t, j),
        tables.perms_at(t, k),
        tables.n_satom,
    )
}

// The same for atoms i, j, k and l.
pub fn stored_block4(
    tables: &ShiftTables,
    i: SuperAtom,
    j: SuperAtom,
    k: SuperAtom,
    l: SuperAtom,
) -> usize
    requires { let T = given tables.now in Tables T.n_satom T.s2pp T.nsym_list T.perms × (i.0 < T.n_satom) × (j.0 < T.n_satom) × (k.0 < T.n_satom) × (l.0 < T.n_satom) }
    ensures { let T = given tables.now in result ≡ stored_in T.n_satom T.s2pp T.nsym_list T.perms i.0 (j.0 ∷ k.0 ∷ l.0 ∷ []) }
{
    let t = tables.nsym_at(i);
    block4(
        tables.s2pp_at(i),
        tables.perms_at(t, j),
        tables.perms_at(t, k),
        tables.perms_at(t, l),
        tables.n_satom,
    )
}
