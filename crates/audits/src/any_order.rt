// What an order says of the permutations of its legs, and the audits that go block after block.
ghost use Rattle.std.specs.Prelude.{◌≡◌, ℕ, ◌≤◌, ◌<◌, List, length};
ghost use Rattle.lists.specs.Digits.{times_power};
ghost use Rattle.tables.specs.Compact.{shifts_of, TablesFit, given};
ghost use Rattle.places.specs.Places.{in_block};
ghost use Rattle.orbits.specs.Groups.{group_blocks};
ghost use Rattle.audits.specs.Audit.{audited, audit_compact, audit_full};
ghost use Rattle.audits.specs.Blocks.{AlikeTo, Orders};
ghost use Rattle.audits.specs.Guard.{Ready, full_tables};

use crate::Difference;
use crate::guard::FullTables;
use crate::kernel::{difference, look};
use places::row_of;
use shifts::judge_set;
use tables::Refusal;
use tables::sets::judge_full;
use tables::shift_tables::ShiftTables;

// A set of RANK + 1 legs: blocks of N numbers, G permutations of the legs, and their P positions.
pub trait Order<const N: usize, const G: usize, const P: usize> {
    ghost LIMIT: { ℕ };

    ghost RANK: { ℕ };

    ghost permutations: { List (List ℕ) };

    // The most atoms of a set.
    const LIMIT: usize;

    const RANK: usize;

    // The position that each permutation gives to each position of a block, a row for each.
    fn positions() -> [u8; P]
        ensures { Orders RANK permutations result };

    // The blocks of the group of block b, one for each permutation.
    fn group_blocks(tables: &ShiftTables, b: usize) -> [usize; G]
        requires { TablesFit LIMIT (given tables.now) × (b < times_power tables.now.n_satom RANK tables.now.n_patom) }
        ensures { result ≡ group_blocks (shifts_of (given tables.now)) RANK permutations b };

    ghost width: { in_block RANK ≡ N };

    ghost small: { (1 ≤ LIMIT) × (LIMIT ≤ 1024) × (RANK ≤ 3) × (N ≤ 81) × (G ≤ 24) × (P ≤ 1944) };
}

// Block after block from block `from` on, up to the first place at which some permutation reads another number.
fn scan<const N: usize, const G: usize, const P: usize, O: Order<N, G, P>>(
    fc: &[f64],
    tables: &ShiftTables,
    from: usize,
) -> Result<Option<Difference>, Refusal>
    requires { let T = given tables.now in Ready O.LIMIT O.RANK (length fc.now) T × AlikeTo (shifts_of T) O.RANK O.permutations fc.now from }
    ensures { result ≡ audited (shifts_of (given tables.now)) O.RANK O.permutations fc.now }
{
    let t = O::positions();
    let count = row_of(fc.len(), N);
    for b in from..count {
        let bs = O::group_blocks(tables, b);
        let k = look(fc, &bs, &t, N, b);
        if k < N {
            return Ok(Some(difference(fc, &bs, &t, N, b, k)));
        }
    }
    Ok(None)
}

// From the first block on.
fn settle<const N: usize, const G: usize, const P: usize, O: Order<N, G, P>>(
    fc: &[f64],
    tables: &ShiftTables,
) -> Result<Option<Difference>, Refusal>
    requires { Ready O.LIMIT O.RANK (length fc.now) (given tables.now) }
    ensures { result ≡ audited (shifts_of (given tables.now)) O.RANK O.permutations fc.now }
{
    scan::<N, G, P, O>(fc, tables, 0)
}

// The audit of a compact set, which is read only.
pub fn audit_compact<const N: usize, const G: usize, const P: usize, O: Order<N, G, P>>(
    fc: &[f64],
    tables: &ShiftTables,
) -> Result<Option<Difference>, Refusal>
    ensures { result ≡ audit_compact O.LIMIT O.RANK O.permutations fc.now (given tables.now) }
{
    judge_set(O::LIMIT, O::RANK, fc.len(), tables)?;
    settle::<N, G, P, O>(fc, tables)
}

// A full set is a compact set in which every atom is its own representative.
fn scan_full<const N: usize, const G: usize, const P: usize, O: Order<N, G, P>>(
    fc: &[f64],
    n: usize,
) -> Result<Option<Difference>, Refusal>
    requires { Ready O.LIMIT O.RANK (length fc.now) (full_tables n) × (n ≤ 1024) }
    ensures { result ≡ audited (shifts_of (full_tables n)) O.RANK O.permutations fc.now }
{
    let whole = FullTables::new(n);
    settle::<N, G, P, O>(fc, &whole.tables())
}

// The audit of a full set.
pub fn audit<const N: usize, const G: usize, const P: usize, O: Order<N, G, P>>(
    fc: &[f64],
    num_atom: usize,
) -> Result<Option<Difference>, Refusal>
    ensures { result ≡ audit_full O.LIMIT O.RANK O.permutations fc.now num_atom }
{
    judge_full(O::LIMIT, O::RANK, fc.len(), num_atom)?;
    scan_full::<N, G, P, O>(fc, num_atom)
}
