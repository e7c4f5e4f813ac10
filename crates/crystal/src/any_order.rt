// The crystal reports of any order: what an order says of its blocks, and the loops over the operations and the blocks.
ghost use Rattle.std.specs.Prelude.{◌≡◌, ℕ, suc, ◌+◌, ◌*◌, ◌≤◌, ◌<◌, List, length, Float};
ghost use Rattle.lists.specs.Digits.{times_power};
ghost use Rattle.blocks.specs.Block.{block};
ghost use Rattle.tables.specs.Conditions.{Readable};
ghost use Rattle.tables.specs.Compact.{shifts_of, TablesFit, given};
ghost use Rattle.places.specs.Places.{in_block};
ghost use Rattle.rotations.specs.Rotation.{coefficients, rotated, sums};
ghost use Rattle.audits.specs.Guard.{Ready, full_tables};
ghost use Rattle.reports.specs.Loops.{look_differences};
ghost use Rattle.crystal.specs.Crystal.{image, crystal_report_compact, crystal_report_full};
ghost use Rattle.crystal.specs.Laws.{Sends, Operating, image_block, operation_seen, all_seen};

use crate::judge;
use audits::guard::FullTables;
use places::{index_of, row_of};
use reports::seen::{Seen, look_differences, start};
use reports::{Report, conclude};
use shifts::judge_set;
use tables::Refusal;
use tables::atoms::SuperAtom;
use tables::index::entry;
use tables::sets::judge_full;
use tables::shift_tables::ShiftTables;

// Where operation r sends atom a.
pub fn image(operations: &[i64], n_satom: usize, r: usize, a: SuperAtom) -> SuperAtom
    requires { Readable operations.now (r * n_satom + a.0) }
    ensures { result.0 ≡ image n_satom operations.now r a.0 }
{
    let i = a.0;
    SuperAtom(entry(operations, r * n_satom + i))
}

// A set of RANK + 1 legs: blocks of N numbers, each rotated by C coefficients.
pub trait Order<const N: usize, const C: usize> {
    ghost LIMIT: { ℕ };

    ghost RANK: { ℕ };

    // The most atoms of a set.
    const LIMIT: usize;

    const RANK: usize;

    // The block of the read-out at the images of the atoms of block b under operation r.
    fn image_block(tables: &ShiftTables, operations: &[i64], r: usize, b: usize) -> usize
        requires { TablesFit LIMIT (given tables.now) × Sends tables.now.n_satom operations.now r × (b < times_power tables.now.n_satom RANK tables.now.n_patom) }
        ensures { result ≡ image_block (shifts_of (given tables.now)) RANK operations.now r b };

    // Puts the coefficients of a block rotated by m into c. c is lent: of fourth order it has 52 kB, and no step is to hold a copy.
    fn coefficients(m: [f64; 9], c: &mut [f64; C])
        ensures { c.new ≡ coefficients m (suc RANK) N };

    // The block that they make of block t.
    fn rotated(c: &[f64; C], t: [f64; N]) -> [f64; N]
        ensures { result ≡ sums N N N 0 c.now t.entry };

    ghost width: { in_block RANK ≡ N };

    ghost small: { (1 ≤ LIMIT) × (LIMIT ≤ 1024) × (RANK ≤ 3) × (N ≤ 81) × (C ≤ 6561) };
}

// Looks at block `to` minus block `from` rotated by the matrix whose coefficients c has.
fn look_block<const N: usize, const C: usize, O: Order<N, C>>(
    fc: &[f64],
    c: &[f64; C],
    to: usize,
    from: usize,
    first: usize,
    seen: Seen,
) -> Seen
    requires { (to * N + N ≤ length fc.now) × (from * N + N ≤ length fc.now) × (first + N < 4611686018427387904) }
    ensures { (m : List Float) → c.now ≡ coefficients m (suc O.RANK) N
        → result ≡ look_differences first (block N to fc.now) (rotated m (suc O.RANK) (block N from fc.now)) seen }
{
    let x = blocks::sized::read::<N>(fc, to);
    let y = O::rotated(c, blocks::sized::read::<N>(fc, from));
    look_differences(&x, &y, first, seen)
}

// Looks at every block under operation r, whose coefficients c has.
fn look_operation<const N: usize, const C: usize, O: Order<N, C>>(
    fc: &[f64],
    c: &[f64; C],
    tables: &ShiftTables,
    operations: &[i64],
    r: usize,
    seen0: Seen,
) -> Seen
    requires { Ready O.LIMIT O.RANK (length fc.now) (given tables.now) × Sends tables.now.n_satom operations.now r × (r < 1024) }
    ensures { ((carts : List Float) → c.now ≡ coefficients (block 9 r carts) (suc O.RANK) N → result ≡ operation_seen (shifts_of (given tables.now)) O.RANK carts operations.now fc.now N (times_power tables.now.n_satom O.RANK tables.now.n_patom) r seen0) }
{
    let count = row_of(fc.len(), N);
    let mut seen = seen0;
    for b in 0..count {
        let to = O::image_block(tables, operations, r, b);
        let first = index_of(r, fc.len(), index_of(b, N, 0));
        seen = look_block::<N, C, O>(fc, c, to, b, first, seen);
    }
    seen
}

// Operation after operation.
fn scan<const N: usize, const C: usize, O: Order<N, C>>(
    fc: &[f64],
    tables: &ShiftTables,
    r_carts: &[f64],
    operations: &[i64],
    num_rot: usize,
) -> Seen
    requires { Ready O.LIMIT O.RANK (length fc.now) (given tables.now) × Operating tables.now.n_satom num_rot (length r_carts.now) operations.now }
    ensures { result ≡ all_seen (shifts_of (given tables.now)) O.RANK r_carts.now operations.now fc.now num_rot }
{
    let mut seen = start();
    let mut c = [0.0f64; C];
    for r in 0..num_rot {
        O::coefficients(blocks::read9(r_carts, r), &mut c);
        seen = look_operation::<N, C, O>(fc, &c, tables, operations, r, seen);
    }
    seen
}

// The report of a compact set, which is read only.
pub fn crystal_report_compact<const N: usize, const C: usize, O: Order<N, C>>(
    fc: &[f64],
    tables: &ShiftTables,
    r_carts: &[f64],
    operations: &[i64],
    num_rot: usize,
) -> Result<Report, Refusal>
    ensures { result ≡ crystal_report_compact O.LIMIT O.RANK fc.now r_carts.now operations.now (given tables.now) num_rot }
{
    let s = judge_set(O::LIMIT, O::RANK, fc.len(), tables);
    judge(s, tables.n_satom, num_rot, r_carts.len(), operations)?;
    let seen = scan::<N, C, O>(fc, tables, r_carts, operations, num_rot);
    Ok(conclude(seen))
}

// A full set is a compact set in which every atom is its own representative.
fn scan_full<const N: usize, const C: usize, O: Order<N, C>>(
    fc: &[f64],
    r_carts: &[f64],
    operations: &[i64],
    n: usize,
    num_rot: usize,
) -> Seen
    requires { Ready O.LIMIT O.RANK (length fc.now) (full_tables n) × (n ≤ 1024) × Operating n num_rot (length r_carts.now) operations.now }
    ensures { result ≡ all_seen (shifts_of (full_tables n)) O.RANK r_carts.now operations.now fc.now num_rot }
{
    let whole = FullTables::new(n);
    scan::<N, C, O>(fc, &whole.tables(), r_carts, operations, num_rot)
}

// The report of a full set.
pub fn crystal_report<const N: usize, const C: usize, O: Order<N, C>>(
    fc: &[f64],
    r_carts: &[f64],
    operations: &[i64],
    num_atom: usize,
    num_rot: usize,
) -> Result<Report, Refusal>
    ensures { result ≡ crystal_report_full O.LIMIT O.RANK fc.now r_carts.now operations.now num_atom num_rot }
{
    let s = judge_full(O::LIMIT, O::RANK, fc.len(), num_atom);
    judge(s, num_atom, num_rot, r_carts.len(), operations)?;
    let seen = scan_full::<N, C, O>(fc, r_carts, operations, num_atom, num_rot);
    Ok(conclude(seen))
}
