// The difference reports of any order: all permutations of the legs.
ghost use Rattle.std.specs.Prelude.{◌≡◌, ◌≤◌, length};
ghost use Rattle.tables.specs.Compact.{shifts_of, given};
ghost use Rattle.audits.specs.Guard.{Ready, full_tables};
ghost use Rattle.differences.specs.Difference.{difference_report_compact, difference_report_full};
ghost use Rattle.differences.specs.Laws.{all_seen};

use crate::look_block;
use audits::any_order::Order;
use audits::guard::FullTables;
use places::row_of;
use reports::seen::{Seen, start};
use reports::{Report, conclude};
use shifts::judge_set;
use tables::Refusal;
use tables::sets::judge_full;
use tables::shift_tables::ShiftTables;

// Block after block.
fn scan<const N: usize, const G: usize, const P: usize, O: Order<N, G, P>>(
    fc: &[f64],
    tables: &ShiftTables,
) -> Seen
    requires { Ready O.LIMIT O.RANK (length fc.now) (given tables.now) }
    ensures { result ≡ all_seen (shifts_of (given tables.now)) O.RANK O.permutations fc.now }
{
    let t = O::positions();
    let count = row_of(fc.len(), N);
    let mut seen = start();
    for b in 0..count {
        let bs = O::group_blocks(tables, b);
        seen = look_block(fc, &bs, &t, N, b, seen);
    }
    seen
}

// The report of a compact set, which is read only.
pub fn difference_report_compact<const N: usize, const G: usize, const P: usize, O: Order<N, G, P>>(
    fc: &[f64],
    tables: &ShiftTables,
) -> Result<Report, Refusal>
    ensures { result ≡ difference_report_compact O.LIMIT O.RANK O.permutations fc.now (given tables.now) }
{
    judge_set(O::LIMIT, O::RANK, fc.len(), tables)?;
    let seen = scan::<N, G, P, O>(fc, tables);
    Ok(conclude(seen))
}

// A full set is a compact set in which every atom is its own representative.
fn scan_full<const N: usize, const G: usize, const P: usize, O: Order<N, G, P>>(
    fc: &[f64],
    n: usize,
) -> Seen
    requires { Ready O.LIMIT O.RANK (length fc.now) (full_tables n) × (n ≤ 1024) }
    ensures { result ≡ all_seen (shifts_of (full_tables n)) O.RANK O.permutations fc.now }
{
    let whole = FullTables::new(n);
    scan::<N, G, P, O>(fc, &whole.tables())
}

// The report of a full set.
pub fn difference_report<const N: usize, const G: usize, const P: usize, O: Order<N, G, P>>(
    fc: &[f64],
    num_atom: usize,
) -> Result<Report, Refusal>
    ensures { result ≡ difference_report_full O.LIMIT O.RANK O.permutations fc.now num_atom }
{
    judge_full(O::LIMIT, O::RANK, fc.len(), num_atom)?;
    let seen = scan_full::<N, G, P, O>(fc, num_atom);
    Ok(conclude(seen))
}
