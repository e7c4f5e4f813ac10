// The audits of fourth order: whether all 24 permutations of any four legs read out the same bits.
ghost use Rattle.std.specs.Prelude.{◌≡◌, ◌≤◌, ◌<◌, length};
ghost use Rattle.std.proofs.Common.{rules};
ghost use Rattle.tables.specs.Limits.{limit4};
ghost use Rattle.tables.specs.Compact.{shifts_of, given};
ghost use Rattle.places.specs.Permutations.{perms4};
ghost use Rattle.audits.specs.Later.{falling, Next};
ghost use Rattle.audits.specs.Audit.{audited, audit_compact, audit_full};
ghost use Rattle.audits.specs.FourthScanLaws.{in81};
ghost use Rattle.audits.specs.Guard.{Ready, full_tables};

use crate::Difference;
use crate::any_order::Order;
use crate::guard::FullTables;
use crate::kernel::{difference, look};
use fc4::group::group_blocks;
use places::{column_of, row_of};
use positions::addresses;
use shifts::judge_set;
use tables::Refusal;
use tables::limits::LIMIT4;
use tables::sets::judge_full;
use tables::shift_tables::ShiftTables;

// Whether one of the last three atoms of block b is below the one before it. The block with these two exchanged is an earlier one of its group then.
fn falls(b: usize, n: usize) -> bool
    requires { 0 < n }
    ensures { result ≡ falling n b }
{
    let l = column_of(b, n);
    let pjk = row_of(b, n);
    let k = column_of(pjk, n);
    let pj = row_of(pjk, n);
    let j = column_of(pj, n);
    if l < k {
        return true;
    }
    k < j
}

// The first block from b on whose last three atoms do not fall. The 24 blocks of a group are worked out for these only.
fn next(b: usize, count: usize, n: usize) -> usize
    requires { (b ≤ count) × (count < 4611686018427387904) × (0 < count → 0 < n) }
    ensures { Next n b count result }
{
    for r in b..count {
        if !falls(r, n) {
            return r;
        }
    }
    count
}

// Sets of fourth order.
pub struct Fourth;

impl Order<81, 24, 1944> for Fourth {
    ghost LIMIT = { limit4 };

    ghost RANK = { 3 };

    ghost permutations = { perms4 };

    const LIMIT: usize = LIMIT4;

    const RANK: usize = 3;

    fn positions() -> [u8; 1944] {
        addresses()
    }

    fn group_blocks(tables: &ShiftTables, b: usize) -> [usize; 24] {
        group_blocks(tables, b)
    }

    ghost width = { in81 };

    ghost small = { Prim.search rules };
}

// Block after block, up to the first place at which some permutation reads another number.
fn scan(fc: &[f64], tables: &ShiftTables) -> Result<Option<Difference>, Refusal>
    requires { Ready limit4 3 (length fc.now) (given tables.now) }
    ensures { result ≡ audited (shifts_of (given tables.now)) 3 perms4 fc.now }
{
    let t = addresses();
    let count = row_of(fc.len(), 81);
    // Not a count: each step goes to the next block whose last three atoms do not fall.
    let mut b = next(0, count, tables.n_satom);
    while b < count {
        let bs = group_blocks(tables, b);
        let k = look(fc, &bs, &t, 81, b);
        if k < 81 {
            return Ok(Some(difference(fc, &bs, &t, 81, b, k)));
        }
        b = next(b + 1, count, tables.n_satom);
    }
    Ok(None)
}

// The audit of a compact set, which is read only.
pub fn audit_compact_fc4(fc: &[f64], tables: &ShiftTables) -> Result<Option<Difference>, Refusal>
    ensures { result ≡ audit_compact limit4 3 perms4 fc.now (given tables.now) }
{
    judge_set(LIMIT4, 3, fc.len(), tables)?;
    scan(fc, tables)
}

// A full set is a compact set in which every atom is its own representative.
fn scan_full(fc: &[f64], n: usize) -> Result<Option<Difference>, Refusal>
    requires { Ready limit4 3 (length fc.now) (full_tables n) × (n ≤ 1024) }
    ensures { result ≡ audited (shifts_of (full_tables n)) 3 perms4 fc.now }
{
    let whole = FullTables::new(n);
    scan(fc, &whole.tables())
}

// The audit of a full set.
pub fn audit_fc4(fc: &[f64], num_atom: usize) -> Result<Option<Difference>, Refusal>
    ensures { result ≡ audit_full limit4 3 perms4 fc.now num_atom }
{
    judge_full(LIMIT4, 3, fc.len(), num_atom)?;
    scan_full(fc, num_atom)
}
