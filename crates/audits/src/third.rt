// The audits of third order: whether all 6 permutations of any three legs read out the same bits.
ghost use Rattle.std.specs.Prelude.{◌≡◌, ◌<◌};
ghost use Rattle.std.proofs.Common.{rules};
ghost use Rattle.lists.specs.Digits.{times_power};
ghost use Rattle.tables.specs.Limits.{limit3};
ghost use Rattle.tables.specs.Compact.{shifts_of, TablesFit, given};
ghost use Rattle.places.specs.Permutations.{perms3};
ghost use Rattle.orbits.specs.Groups.{group_blocks};
ghost use Rattle.audits.specs.Audit.{audit_compact, audit_full};
ghost use Rattle.audits.specs.Blocks.{position_table};
ghost use Rattle.audits.specs.ThirdScanLaws.{in27};

use crate::Difference;
use crate::any_order::{Order, audit, audit_compact};
use places::{column_of, row_of, stored_block3};
use tables::Refusal;
use tables::atoms::{PrimAtom, SuperAtom};
use tables::limits::LIMIT3;
use tables::shift_tables::ShiftTables;

// The position that each permutation gives to each position of a block, a row for each.
const POSITIONS: [u8; 162] = [
    // directions a, b, c
    0, 1, 2, 3, 4, 5, 6, 7, 8, 9, 10, 11, 12, 13, 14, 15, 16, 17, 18, 19, 20, 21, 22, 23, 24, 25,
    26,
    // directions a, c, b
    0, 3, 6, 1, 4, 7, 2, 5, 8, 9, 12, 15, 10, 13, 16, 11, 14, 17, 18, 21, 24, 19, 22, 25, 20, 23,
    26,
    // directions b, a, c
    0, 1, 2, 9, 10, 11, 18, 19, 20, 3, 4, 5, 12, 13, 14, 21, 22, 23, 6, 7, 8, 15, 16, 17, 24, 25,
    26,
    // directions b, c, a
    0, 3, 6, 9, 12, 15, 18, 21, 24, 1, 4, 7, 10, 13, 16, 19, 22, 25, 2, 5, 8, 11, 14, 17, 20, 23,
    26,
    // directions c, a, b
    0, 9, 18, 1, 10, 19, 2, 11, 20, 3, 12, 21, 4, 13, 22, 5, 14, 23, 6, 15, 24, 7, 16, 25, 8, 17,
    26,
    // directions c, b, a
    0, 9, 18, 3, 12, 21, 6, 15, 24, 1, 10, 19, 4, 13, 22, 7, 16, 25, 2, 11, 20, 5, 14, 23, 8, 17,
    26,
];

pub fn positions() -> [u8; 162]
    ensures { result ≡ position_table 2 perms3 }
{
    POSITIONS
}

// The blocks of the group of block b, one for each permutation.
pub fn group_blocks(tables: &ShiftTables, b: usize) -> [usize; 6]
    requires { TablesFit limit3 (given tables.now) × (b < times_power tables.now.n_satom 2 tables.now.n_patom) }
    ensures { result ≡ group_blocks (shifts_of (given tables.now)) 2 perms3 b }
{
    let k = SuperAtom(column_of(b, tables.n_satom));
    let pj = row_of(b, tables.n_satom);
    let j = SuperAtom(column_of(pj, tables.n_satom));
    let p = PrimAtom(row_of(pj, tables.n_satom));
    let i = tables.p2s_at(p);
    let ijk = stored_block3(tables, i, j, k);
    let ikj = stored_block3(tables, i, k, j);
    let jik = stored_block3(tables, j, i, k);
    let jki = stored_block3(tables, j, k, i);
    let kij = stored_block3(tables, k, i, j);
    let kji = stored_block3(tables, k, j, i);
    [ijk, ikj, jik, jki, kij, kji]
}

// Sets of third order.
pub struct Third;

impl Order<27, 6, 162> for Third {
    ghost LIMIT = { limit3 };

    ghost RANK = { 2 };

    ghost permutations = { perms3 };

    const LIMIT: usize = LIMIT3;

    const RANK: usize = 2;

    fn positions() -> [u8; 162] {
        positions()
    }

    fn group_blocks(tables: &ShiftTables, b: usize) -> [usize; 6] {
        group_blocks(tables, b)
    }

    ghost width = { in27 };

    ghost small = { Prim.search rules };
}

// The audit of a compact set, which is read only.
pub fn audit_compact_fc3(fc: &[f64], tables: &ShiftTables) -> Result<Option<Difference>, Refusal>
    ensures { result ≡ audit_compact limit3 2 perms3 fc.now (given tables.now) }
{
    audit_compact::<27, 6, 162, Third>(fc, tables)
}

// The audit of a full set.
pub fn audit_fc3(fc: &[f64], num_atom: usize) -> Result<Option<Difference>, Refusal>
    ensures { result ≡ audit_full limit3 2 perms3 fc.now num_atom }
{
    audit::<27, 6, 162, Third>(fc, num_atom)
}
