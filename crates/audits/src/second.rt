// The audits of second order: whether all 2 permutations of any two legs read out the same bits.
ghost use Rattle.std.specs.Prelude.{◌≡◌, ◌<◌};
ghost use Rattle.std.proofs.Common.{rules};
ghost use Rattle.lists.specs.Digits.{times_power};
ghost use Rattle.tables.specs.Limits.{limit2};
ghost use Rattle.tables.specs.Compact.{shifts_of, TablesFit, given};
ghost use Rattle.places.specs.Permutations.{perms2};
ghost use Rattle.orbits.specs.Groups.{group_blocks};
ghost use Rattle.audits.specs.Audit.{audit_compact, audit_full};
ghost use Rattle.audits.specs.Blocks.{position_table};
ghost use Rattle.audits.specs.SecondScanLaws.{in9};

use crate::Difference;
use crate::any_order::{Order, audit, audit_compact};
use places::{column_of, row_of, stored_block2};
use tables::Refusal;
use tables::atoms::{PrimAtom, SuperAtom};
use tables::limits::LIMIT2;
use tables::shift_tables::ShiftTables;

// The position that each permutation gives to each position of a block, a row for each.
const POSITIONS: [u8; 18] = [
    // directions a, b
    0, 1, 2, 3, 4, 5, 6, 7, 8,
    // directions b, a
    0, 3, 6, 1, 4, 7, 2, 5, 8,
];

pub fn positions() -> [u8; 18]
    ensures { result ≡ position_table 1 perms2 }
{
    POSITIONS
}

// The blocks of the group of block b, one for each permutation.
pub fn group_blocks(tables: &ShiftTables, b: usize) -> [usize; 2]
    requires { TablesFit limit2 (given tables.now) × (b < times_power tables.now.n_satom 1 tables.now.n_patom) }
    ensures { result ≡ group_blocks (shifts_of (given tables.now)) 1 perms2 b }
{
    let j = SuperAtom(column_of(b, tables.n_satom));
    let p = PrimAtom(row_of(b, tables.n_satom));
    let i = tables.p2s_at(p);
    let ij = stored_block2(tables, i, j);
    let ji = stored_block2(tables, j, i);
    [ij, ji]
}

// Sets of second order.
pub struct Second;

impl Order<9, 2, 18> for Second {
    ghost LIMIT = { limit2 };

    ghost RANK = { 1 };

    ghost permutations = { perms2 };

    const LIMIT: usize = LIMIT2;

    const RANK: usize = 1;

    fn positions() -> [u8; 18] {
        positions()
    }

    fn group_blocks(tables: &ShiftTables, b: usize) -> [usize; 2] {
        group_blocks(tables, b)
    }

    ghost width = { in9 };

    ghost small = { Prim.search rules };
}

// The audit of a compact set, which is read only.
pub fn audit_compact_fc2(fc: &[f64], tables: &ShiftTables) -> Result<Option<Difference>, Refusal>
    ensures { result ≡ audit_compact limit2 1 perms2 fc.now (given tables.now) }
{
    audit_compact::<9, 2, 18, Second>(fc, tables)
}

// The audit of a full set.
pub fn audit_fc2(fc: &[f64], num_atom: usize) -> Result<Option<Difference>, Refusal>
    ensures { result ≡ audit_full limit2 1 perms2 fc.now num_atom }
{
    audit::<9, 2, 18, Second>(fc, num_atom)
}
