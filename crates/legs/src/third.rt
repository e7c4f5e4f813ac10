// The drift reports of third order, over compact sets.
ghost use Rattle.std.specs.Prelude.{◌≡◌, ◌≤◌, ◌<◌, length};
ghost use Rattle.lists.specs.Digits.{times_power};
ghost use Rattle.tables.specs.Limits.{limit3};
ghost use Rattle.tables.specs.Compact.{shifts_of, TablesFit, given};
ghost use Rattle.audits.specs.Guard.{Ready};
ghost use Rattle.legs.specs.Legs.{leg_report_compact};
ghost use Rattle.legs.specs.Laws.{leg_block, block_sums, leg_seen, all_seen};

use crate::add_all;
use places::{column_of, index_of, row_of, stored_block3};
use reports::seen::{Seen, look_numbers, start};
use reports::{Report, conclude};
use shifts::judge_set;
use tables::Refusal;
use tables::atoms::SuperAtom;
use tables::limits::LIMIT3;
use tables::shift_tables::ShiftTables;

// The block with atom i on leg `leg`, and the atoms that t numbers on the others.
fn leg_block(tables: &ShiftTables, leg: usize, t: usize, i: usize) -> usize
    requires { TablesFit limit3 (given tables.now) × (leg ≤ 2) × (t < times_power tables.now.n_satom 2 1) × (i < tables.now.n_satom) }
    ensures { result ≡ leg_block (shifts_of (given tables.now)) 2 leg t i }
{
    let b = SuperAtom(column_of(t, tables.n_satom));
    let a = SuperAtom(column_of(row_of(t, tables.n_satom), tables.n_satom));
    let x = SuperAtom(i);
    if leg == 0 {
        return stored_block3(tables, x, a, b);
    }
    if leg == 1 {
        return stored_block3(tables, a, x, b);
    }
    stored_block3(tables, a, b, x)
}

// The sums over leg `leg`, for the atoms that t numbers on the others.
pub fn leg_sums(fc: &[f64], tables: &ShiftTables, leg: usize, t: usize) -> [f64; 27]
    requires { Ready limit3 2 (length fc.now) (given tables.now) × (leg ≤ 2) × (t < times_power tables.now.n_satom 2 1) }
    ensures { result ≡ block_sums 27 (leg_block (shifts_of (given tables.now)) 2 leg t) tables.now.n_satom fc.now }
{
    let mut sums = [0.0f64; 27];
    for i in 0..tables.n_satom {
        let at = leg_block(tables, leg, t, i);
        let b = blocks::read27(fc, at);
        add_all(&mut sums, &b);
    }
    sums
}

// Looks at the sums over one leg, the last one if e is 0.
fn look_leg(fc: &[f64], tables: &ShiftTables, e: usize, seen0: Seen) -> Seen
    requires { Ready limit3 2 (length fc.now) (given tables.now) × (e ≤ 2) }
    ensures { result ≡ leg_seen (shifts_of (given tables.now)) 2 fc.now 27 e seen0 }
{
    let count = tables.n_satom * tables.n_satom;
    let mut seen = seen0;
    for t in 0..count {
        let sums = leg_sums(fc, tables, 2 - e, t);
        let first = index_of(index_of(e, count, t), 27, 0);
        seen = look_numbers(&sums, first, seen);
    }
    seen
}

// Leg after leg, from the last to the first.
fn scan(fc: &[f64], tables: &ShiftTables) -> Seen
    requires { Ready limit3 2 (length fc.now) (given tables.now) }
    ensures { result ≡ all_seen (shifts_of (given tables.now)) 2 fc.now }
{
    let mut seen = start();
    for e in 0..3usize {
        seen = look_leg(fc, tables, e, seen);
    }
    seen
}

// The drift of the sums over each leg of the full set that a compact set reads out to, and its place.
pub fn drift_report_compact_fc3(fc: &[f64], tables: &ShiftTables) -> Result<Report, Refusal>
    ensures { result ≡ leg_report_compact limit3 2 fc.now (given tables.now) }
{
    judge_set(LIMIT3, 2, fc.len(), tables)?;
    let seen = scan(fc, tables);
    Ok(conclude(seen))
}
