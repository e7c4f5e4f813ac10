// The drift reports of fourth order.
ghost use Rattle.std.specs.Prelude.{◌≡◌, ◌≤◌, ◌<◌, length};
ghost use Rattle.lists.specs.Digits.{times_power};
ghost use Rattle.tables.specs.Limits.{limit4};
ghost use Rattle.tables.specs.Compact.{shifts_of, TablesFit, given};
ghost use Rattle.audits.specs.Guard.{Ready, full_tables};
ghost use Rattle.legs.specs.Legs.{leg_report_compact, leg_report_full};
ghost use Rattle.legs.specs.Laws.{leg_block, block_sums, leg_seen, all_seen};

use crate::add_all;
use audits::guard::counted;
use places::{column_of, index_of, row_of, stored_block4};
use reports::seen::{Seen, look_numbers, start};
use reports::{Report, conclude};
use shifts::judge_set;
use tables::Refusal;
use tables::atoms::SuperAtom;
use tables::limits::LIMIT4;
use tables::sets::judge_full;
use tables::shift_tables::ShiftTables;

// The block with atom i on leg `leg`, and the atoms that t numbers on the others.
fn leg_block(tables: &ShiftTables, leg: usize, t: usize, i: usize) -> usize
    requires { TablesFit limit4 (given tables.now) × (leg ≤ 3) × (t < times_power tables.now.n_satom 3 1) × (i < tables.now.n_satom) }
    ensures { result ≡ leg_block (shifts_of (given tables.now)) 3 leg t i }
{
    let c = SuperAtom(column_of(t, tables.n_satom));
    let ab = row_of(t, tables.n_satom);
    let b = SuperAtom(column_of(ab, tables.n_satom));
    let a = SuperAtom(column_of(row_of(ab, tables.n_satom), tables.n_satom));
    let x = SuperAtom(i);
    if leg == 0 {
        return stored_block4(tables, x, a, b, c);
    }
    if leg == 1 {
        return stored_block4(tables, a, x, b, c);
    }
    if leg == 2 {
        return stored_block4(tables, a, b, x, c);
    }
    stored_block4(tables, a, b, c, x)
}

// The sums over leg `leg`, for the atoms that t numbers on the others.
pub fn leg_sums(fc: &[f64], tables: &ShiftTables, leg: usize, t: usize) -> [f64; 81]
    requires { Ready limit4 3 (length fc.now) (given tables.now) × (leg ≤ 3) × (t < times_power tables.now.n_satom 3 1) }
    ensures { result ≡ block_sums 81 (leg_block (shifts_of (given tables.now)) 3 leg t) tables.now.n_satom fc.now }
{
    let mut sums = [0.0f64; 81];
    for i in 0..tables.n_satom {
        let at = leg_block(tables, leg, t, i);
        let b = blocks::read81(fc, at);
        add_all(&mut sums, &b);
    }
    sums
}

// Looks at the sums over one leg, the last one if e is 0.
fn look_leg(fc: &[f64], tables: &ShiftTables, e: usize, seen0: Seen) -> Seen
    requires { Ready limit4 3 (length fc.now) (given tables.now) × (e ≤ 3) }
    ensures { result ≡ leg_seen (shifts_of (given tables.now)) 3 fc.now 81 e seen0 }
{
    let count = tables.n_satom * tables.n_satom * tables.n_satom;
    let mut seen = seen0;
    for t in 0..count {
        let sums = leg_sums(fc, tables, 3 - e, t);
        let first = index_of(index_of(e, count, t), 81, 0);
        seen = look_numbers(&sums, first, seen);
    }
    seen
}

// Leg after leg, from the last to the first.
fn scan(fc: &[f64], tables: &ShiftTables) -> Seen
    requires { Ready limit4 3 (length fc.now) (given tables.now) }
    ensures { result ≡ all_seen (shifts_of (given tables.now)) 3 fc.now }
{
    let mut seen = start();
    for e in 0..4usize {
        seen = look_leg(fc, tables, e, seen);
    }
    seen
}

// The drift of the sums over each leg of the full set that a compact set reads out to, and its place.
pub fn drift_report_compact_fc4(fc: &[f64], tables: &ShiftTables) -> Result<Report, Refusal>
    ensures { result ≡ leg_report_compact limit4 3 fc.now (given tables.now) }
{
    judge_set(LIMIT4, 3, fc.len(), tables)?;
    let seen = scan(fc, tables);
    Ok(conclude(seen))
}

// A full set is a compact set in which every atom is its own representative.
fn scan_full(fc: &[f64], n: usize) -> Seen
    requires { Ready limit4 3 (length fc.now) (full_tables n) × (n ≤ 1024) }
    ensures { result ≡ all_seen (shifts_of (full_tables n)) 3 fc.now }
{
    // Two tables serve as four. `FullTables` is handed on by value, which takes 16 kB of stack more.
    let numbers = counted();
    let noughts = [0i64; 1024];
    let tables = ShiftTables {
        p2s: &numbers[0..n],
        s2pp: &numbers[0..n],
        nsym_list: &noughts[0..n],
        perms: &numbers[0..n],
        n_satom: n,
        n_patom: n,
        num_trans: 1,
    };
    scan(fc, &tables)
}

// The same of a full set.
pub fn drift_report_fc4(fc: &[f64], num_atom: usize) -> Result<Report, Refusal>
    ensures { result ≡ leg_report_full limit4 3 fc.now num_atom }
{
    judge_full(LIMIT4, 3, fc.len(), num_atom)?;
    let seen = scan_full(fc, num_atom);
    Ok(conclude(seen))
}
