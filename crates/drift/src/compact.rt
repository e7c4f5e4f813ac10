// The drift report of a compact set of second order, read out: that of the full set which it stands for. The full set is not written: each of its
// blocks is read where it is stored.
ghost use Rattle.std.specs.Prelude.{◌≡◌, ◌<◌, length};
ghost use Rattle.tables.specs.Compact.{given};
ghost use Rattle.places.specs.ReadOuts.{stored_in};
ghost use Rattle.drift.specs.CompactReport.{drift_report_compact_fc2};
ghost use Rattle.drift.specs.CompactLaws.{Held, compact_row_sums, column_sums, look_rows, look_compact_columns, scanned_compact};

use crate::seen::{calm, look_line};
use crate::{DriftReport, conclude};
use lines::nine::more;
use places::stored_block2;
use reports::seen::{Seen, start};
use shifts::judge_set;
use tables::Refusal;
use tables::atoms::SuperAtom;
use tables::limits::LIMIT2;
use tables::shift_tables::ShiftTables;

// The sums of row i, over the second atom.
fn row_sums(fc: &[f64], tables: &ShiftTables, i: usize) -> [[f64; 3]; 3]
    requires { let T = given tables.now in Held (length fc.now) T.n_satom T.s2pp T.nsym_list T.perms × (i < T.n_satom) }
    ensures { let T = given tables.now in result ≡ compact_row_sums fc.now (stored_in T.n_satom T.s2pp T.nsym_list T.perms) T.n_satom i }
{
    let mut sums = [[0.0f64; 3]; 3];
    for j in 0..tables.n_satom {
        let at = stored_block2(tables, SuperAtom(i), SuperAtom(j));
        let b = blocks::read9(fc, at);
        let next = more(sums, b);
        sums = next;
    }
    sums
}

// The sums of column j, over the first atom.
fn column_sums(fc: &[f64], tables: &ShiftTables, j: usize) -> [[f64; 3]; 3]
    requires { let T = given tables.now in Held (length fc.now) T.n_satom T.s2pp T.nsym_list T.perms × (j < T.n_satom) }
    ensures { let T = given tables.now in result ≡ column_sums fc.now (stored_in T.n_satom T.s2pp T.nsym_list T.perms) T.n_satom j }
{
    let mut sums = [[0.0f64; 3]; 3];
    for i in 0..tables.n_satom {
        let at = stored_block2(tables, SuperAtom(i), SuperAtom(j));
        let b = blocks::read9(fc, at);
        let next = more(sums, b);
        sums = next;
    }
    sums
}

fn look_rows(fc: &[f64], tables: &ShiftTables, c: Seen) -> Seen
    requires { let T = given tables.now in Held (length fc.now) T.n_satom T.s2pp T.nsym_list T.perms }
    ensures { let T = given tables.now in result ≡ look_rows fc.now (stored_in T.n_satom T.s2pp T.nsym_list T.perms) T.n_satom c }
{
    let mut seen = c;
    for i in 0..tables.n_satom {
        let s = row_sums(fc, tables, i);
        if !calm(s, seen.worst) {
            let more = look_line(i, s, seen);
            seen = more;
        }
    }
    seen
}

fn look_columns(fc: &[f64], tables: &ShiftTables, c: Seen) -> Seen
    requires { let T = given tables.now in Held (length fc.now) T.n_satom T.s2pp T.nsym_list T.perms }
    ensures { let T = given tables.now in result ≡ look_compact_columns fc.now (stored_in T.n_satom T.s2pp T.nsym_list T.perms) T.n_satom c }
{
    let mut seen = c;
    for j in 0..tables.n_satom {
        let s = column_sums(fc, tables, j);
        if !calm(s, seen.worst) {
            let more = look_line(tables.n_satom + j, s, seen);
            seen = more;
        }
    }
    seen
}

// All sums, the rows' and then the columns'.
fn scan(fc: &[f64], tables: &ShiftTables) -> Seen
    requires { let T = given tables.now in Held (length fc.now) T.n_satom T.s2pp T.nsym_list T.perms }
    ensures { let T = given tables.now in result ≡ scanned_compact fc.now (stored_in T.n_satom T.s2pp T.nsym_list T.perms) T.n_satom }
{
    let rows = look_rows(fc, tables, start());
    look_columns(fc, tables, rows)
}

// The drift of each row sum and of each column sum of the full set that a compact set reads out to, and its place.
pub fn drift_report_compact_fc2(fc: &[f64], tables: &ShiftTables) -> Result<DriftReport, Refusal>
    ensures { result ≡ drift_report_compact_fc2 fc.now (given tables.now) }
{
    judge_set(LIMIT2, 1, fc.len(), tables)?;
    let seen = scan(fc, tables);
    Ok(conclude(tables.n_satom, seen))
}
