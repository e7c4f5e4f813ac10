// Why shift tables are refused: which count, which table, which entry, or which rule, with the rows and atoms that break it. Plain searches, made
// only where the guard refuses.
#![tactic(auto)]

mod rules;
mod search;

ghost use Rattle.std.specs.Prelude.{◌≡◌, false, [], ◌∷◌, ◌≤◌};
ghost use Rattle.tables.specs.Conditions.{below};
ghost use Rattle.tables.specs.Limits.{limit2};
ghost use Rattle.tables.specs.Shifts.{ruled};
ghost use Rattle.tables.specs.Compact.{shifts_of, table_lengths, TablesFit, given};
ghost use Rattle.explain.specs.Explain.{first_above, first_wrong, first_beyond, because as becauseOf, bad_entry, broken_rule, explain_shift_tables};

use shifts::check_shift_tables;
use tables::Refusal;
use tables::index::all_below;
use tables::limits::LIMIT2;
use tables::shift_tables::ShiftTables;

// What check_shift_tables answers, and what a refusal is about.
// 1: `which` is 0 n_satom, 1 n_patom, 2 num_trans: the first that is above the limit.
// 2: 0 perms, 1 p2s, 2 s2pp, 3 nsym_list: the first of another length than the stated one.
// 3: the same for the first with an entry that is out of range, and `first` is the first such entry.
// 6: the first rule that is broken, from 0 to 7 in document 01's order, and the least numbers that break it.
// What is not named is 0.
#[derive(Clone, Copy)]
pub struct Explanation {
    pub answer: Result<(), Refusal>,
    pub which: usize,
    pub first: usize,
    pub second: usize,
    pub third: usize,
}

// 1: the first count that is above the limit.
fn first_above(tables: &ShiftTables) -> usize
    ensures { let T = given tables.now in result ≡ first_above limit2 (T.n_satom ∷ (T.n_patom ∷ (T.num_trans ∷ []))) }
{
    if tables.n_satom > LIMIT2 {
        return 0;
    }
    if tables.n_patom > LIMIT2 {
        return 1;
    }
    if tables.num_trans > LIMIT2 {
        return 2;
    }
    3
}

// 2: the first table of another length than the stated one.
fn first_wrong(tables: &ShiftTables) -> usize
    requires { (tables.now.n_satom ≤ 1024) × (tables.now.num_trans ≤ 1024) }
    ensures { result ≡ first_wrong (table_lengths (given tables.now)) }
{
    if tables.perms.len() != tables.num_trans * tables.n_satom {
        return 0;
    }
    if tables.p2s.len() != tables.n_patom {
        return 1;
    }
    if tables.s2pp.len() != tables.n_satom {
        return 2;
    }
    if tables.nsym_list.len() != tables.n_satom {
        return 3;
    }
    4
}

// Whether x is an index into n things.
fn is_index(x: i64, n: usize) -> bool
    ensures { result ≡ below n x }
{
    if x < 0 {
        return false;
    }
    (x as usize) < n
}

// The first entry that is no index into n things, or the length.
fn first_beyond(t: &[i64], n: usize) -> usize
    ensures { result ≡ first_beyond n t.now }
{
    for k in 0..t.len() {
        if !is_index(t[k], n) {
            return k;
        }
    }
    t.len()
}

fn because(r: Refusal, which: usize, first: usize, second: usize, third: usize) -> Explanation
    ensures { result ≡ becauseOf r which first second third }
{
    Explanation {
        answer: Err(r),
        which,
        first,
        second,
        third,
    }
}

// 3: the first table with an entry that is out of range, and the entry.
fn bad_entry(tables: &ShiftTables) -> Explanation
    ensures { result ≡ bad_entry (given tables.now) }
{
    if !all_below(tables.perms, tables.n_satom) {
        let k = first_beyond(tables.perms, tables.n_satom);
        return because(Refusal::IndexOutOfRange, 0, k, 0, 0);
    }
    if !all_below(tables.p2s, tables.n_satom) {
        let k = first_beyond(tables.p2s, tables.n_satom);
        return because(Refusal::IndexOutOfRange, 1, k, 0, 0);
    }
    if !all_below(tables.s2pp, tables.n_patom) {
        let k = first_beyond(tables.s2pp, tables.n_patom);
        return because(Refusal::IndexOutOfRange, 2, k, 0, 0);
    }
    if !all_below(tables.nsym_list, tables.num_trans) {
        let k = first_beyond(tables.nsym_list, tables.num_trans);
        return because(Refusal::IndexOutOfRange, 3, k, 0, 0);
    }
    because(Refusal::IndexOutOfRange, 4, 0, 0, 0)
}

// 6: the first rule that is broken, and the least numbers that break it.
fn broken_rule(tables: &ShiftTables) -> Explanation
    requires { let T = given tables.now in TablesFit 1024 T × (ruled (shifts_of T) ≡ false) }
    ensures { result ≡ broken_rule (shifts_of (given tables.now)) }
{
    let r = search::first_broken(tables);
    let i = search::first_of(r, tables);
    let j = search::second_of(r, tables, i);
    let k = search::third_of(r, tables, i, j);
    because(Refusal::BadShiftTables, r, i, j, k)
}

// What check_shift_tables answers, and what a refusal is about.
pub fn explain_shift_tables(tables: &ShiftTables) -> Explanation
    ensures { result ≡ explain_shift_tables (given tables.now) }
{
    match check_shift_tables(tables) {
        Ok(()) => Explanation {
            answer: Ok(()),
            which: 0,
            first: 0,
            second: 0,
            third: 0,
        },
        Err(r) => match r {
            Refusal::CountAboveLimit => because(r, first_above(tables), 0, 0, 0),
            Refusal::WrongLength => because(r, first_wrong(tables), 0, 0, 0),
            Refusal::IndexOutOfRange => bad_entry(tables),
            // BadShiftTables: the guard has no other refusal
            _ => broken_rule(tables),
        },
    }
}
