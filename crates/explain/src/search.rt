// The first rule that is broken, and the least numbers that break it.
ghost use Rattle.std.specs.Prelude.{◌≡◌, ◌<◌};
ghost use Rattle.tables.specs.Compact.{shifts_of, TablesFit, given};
ghost use Rattle.explain.specs.Explain.{rule_at, first_of, second_of, third_of, first_broken};

use crate::rules::breaks;
use tables::shift_tables::ShiftTables;

// The counts of what a rule is about.
fn firsts(rule: usize, tables: &ShiftTables) -> usize
    requires { rule < 8 }
    ensures { result ≡ (rule_at (shifts_of (given tables.now)) rule).firsts }
{
    match rule {
        0 => 1,
        1 => tables.num_trans,
        2 => 1,
        3 => tables.num_trans,
        4 => tables.num_trans,
        5 => tables.n_patom,
        6 => tables.num_trans,
        _ => tables.n_satom,
    }
}

fn seconds(rule: usize, tables: &ShiftTables) -> usize
    requires { rule < 8 }
    ensures { result ≡ (rule_at (shifts_of (given tables.now)) rule).seconds }
{
    match rule {
        0 => 1,
        1 => tables.n_satom,
        2 => 1,
        3 => tables.num_trans,
        4 => tables.num_trans,
        5 => 1,
        6 => tables.n_satom,
        _ => 1,
    }
}

fn thirds(rule: usize, tables: &ShiftTables) -> usize
    requires { rule < 8 }
    ensures { result ≡ (rule_at (shifts_of (given tables.now)) rule).thirds }
{
    match rule {
        0 => 1,
        1 => tables.n_satom,
        2 => 1,
        3 => 1,
        4 => tables.n_satom,
        5 => 1,
        6 => 1,
        _ => 1,
    }
}

// The least k that breaks the rule with i and j, or their count.
pub fn third_of(rule: usize, tables: &ShiftTables, i: usize, j: usize) -> usize
    requires { let T = given tables.now in TablesFit 1024 T × (rule < 8) × (i < (rule_at (shifts_of T) rule).firsts) × (j < (rule_at (shifts_of T) rule).seconds) }
    ensures { result ≡ third_of (rule_at (shifts_of (given tables.now)) rule) i j }
{
    let n = thirds(rule, tables);
    for k in 0..n {
        if breaks(rule, tables, i, j, k) {
            return k;
        }
    }
    n
}

// The least j that breaks it with i and some k.
pub fn second_of(rule: usize, tables: &ShiftTables, i: usize) -> usize
    requires { let T = given tables.now in TablesFit 1024 T × (rule < 8) × (i < (rule_at (shifts_of T) rule).firsts) }
    ensures { result ≡ second_of (rule_at (shifts_of (given tables.now)) rule) i }
{
    let n = seconds(rule, tables);
    let m = thirds(rule, tables);
    for j in 0..n {
        if third_of(rule, tables, i, j) < m {
            return j;
        }
    }
    n
}

// The least i that breaks it with some j and k.
pub fn first_of(rule: usize, tables: &ShiftTables) -> usize
    requires { TablesFit 1024 (given tables.now) × (rule < 8) }
    ensures { result ≡ first_of (rule_at (shifts_of (given tables.now)) rule) }
{
    let n = firsts(rule, tables);
    let m = seconds(rule, tables);
    for i in 0..n {
        if second_of(rule, tables, i) < m {
            return i;
        }
    }
    n
}

// The first rule that is broken, or 8.
pub fn first_broken(tables: &ShiftTables) -> usize
    requires { TablesFit 1024 (given tables.now) }
    ensures { result ≡ first_broken (shifts_of (given tables.now)) }
{
    for rule in 0..8 {
        if first_of(rule, tables) < firsts(rule, tables) {
            return rule;
        }
    }
    8
}
