// What breaks each rule of "Shift tables". The tables have passed refusals 1 to 3.
ghost use Rattle.std.specs.Prelude.{◌≡◌, not, ◌<◌, eqb};
ghost use Rattle.lists.specs.Tests.{some};
ghost use Rattle.tables.specs.Shifts.{row, p2s_at, s2pp_at, nsym_at, is_null, has_null, is_after};
ghost use Rattle.tables.specs.Compact.{shifts_of, TablesFit, given};
ghost use Rattle.explain.specs.Explain.{rule_at};

use tables::atoms::{PrimAtom, SuperAtom};
use tables::shift_tables::ShiftTables;

// Whether row t sends atom a where row u sends atom b.
fn meet(tables: &ShiftTables, t: usize, a: usize, u: usize, b: usize) -> bool
    requires { let T = given tables.now in TablesFit 1024 T × (t < T.num_trans) × (a < T.n_satom) × (u < T.num_trans) × (b < T.n_satom) }
    ensures { let T = given tables.now in result ≡ eqb (row (shifts_of T) t a) (row (shifts_of T) u b) }
{
    let x = tables.perms_at(t, SuperAtom(a));
    let y = tables.perms_at(u, SuperAtom(b));
    x == y
}

// Whether row t sends each atom to itself.
fn is_null(tables: &ShiftTables, t: usize) -> bool
    requires { TablesFit 1024 (given tables.now) × (t < tables.now.num_trans) }
    ensures { result ≡ is_null (shifts_of (given tables.now)) t }
{
    for a in 0..tables.n_satom {
        let b = tables.perms_at(t, SuperAtom(a));
        if b != SuperAtom(a) {
            return false;
        }
    }
    true
}

// Whether some row does.
fn has_null(tables: &ShiftTables) -> bool
    requires { TablesFit 1024 (given tables.now) }
    ensures { result ≡ has_null (shifts_of (given tables.now)) }
{
    for t in 0..tables.num_trans {
        if is_null(tables, t) {
            return true;
        }
    }
    false
}

// Whether row u after row t is row v.
fn is_after(tables: &ShiftTables, t: usize, u: usize, v: usize) -> bool
    requires { let T = given tables.now in TablesFit 1024 T × (t < T.num_trans) × (u < T.num_trans) × (v < T.num_trans) }
    ensures { result ≡ is_after (shifts_of (given tables.now)) t u v }
{
    for a in 0..tables.n_satom {
        let b = tables.perms_at(t, SuperAtom(a));
        let x = tables.perms_at(u, b);
        let y = tables.perms_at(v, SuperAtom(a));
        if x != y {
            return false;
        }
    }
    true
}

// Whether it is some row.
fn has_after(tables: &ShiftTables, t: usize, u: usize) -> bool
    requires { TablesFit 1024 (given tables.now) × (t < tables.now.num_trans) × (u < tables.now.num_trans) }
    ensures { result ≡ some tables.now.num_trans (is_after (shifts_of (given tables.now)) t u) }
{
    for v in 0..tables.num_trans {
        if is_after(tables, t, u, v) {
            return true;
        }
    }
    false
}

// Whether s2pp[p2s[p]] is p.
fn comes_back(tables: &ShiftTables, p: usize) -> bool
    requires { TablesFit 1024 (given tables.now) × (p < tables.now.n_patom) }
    ensures { let T = given tables.now in result ≡ eqb (s2pp_at (shifts_of T) (p2s_at (shifts_of T) p)) p }
{
    let q = tables.s2pp_at(tables.p2s_at(PrimAtom(p)));
    q == PrimAtom(p)
}

// Whether s2pp is the same for atom a and its image under row t.
fn keeps_prim(tables: &ShiftTables, t: usize, a: usize) -> bool
    requires { TablesFit 1024 (given tables.now) × (t < tables.now.num_trans) × (a < tables.now.n_satom) }
    ensures { let T = given tables.now in result ≡ eqb (s2pp_at (shifts_of T) (row (shifts_of T) t a)) (s2pp_at (shifts_of T) a) }
{
    let p = tables.s2pp_at(tables.perms_at(t, SuperAtom(a)));
    let q = tables.s2pp_at(SuperAtom(a));
    p == q
}

// Whether row nsym_list[a] sends a to p2s[s2pp[a]].
fn lands(tables: &ShiftTables, a: usize) -> bool
    requires { TablesFit 1024 (given tables.now) × (a < tables.now.n_satom) }
    ensures { let T = given tables.now in result ≡ eqb (row (shifts_of T) (nsym_at (shifts_of T) a) a) (p2s_at (shifts_of T) (s2pp_at (shifts_of T) a)) }
{
    let t = tables.nsym_at(SuperAtom(a));
    let x = tables.perms_at(t, SuperAtom(a));
    let y = tables.p2s_at(tables.s2pp_at(SuperAtom(a)));
    x == y
}

// Whether i, j and k break the rule.
pub fn breaks(rule: usize, tables: &ShiftTables, i: usize, j: usize, k: usize) -> bool
    requires { let T = given tables.now in TablesFit 1024 T × (rule < 8) × (i < (rule_at (shifts_of T) rule).firsts) × (j < (rule_at (shifts_of T) rule).seconds) × (k < (rule_at (shifts_of T) rule).thirds) }
    ensures { result ≡ (rule_at (shifts_of (given tables.now)) rule).breaks i j k }
{
    match rule {
        0 => tables.n_satom != tables.n_patom * tables.num_trans,
        1 => meet(tables, i, j, i, k) & (j != k),
        2 => !has_null(tables),
        3 => !has_after(tables, i, j),
        4 => meet(tables, i, k, j, k) & (i != j),
        5 => !comes_back(tables, i),
        6 => !keeps_prim(tables, i, j),
        _ => !lands(tables, i),
    }
}
