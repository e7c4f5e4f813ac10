// One row of perms after another is a row: few tests for it. The tables have passed the other rules of "Shift tables".
ghost use Rattle.tables.specs.Compact.{given};
ghost use Rattle.std.specs.Prelude.{◌≡◌, true, List, ℕ, ◌+◌, ◌-◌, ◌≤◌, ◌<◌, length, get_or};
ghost use Rattle.shifts.specs.Rows.{Rows, image, Composed, Closed, Sent};
ghost use Rattle.tables.specs.Conditions.{Tells};
ghost use Rattle.shifts.specs.Loops.{Marked, Made, Known, Learnt, KeepsAt, right_of, Commutes, Settled};

use tables::atoms::{PrimAtom, SuperAtom};
use tables::shift_tables::ShiftTables;

// Whether row u after row t sends atom a where row v sends it.
fn agrees_at(tables: &ShiftTables, t: usize, u: usize, v: usize, a: SuperAtom) -> bool
    requires { let T = given tables.now in Rows T.n_satom T.num_trans T.perms × (t < T.num_trans) × (u < T.num_trans) × (v < T.num_trans) × (a.0 < T.n_satom) }
    ensures { let T = given tables.now in Tells result (image T.perms T.n_satom u (image T.perms T.n_satom t a.0) ≡ image T.perms T.n_satom v a.0) }
{
    let b = tables.perms_at(u, tables.perms_at(t, a));
    let d = tables.perms_at(v, a);
    b == d
}

// The same for four atoms, without a branch between them: the check of all tables takes a tenth longer one atom at a time.
fn agrees_at_four(tables: &ShiftTables, t: usize, u: usize, v: usize, a: usize) -> bool
    requires { let T = given tables.now in Rows T.n_satom T.num_trans T.perms × (t < T.num_trans) × (u < T.num_trans) × (v < T.num_trans) × (a + 3 < T.n_satom) }
    ensures { let T = given tables.now in Tells result ((k : ℕ)
        → k < 4
        → image T.perms T.n_satom u (image T.perms T.n_satom t (a + k)) ≡ image T.perms T.n_satom v (a + k)) }
{
    let p = agrees_at(tables, t, u, v, SuperAtom(a));
    let q = agrees_at(tables, t, u, v, SuperAtom(a + 1));
    let r = agrees_at(tables, t, u, v, SuperAtom(a + 2));
    let s = agrees_at(tables, t, u, v, SuperAtom(a + 3));
    p & q & r & s
}

// The same for the atoms from the given one on.
fn agrees_from(tables: &ShiftTables, t: usize, u: usize, v: usize, start: usize) -> bool
    requires { let T = given tables.now in Rows T.n_satom T.num_trans T.perms × (t < T.num_trans) × (u < T.num_trans) × (v < T.num_trans) × (start ≤ T.n_satom) }
    ensures { let T = given tables.now in Tells result ((k : ℕ)
        → start ≤ k
        → k < T.n_satom
        → image T.perms T.n_satom u (image T.perms T.n_satom t k) ≡ image T.perms T.n_satom v k) }
{
    for a in start..tables.n_satom {
        if !agrees_at(tables, t, u, v, SuperAtom(a)) {
            return false;
        }
    }
    true
}

// Whether row u after row t is row v.
fn is_after(tables: &ShiftTables, t: usize, u: usize, v: usize) -> bool
    requires { let T = given tables.now in Rows T.n_satom T.num_trans T.perms × (t < T.num_trans) × (u < T.num_trans) × (v < T.num_trans) }
    ensures { let T = given tables.now in Tells result (Composed T.n_satom T.perms t u v) }
{
    let fours = tables.n_satom / 4;
    for f in 0..fours {
        if !agrees_at_four(tables, t, u, v, f * 4) {
            return false;
        }
    }
    agrees_from(tables, t, u, v, fours * 4)
}

// The row that sends base where row r and then row u send it.
fn row_after(
    tables: &ShiftTables,
    base: SuperAtom,
    sent: &[usize; 1024],
    r: usize,
    u: usize,
) -> usize
    requires { let T = given tables.now in Marked T.n_satom T.num_trans T.perms base.0 sent.now × (r < T.num_trans) × (u < T.num_trans) }
    ensures { let T = given tables.now in (result < T.num_trans)
        × (get_or sent.now (image T.perms T.n_satom u (image T.perms T.n_satom r base.0)) 0 ≡ result + 1) }
{
    sender(sent, tables.perms_at(u, tables.perms_at(r, base)))
}

// Row u after row r, if it is not known yet: it is compared whole with the one row that it can be, which then comes after r in the list.
fn learn_after(
    tables: &ShiftTables,
    base: SuperAtom,
    sent: &[usize; 1024],
    gens: &[u8; 1024],
    u: usize,
    r: usize,
    known: &mut [usize; 1024],
) -> bool
    requires rows { let T = given tables.now in Marked T.n_satom T.num_trans T.perms base.0 sent.now × (r < T.num_trans) × (u < T.num_trans) }
    requires made { let T = given tables.now in Made T.n_satom T.num_trans T.perms gens.now u
        × Made T.n_satom T.num_trans T.perms gens.now r
        × Known T.n_satom T.num_trans T.perms gens.now known.old }
    ensures { let T = given tables.now in Known T.n_satom T.num_trans T.perms gens.now known.new
        × (Closed T.n_satom T.num_trans T.perms → result ≡ true) }
{
    let v = row_after(tables, base, sent, r, u);
    if known[v] != 0 {
        return true;
    }
    if is_after(tables, r, u, v) {
        known[v] = known[r];
        known[r] = v + 1;
        return true;
    }
    false
}

// Row u after the rows of the list, from the null shift on, the new ones among them: no power of u after a row that was known is left out.
fn spread(
    tables: &ShiftTables,
    base: SuperAtom,
    sent: &[usize; 1024],
    gens: &[u8; 1024],
    null: usize,
    u: usize,
    known: &mut [usize; 1024],
) -> bool
    requires rows { let T = given tables.now in Marked T.n_satom T.num_trans T.perms base.0 sent.now × (null < T.num_trans) × (u < T.num_trans) }
    requires made { let T = given tables.now in Made T.n_satom T.num_trans T.perms gens.now u
        × Made T.n_satom T.num_trans T.perms gens.now null
        × Known T.n_satom T.num_trans T.perms gens.now known.old }
    ensures { let T = given tables.now in Known T.n_satom T.num_trans T.perms gens.now known.new
        × (Closed T.n_satom T.num_trans T.perms → result ≡ true) }
{
    let mut r = null;
    for _ in 0..tables.num_trans {
        if !learn_after(tables, base, sent, gens, u, r, known) {
            return false;
        }
        let x = known[r];
        if x == 0 {
            return true;
        }
        if tables.num_trans < x {
            return true;
        }
        r = x - 1;
    }
    true
}

// Row u is known, or a generator more, from which further rows are made.
fn learn(
    tables: &ShiftTables,
    base: SuperAtom,
    sent: &[usize; 1024],
    null: usize,
    u: usize,
    known: &mut [usize; 1024],
    gens: &mut [u8; 1024],
) -> bool
    requires rows { let T = given tables.now in Marked T.n_satom T.num_trans T.perms base.0 sent.now × (null < T.num_trans) × (u < T.num_trans) }
    requires made { let T = given tables.now in Made T.n_satom T.num_trans T.perms gens.old null
        × Known T.n_satom T.num_trans T.perms gens.old known.old
        × (length gens.old ≡ 1024) }
    ensures { let T = given tables.now in Learnt T.n_satom T.num_trans T.perms u gens.old gens.new known.new
        × (Closed T.n_satom T.num_trans T.perms → result ≡ true) }
{
    if known[u] != 0 {
        return true;
    }
    gens[u] = 1;
    spread(tables, base, sent, gens, null, u, known)
}

// Every row is the null shift, a generator, or made of those one after another.
fn learn_all(
    tables: &ShiftTables,
    base: SuperAtom,
    sent: &[usize; 1024],
    null: usize,
    gens: &mut [u8; 1024],
) -> bool
    requires { let T = given tables.now in Marked T.n_satom T.num_trans T.perms base.0 sent.now
        × (null < T.num_trans)
        × ((gens : List ℕ) → Made T.n_satom T.num_trans T.perms gens null)
        × (length gens.now ≡ 1024) }
    ensures { let T = given tables.now in (result ≡ true → (u : ℕ) → u < T.num_trans → Made T.n_satom T.num_trans T.perms gens.new u)
        × (Closed T.n_satom T.num_trans T.perms → result ≡ true) }
{
    let mut known = [0usize; 1024];
    known[null] = tables.num_trans + 1;
    for u in 0..tables.num_trans {
        if !learn(tables, base, sent, null, u, &mut known, gens) {
            return false;
        }
    }
    true
}

// The row that sends the representative of atom a to a.
fn sender(sent: &[usize; 1024], a: SuperAtom) -> usize
    requires { (a.0 < 1024) × (0 < get_or sent.now a.0 0) }
    ensures { result ≡ get_or sent.now a.0 0 - 1 }
{
    let i = a.0;
    sent[i] - 1
}

// Whether row g sends atom a to an atom of the same primitive atom, and to the same row's as the first representative's image beside a.
fn keeps_row(tables: &ShiftTables, sent: &[usize; 1024], g: usize, a: SuperAtom) -> bool
    requires { let T = given tables.now in Sent T.n_satom T.num_trans T.n_patom T.perms T.p2s T.s2pp sent.now × (g < T.num_trans) × (a.0 < T.n_satom) }
    ensures { let T = given tables.now in Tells result (KeepsAt T.n_satom T.perms T.p2s T.s2pp sent.now g a.0) }
{
    let b = tables.perms_at(g, a);
    let p = tables.s2pp_at(a);
    let q = tables.s2pp_at(b);
    if q != p {
        return false;
    }
    let first = tables.p2s_at(PrimAtom(0));
    let d = tables.perms_at(g, tables.perms_at(sender(sent, a), first));
    sender(sent, b) == sender(sent, d)
}

// Whether row g sends the images of the representatives under one row to their images under one row.
fn keeps_rows(tables: &ShiftTables, sent: &[usize; 1024], g: usize) -> bool
    requires { let T = given tables.now in Sent T.n_satom T.num_trans T.n_patom T.perms T.p2s T.s2pp sent.now × (g < T.num_trans) }
    ensures { let T = given tables.now in Tells result ((a : ℕ) → a < T.n_satom → KeepsAt T.n_satom T.perms T.p2s T.s2pp sent.now g a) }
{
    for a in 0..tables.n_satom {
        if !keeps_row(tables, sent, g, SuperAtom(a)) {
            return false;
        }
    }
    true
}

// Row s from the right, as a table.
fn shift_right(tables: &ShiftTables, sent: &[usize; 1024], s: usize, right: &mut [usize; 1024])
    requires { let T = given tables.now in Sent T.n_satom T.num_trans T.n_patom T.perms T.p2s T.s2pp sent.now × (s < T.num_trans) × (length right.old ≡ 1024) }
    ensures { let T = given tables.now in ((a : ℕ)
        → a < T.n_satom
        → get_or right.new a 0 ≡ right_of T.perms T.n_satom T.p2s T.s2pp sent.now s a)
        × (length right.new ≡ 1024) }
{
    for a in 0..tables.n_satom {
        let p = tables.p2s_at(tables.s2pp_at(SuperAtom(a)));
        let b = tables.perms_at(sender(sent, SuperAtom(a)), tables.perms_at(s, p));
        right[a] = b.0;
    }
}

// Where a shift from the right sends atom a. A table of atoms that is lent holds plain numbers, which are atoms again once read.
fn shifted(right: &[usize; 1024], a: SuperAtom) -> SuperAtom
    requires { a.0 < 1024 }
    ensures { result.0 ≡ get_or right.now a.0 0 }
{
    let i = a.0;
    SuperAtom(right[i])
}

// Whether row g and a shift from the right may be taken in either order.
fn commutes(tables: &ShiftTables, g: usize, right: &[usize; 1024]) -> bool
    requires { let T = given tables.now in Rows T.n_satom T.num_trans T.perms × (g < T.num_trans) × ((a : ℕ) → a < T.n_satom → get_or right.now a 0 < T.n_satom) }
    ensures { let T = given tables.now in Tells result (Commutes T.n_satom T.perms g (λ a. get_or right.now a 0)) }
{
    for a in 0..tables.n_satom {
        let b = tables.perms_at(g, SuperAtom(a));
        let d = tables.perms_at(g, shifted(right, SuperAtom(a)));
        if d != shifted(right, b) {
            return false;
        }
    }
    true
}

// The same of row g if it is a generator.
fn generator_commutes(
    tables: &ShiftTables,
    gens: &[u8; 1024],
    g: usize,
    right: &[usize; 1024],
) -> bool
    requires { let T = given tables.now in Rows T.n_satom T.num_trans T.perms × (g < T.num_trans) × ((a : ℕ) → a < T.n_satom → get_or right.now a 0 < T.n_satom) }
    ensures { let T = given tables.now in Tells result ((get_or gens.now g 0 ≡ 0 → ⊥) → Commutes T.n_satom T.perms g (λ a. get_or right.now a 0)) }
{
    if gens[g] == 0 {
        return true;
    }
    commutes(tables, g, right)
}

// The same of every generator.
fn all_commute(tables: &ShiftTables, gens: &[u8; 1024], right: &[usize; 1024]) -> bool
    requires { let T = given tables.now in Rows T.n_satom T.num_trans T.perms × ((a : ℕ) → a < T.n_satom → get_or right.now a 0 < T.n_satom) }
    ensures { let T = given tables.now in Tells result ((g : ℕ)
        → g < T.num_trans
        → (get_or gens.now g 0 ≡ 0 → ⊥)
        → Commutes T.n_satom T.perms g (λ a. get_or right.now a 0)) }
{
    for g in 0..tables.num_trans {
        if !generator_commutes(tables, gens, g, right) {
            return false;
        }
    }
    true
}

// Row s, if it is a generator, keeps the images of the representatives together, and from the right it commutes with every generator.
fn is_settled(
    tables: &ShiftTables,
    sent: &[usize; 1024],
    gens: &[u8; 1024],
    s: usize,
    right: &mut [usize; 1024],
) -> bool
    requires { let T = given tables.now in Sent T.n_satom T.num_trans T.n_patom T.perms T.p2s T.s2pp sent.now × (s < T.num_trans) × (length right.old ≡ 1024) }
    ensures { let T = given tables.now in (length right.new ≡ 1024)
        × Tells result ((get_or gens.now s 0 ≡ 0 → ⊥)
        → Settled T.n_satom T.num_trans T.perms T.p2s T.s2pp sent.now gens.now s) }
{
    if gens[s] == 0 {
        return true;
    }
    if !keeps_rows(tables, sent, s) {
        return false;
    }
    shift_right(tables, sent, s, right);
    all_commute(tables, gens, right)
}

// The same of every row.
fn all_settled(tables: &ShiftTables, sent: &[usize; 1024], gens: &[u8; 1024]) -> bool
    requires { let T = given tables.now in Sent T.n_satom T.num_trans T.n_patom T.perms T.p2s T.s2pp sent.now }
    ensures { let T = given tables.now in Tells result ((s : ℕ)
        → s < T.num_trans
        → (get_or gens.now s 0 ≡ 0 → ⊥)
        → Settled T.n_satom T.num_trans T.perms T.p2s T.s2pp sent.now gens.now s) }
{
    let mut right = [0usize; 1024];
    for s in 0..tables.num_trans {
        if !is_settled(tables, sent, gens, s, &mut right) {
            return false;
        }
    }
    true
}

// One row after another is a row. Every row is compared whole with one row after another once, when it becomes known; the rest is looked at
// for the generators only.
pub fn rows_closed(tables: &ShiftTables, sent: &[usize; 1024]) -> bool
    requires { let T = given tables.now in Sent T.n_satom T.num_trans T.n_patom T.perms T.p2s T.s2pp sent.now }
    ensures { let T = given tables.now in Tells result (Closed T.n_satom T.num_trans T.perms) }
{
    let first = tables.p2s_at(PrimAtom(0));
    let mut gens = [0u8; 1024];
    if learn_all(tables, first, sent, sender(sent, first), &mut gens) {
        return all_settled(tables, sent, &gens);
    }
    false
}
