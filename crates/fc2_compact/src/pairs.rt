// Pairs of blocks of nine numbers that trade with each other.
ghost use Rattle.std.specs.Prelude.{◌≡◌, cond, ◌<◌, length};
ghost use Rattle.lines.specs.Lines.{Inside};
ghost use Rattle.fc2_compact.specs.Visits.{swap_at, transpose_visit, average_visit};
ghost use Rattle.fc2_compact.specs.Code.{Ready, ReadyAt};
ghost use Rattle.fc2_compact.specs.Passes.{transposed, averaged_compact};
ghost use Rattle.orbits.specs.TrueTransposes.{swapped};
ghost use Rattle.tables.specs.Compact.{shifts_of, given};
ghost use Rattle.lists.specs.Tab.{times};

use blocks::transposed9;
use tables::atoms::{PrimAtom, SuperAtom};
use tables::shift_tables::ShiftTables;

// Blocks b and c change places, each transposed.
fn swap_blocks(fc: &mut [f64], b: usize, c: usize)
    requires { Inside b c (length fc.old) }
    ensures { fc.new ≡ swap_at b c fc.old }
{
    let x = blocks::read9(fc, b);
    let y = blocks::read9(fc, c);
    blocks::write9(fc, b, transposed9(y));
    blocks::write9(fc, c, transposed9(x));
}

// The visit of block (p, j) in the transpose: it and its counterpart, the read-out block of atoms j and i, change places, transposed, if it is the
// one with the smaller number. Where half shifts stay, a block that is its own counterpart is transposed only if it is that of i with itself.
// Where j's primitive atom comes before p, so does the counterpart, whatever the rows say.
fn transpose_visit(
    fc: &mut [f64],
    tables: &ShiftTables,
    half_shifts_stay: bool,
    p: PrimAtom,
    i: SuperAtom,
    j: SuperAtom,
)
    requires { ReadyAt (given tables.now) (length fc.old) p.0 i.0 j.0 }
    ensures { fc.new ≡ transpose_visit half_shifts_stay (shifts_of (given tables.now)) p.0 j.0 fc.old }
{
    if tables.s2pp_at(j).0 < p.0 {
        return;
    }
    let b = places::block2(p, j, tables.n_satom);
    let c = places::stored_block2(tables, j, i);
    if c < b {
        return;
    }
    if !half_shifts_stay {
        swap_blocks(fc, b, c);
        return;
    }
    if c == b {
        if j.0 != i.0 {
            return;
        }
    }
    swap_blocks(fc, b, c);
}

// The visit of block (p, j) in the averaging: it and its counterpart become their mean, if it is the one with the smaller number.
fn average_visit(fc: &mut [f64], tables: &ShiftTables, p: PrimAtom, i: SuperAtom, j: SuperAtom)
    requires { ReadyAt (given tables.now) (length fc.old) p.0 i.0 j.0 }
    ensures { fc.new ≡ average_visit (shifts_of (given tables.now)) p.0 j.0 fc.old }
{
    if tables.s2pp_at(j).0 < p.0 {
        return;
    }
    let b = places::block2(p, j, tables.n_satom);
    let c = places::stored_block2(tables, j, i);
    if c < b {
        return;
    }
    lines::average_pair(fc, b, c);
}

// The visits of the blocks of primitive atom p in the transpose.
fn transpose_row(fc: &mut [f64], tables: &ShiftTables, half_shifts_stay: bool, p: usize)
    requires { Ready (given tables.now) (length fc.old) × (p < tables.now.n_patom) }
    ensures { fc.new ≡ times tables.now.n_satom (transpose_visit half_shifts_stay (shifts_of (given tables.now)) p) fc.old }
{
    let i = tables.p2s_at(PrimAtom(p));
    for j in 0..tables.n_satom {
        transpose_visit(fc, tables, half_shifts_stay, PrimAtom(p), i, SuperAtom(j));
    }
}

// The whole set transposed, half-shift blocks too unless they stay.
pub fn transpose_pass(fc: &mut [f64], tables: &ShiftTables, half_shifts_stay: bool)
    requires { Ready (given tables.now) (length fc.old) }
    ensures { let T = given tables.now in fc.new ≡ cond half_shifts_stay (transposed (shifts_of T) fc.old) (swapped (shifts_of T) 1 (0, 1) fc.old) }
{
    for p in 0..tables.n_patom {
        transpose_row(fc, tables, half_shifts_stay, p);
    }
}

// The visits of the blocks of primitive atom p in the averaging.
fn average_row(fc: &mut [f64], tables: &ShiftTables, p: usize)
    requires { Ready (given tables.now) (length fc.old) × (p < tables.now.n_patom) }
    ensures { fc.new ≡ times tables.now.n_satom (average_visit (shifts_of (given tables.now)) p) fc.old }
{
    let i = tables.p2s_at(PrimAtom(p));
    for j in 0..tables.n_satom {
        average_visit(fc, tables, PrimAtom(p), i, SuperAtom(j));
    }
}

// The whole set averaged.
pub fn average_pass(fc: &mut [f64], tables: &ShiftTables)
    requires { Ready (given tables.now) (length fc.old) }
    ensures { fc.new ≡ averaged_compact (shifts_of (given tables.now)) fc.old }
{
    for p in 0..tables.n_patom {
        average_row(fc, tables, p);
    }
}
