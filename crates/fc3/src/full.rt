// The symmetrizer of a full set. Its groups are those of atoms a <= b <= c: the block of the sorted atoms is the first of a group in loop order.
// The first group of a line (a, b) is that of c = b; of the others all atoms differ, or the first two are the same in all of them.
ghost use Rattle.std.specs.Prelude.{◌≡◌, ◌<◌, length};
ghost use Rattle.std.specs.Float.{nan};
ghost use Rattle.places.specs.Permutations.{perms3};
ghost use Rattle.places.specs.WholeLaws.{full_shifts};
ghost use Rattle.orbits.specs.Symmetric.{symmetrized, mean6};
ghost use Rattle.fc3.specs.Symmetrize.{set_permutation_symmetry_fc3};
ghost use Rattle.fc3.specs.FullLoops.{FullReady, group_at, line_of, lines_of};

use crate::spread::{work_distinct, work_first_two, work_last_two, work_same};
use places::full3;
use tables::Refusal;
use tables::atoms::SuperAtom;
use tables::limits::LIMIT3;
use tables::sets::judge_full;

// The group of a, a, a: one block.
fn group_same(fc3: &mut [f64], num_atom: usize, a: SuperAtom)
    requires { FullReady (length fc3.old) num_atom × (a.0 < num_atom) }
    ensures { fc3.new ≡ group_at num_atom a.0 a.0 a.0 fc3.old }
{
    let aaa = full3(a, a, a, num_atom);
    work_same(fc3, aaa);
}

// The group of a, a, c: three blocks.
fn group_first(fc3: &mut [f64], num_atom: usize, a: SuperAtom, c: SuperAtom)
    requires { FullReady (length fc3.old) num_atom × (a.0 < c.0) × (c.0 < num_atom) }
    ensures { fc3.new ≡ group_at num_atom a.0 a.0 c.0 fc3.old }
{
    let aac = full3(a, a, c, num_atom);
    let aca = full3(a, c, a, num_atom);
    let caa = full3(c, a, a, num_atom);
    work_first_two(fc3, aac, aca, caa);
}

// The group of a, b, b: three blocks.
fn group_last(fc3: &mut [f64], num_atom: usize, a: SuperAtom, b: SuperAtom)
    requires { FullReady (length fc3.old) num_atom × (a.0 < b.0) × (b.0 < num_atom) }
    ensures { fc3.new ≡ group_at num_atom a.0 b.0 b.0 fc3.old }
{
    let abb = full3(a, b, b, num_atom);
    let bab = full3(b, a, b, num_atom);
    let bba = full3(b, b, a, num_atom);
    work_last_two(fc3, abb, bab, bba);
}

// The group of three different atoms: six blocks.
fn group_rising(fc3: &mut [f64], num_atom: usize, a: SuperAtom, b: SuperAtom, c: SuperAtom)
    requires { FullReady (length fc3.old) num_atom × (a.0 < b.0) × (b.0 < c.0) × (c.0 < num_atom) }
    ensures { fc3.new ≡ group_at num_atom a.0 b.0 c.0 fc3.old }
{
    let abc = full3(a, b, c, num_atom);
    let acb = full3(a, c, b, num_atom);
    let bac = full3(b, a, c, num_atom);
    let bca = full3(b, c, a, num_atom);
    let cab = full3(c, a, b, num_atom);
    let cba = full3(c, b, a, num_atom);
    work_distinct(fc3, abc, acb, bac, bca, cab, cba);
}

// The groups of a twice with each c from a on.
fn line_same(fc3: &mut [f64], num_atom: usize, a: SuperAtom)
    requires { FullReady (length fc3.old) num_atom × (a.0 < num_atom) }
    ensures { fc3.new ≡ line_of num_atom a.0 a.0 fc3.old }
{
    group_same(fc3, num_atom, a);
    for c in a.0 + 1..num_atom {
        group_first(fc3, num_atom, a, SuperAtom(c));
    }
}

// The groups of a and a higher b with each c from b on.
fn line_rising(fc3: &mut [f64], num_atom: usize, a: SuperAtom, b: SuperAtom)
    requires { FullReady (length fc3.old) num_atom × (a.0 < b.0) × (b.0 < num_atom) }
    ensures { fc3.new ≡ line_of num_atom a.0 b.0 fc3.old }
{
    group_last(fc3, num_atom, a, b);
    for c in b.0 + 1..num_atom {
        group_rising(fc3, num_atom, a, b, SuperAtom(c));
    }
}

// The groups of a with each b from a on.
fn lines(fc3: &mut [f64], num_atom: usize, a: SuperAtom)
    requires { FullReady (length fc3.old) num_atom × (a.0 < num_atom) }
    ensures { fc3.new ≡ lines_of num_atom a.0 fc3.old }
{
    line_same(fc3, num_atom, a);
    for b in a.0 + 1..num_atom {
        line_rising(fc3, num_atom, a, SuperAtom(b));
    }
}

// All groups: the set is symmetrized.
pub fn symmetrize(fc3: &mut [f64], num_atom: usize)
    requires { FullReady (length fc3.old) num_atom }
    ensures { fc3.new ≡ symmetrized nan mean6 (full_shifts num_atom) 2 perms3 fc3.old }
{
    for a in 0..num_atom {
        lines(fc3, num_atom, SuperAtom(a));
    }
}

// The set is symmetrized: all six permutations of any three legs hold the same number.
pub fn set_permutation_symmetry_fc3(fc3: &mut [f64], num_atom: usize) -> Result<(), Refusal>
    ensures { (result, fc3.new) ≡ set_permutation_symmetry_fc3 fc3.old num_atom }
{
    judge_full(LIMIT3, 2, fc3.len(), num_atom)?;
    symmetrize(fc3, num_atom);
    Ok(())
}
