// The distance leaf of the matchers: whether a position and a slot are near, far, or their distance is no number.
#![tactic(auto)]

ghost use Rattle.std.specs.Prelude.{◌≡◌, ◌+◌, ◌*◌, ◌≤◌, T, length};
ghost use Rattle.std.specs.Float.{binary64};
ghost use Rattle.std.specs.Float.Ieee.{mul, lt};
ghost use Rattle.common.specs.Root.{sqrt as rootOf};
ghost use Rattle.distances.specs.Near.{wrapped as wrappedOf, difference as differenceOf, dot as dotOf, squares, classified, is_near, near as nearOf, distance as distance_of};
ghost use Rattle.distances.specs.Reach.{is_positive, Rests, Early, EarlyOf, everywhere as everywhereOf, OnlyIf, Reaches, ReachFits, early_of, early_in, sure_of, reach_of};

use places::index_of;

// A crystal's cell: the lattice's nine numbers, row after row, the tolerance, and along which axes the cell repeats. Component k of a difference is row k times the
// difference of the coordinates, so the basis vectors stand in the columns; axis k is coordinate k.
#[derive(Clone, Copy)]
pub struct Cell {
    pub lattice: [f64; 9],
    pub symprec: f64,
    pub periodic: [bool; 3],
}

// What a distance is to the tolerance: below it, not below it, or NaN.
#[derive(Clone, Copy)]
pub enum Distance {
    Near,
    Far,
    NoNumber,
}

pub fn is_near(d: Distance) -> bool
    ensures { result ≡ is_near d }
{
    match d {
        Distance::Near => true,
        Distance::Far => false,
        Distance::NoNumber => false,
    }
}

// An axis difference less its own rounding. Adding and taking away 1.5 · 2^52 takes a whole number off; where the sum is above 2^52 and less than a half is left,
// it is the nearest one. Otherwise, at halves and for large differences, the rounding is worked out.
fn wrapped(a: f64, b: f64) -> f64
    ensures { result ≡ wrappedOf a b }
{
    let d = a - b;
    let sum = d + 6755399441055744.0;
    let x = d + (6755399441055744.0 - sum);
    if sum > 4503599627370496.0 {
        if x > -0.5 {
            if x < 0.5 {
                return x;
            }
        }
    }
    d - common::round(d)
}

// The difference on an axis: less its own rounding where the cell repeats along it, whole where it does not.
fn difference(repeats: bool, a: f64, b: f64) -> f64
    ensures { result ≡ differenceOf repeats a b }
{
    if repeats {
        return wrapped(a, b);
    }
    a - b
}

// 0.0 + a x + b y + c z, in that order.
fn dot(a: f64, b: f64, c: f64, x: f64, y: f64, z: f64) -> f64
    ensures { result ≡ dotOf a b c x y z }
{
    0.0 + a * x + b * y + c * z
}

// What is worked out once from a cell: the tolerance's square, above which nothing is near; a square up to which everything is; and the square above which the
// first component alone decides that the distance is far, and a number.
#[derive(Clone, Copy)]
pub struct Reach {
    pub square: f64,
    pub sure: f64,
    pub early: f64,
}

// Whether the cell repeats along all three axes.
fn everywhere(periodic: [bool; 3]) -> bool
    ensures { result ≡ everywhereOf periodic }
{
    if periodic[0] {
        if periodic[1] {
            return periodic[2];
        }
        return false;
    }
    false
}

// The tolerance's square where the second and the third row of the lattice hold finite numbers only, so that no component of a difference is NaN by them;
// otherwise NaN, which nothing is above. An infinity or a NaN times 0.0 is NaN.
fn early_of(square: f64, p: f64, q: f64, r: f64, s: f64, t: f64, u: f64) -> f64
    ensures { (result ≡ early_of square p q r s t u) × Early square result p q r s t u }
{
    let zero = p * 0.0 + q * 0.0 + r * 0.0 + s * 0.0 + t * 0.0 + u * 0.0;
    if zero == 0.0 {
        return square;
    }
    0.0 / 0.0
}

// `early_of` in a cell that repeats along all axes, where no difference is larger than 1; NaN in any other.
fn early_in(repeats: bool, square: f64, l: [f64; 9]) -> f64
    ensures { (result ≡ early_in repeats square l) × EarlyOf l square result × OnlyIf repeats result }
{
    if repeats {
        return early_of(square, l[3], l[4], l[5], l[6], l[7], l[8]);
    }
    let never = 0.0 / 0.0;
    never
}

// The squares of a tolerance, with `early`.
fn with_sure(symprec: f64, square: f64, early: f64) -> Reach
    requires { square ≡ mul binary64 symprec symprec }
    ensures { (result ≡ record { square = square; sure = sure_of symprec square; early = early }) × Reaches symprec result.square result.sure }
{
    // a little less than the square; no matter how little, since its own root is tested
    let sure = square * 0.9999999999999991;
    if common::sqrt(sure) < symprec {
        return Reach {
            square,
            sure,
            early,
        };
    }
    Reach {
        square,
        sure: 0.0 / 0.0,
        early,
    }
}

// What is worked out once from a cell.
pub fn reach_of(cell: Cell) -> Reach
    ensures { (result ≡ reach_of cell) × ReachFits cell result }
{
    let l = cell.lattice;
    let square = cell.symprec * cell.symprec;
    let f = cell.periodic;
    let early = early_in(everywhere(f), square, l);
    with_sure(cell.symprec, square, early)
}

// What the root of d2 is to the tolerance. The root is worked out only where the two squares leave it open: above the tolerance's square nothing is near, and up
// to `sure`, whose own root was found below the tolerance, everything is. Neither holds of NaN.
fn below(d2: f64, symprec: f64, reach: Reach) -> Distance
    requires { T (is_positive d2) × Reaches symprec reach.square reach.sure }
    ensures { result ≡ classified (rootOf binary64 d2) symprec }
{
    if d2 > reach.square {
        return Distance::Far;
    }
    if d2 <= reach.sure {
        return Distance::Near;
    }
    if d2 != d2 {
        return Distance::NoNumber;
    }
    if common::sqrt(d2) < symprec {
        return Distance::Near;
    }
    Distance::Far
}

// What the length of the difference (x, y, z) in the lattice l is to the tolerance: component k of it is row k times (x, y, z). The first component alone can be
// too long, and in a cell that repeats along all axes, with a lattice that is finite below its first row, no other one makes the length NaN then.
fn short(l: [f64; 9], symprec: f64, reach: Reach, x: f64, y: f64, z: f64) -> Distance
    requires { Reaches symprec reach.square reach.sure × EarlyOf l reach.square reach.early × Rests reach.early x y z }
    ensures { result ≡ classified (rootOf binary64 (squares l x y z)) symprec }
{
    let a = dot(l[0], l[1], l[2], x, y, z);
    let first = 0.0 + a * a;
    if first > reach.early {
        return Distance::Far;
    }
    let b = dot(l[3], l[4], l[5], x, y, z);
    let c = dot(l[6], l[7], l[8], x, y, z);
    below(first + b * b + c * c, symprec, reach)
}

// What the distance of position i of pos and position j of rot_pos is to the tolerance of the cell.
pub fn distance_of(
    cell: Cell,
    reach: Reach,
    pos: &[f64],
    rot_pos: &[f64],
    i: usize,
    j: usize,
) -> Distance
    requires { (i * 3 + 3 ≤ length pos.now) × (j * 3 + 3 ≤ length rot_pos.now) × ReachFits cell reach }
    ensures { result ≡ distance_of cell pos.now rot_pos.now i j }
{
    let f = cell.periodic;
    let x = difference(f[0], pos[index_of(i, 3, 0)], rot_pos[index_of(j, 3, 0)]);
    let y = difference(f[1], pos[index_of(i, 3, 1)], rot_pos[index_of(j, 3, 1)]);
    let z = difference(f[2], pos[index_of(i, 3, 2)], rot_pos[index_of(j, 3, 2)]);
    let l = cell.lattice;
    short(l, cell.symprec, reach, x, y, z)
}

// Whether the root of a sum of squares is below the tolerance: the two squares decide as in `below`, and the root where they leave it open.
fn root_below(q: f64, symprec: f64, reach: Reach) -> bool
    requires { T (is_positive q) × Reaches symprec reach.square reach.sure }
    ensures { result ≡ lt (rootOf binary64 q) symprec }
{
    if q > reach.square {
        return false;
    }
    if q <= reach.sure {
        return true;
    }
    common::sqrt(q) < symprec
}

// Whether the length of the difference (x, y, z) in the lattice l is below the tolerance.
fn shorter(l: [f64; 9], symprec: f64, reach: Reach, x: f64, y: f64, z: f64) -> bool
    requires { Reaches symprec reach.square reach.sure }
    ensures { result ≡ lt (rootOf binary64 (squares l x y z)) symprec }
{
    let a = dot(l[0], l[1], l[2], x, y, z);
    let b = dot(l[3], l[4], l[5], x, y, z);
    let c = dot(l[6], l[7], l[8], x, y, z);
    root_below(0.0 + a * a + b * b + c * c, symprec, reach)
}

// Whether position i of pos is near position j of rot_pos. A distance that is no number is not near. It stands apart from `distance_of`, so that greedy's loop is the
// one that calls that: the compiler makes a call for each pair of a function that two loops share, and greedy took three times as long.
pub fn near(cell: Cell, reach: Reach, pos: &[f64], rot_pos: &[f64], i: usize, j: usize) -> bool
    requires { (i * 3 + 3 ≤ length pos.now) × (j * 3 + 3 ≤ length rot_pos.now) × ReachFits cell reach }
    ensures { result ≡ nearOf cell pos.now rot_pos.now i j }
{
    let f = cell.periodic;
    let x = difference(f[0], pos[index_of(i, 3, 0)], rot_pos[index_of(j, 3, 0)]);
    let y = difference(f[1], pos[index_of(i, 3, 1)], rot_pos[index_of(j, 3, 1)]);
    let z = difference(f[2], pos[index_of(i, 3, 2)], rot_pos[index_of(j, 3, 2)]);
    let l = cell.lattice;
    shorter(l, cell.symprec, reach, x, y, z)
}
