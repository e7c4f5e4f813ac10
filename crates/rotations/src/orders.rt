// The orders of sets as types: how many legs and numbers a block has, and the coefficients of its rotation.
ghost use Rattle.std.specs.Prelude.{◌≡◌, ℕ, ◌≤◌};
ghost use Rattle.std.proofs.Common.{lit≤};
ghost use Rattle.rotations.specs.Rotation.{coefficients as coefficientsOf};

// C is the number of coefficients.
pub trait Order<const C: usize> {
    ghost legs: { ℕ };

    ghost width: { ℕ };

    // a block has numbers, and the coefficients are few
    ghost some: { 1 ≤ width };

    ghost small: { C ≤ 6561 };

    // Puts the coefficients of a block rotated by m into c. c is lent: of fourth order it has 52 kB, and no step is to hold a copy.
    fn coefficients(m: [f64; 9], c: &mut [f64; C])
        ensures { c.new ≡ coefficientsOf m legs width };
}

pub struct Second;

pub struct Third;

pub struct Fourth;

impl Order<81> for Second {
    ghost legs = { 2 };

    ghost width = { 9 };

    ghost some = { lit≤ tt };

    ghost small = { lit≤ tt };

    fn coefficients(m: [f64; 9], c: &mut [f64; 81]) {
        super::put_coefficients2(c, m);
    }
}

impl Order<729> for Third {
    ghost legs = { 3 };

    ghost width = { 27 };

    ghost some = { lit≤ tt };

    ghost small = { lit≤ tt };

    fn coefficients(m: [f64; 9], c: &mut [f64; 729]) {
        super::put_coefficients3(c, m);
    }
}

impl Order<6561> for Fourth {
    ghost legs = { 4 };

    ghost width = { 81 };

    ghost some = { lit≤ tt };

    ghost small = { lit≤ tt };

    fn coefficients(m: [f64; 9], c: &mut [f64; 6561]) {
        super::put_coefficients4(c, m);
    }
}
