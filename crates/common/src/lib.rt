// Rounding and the square root of an f64, worked out from its bits, and the bits themselves.
#![tactic(auto)]

mod root;

ghost use Rattle.std.specs.Prelude.{◌≡◌, ◌^◌, ◌≤◌, ◌<◌};
ghost use Rattle.std.specs.Float.{binary64};
ghost use Rattle.std.specs.Float.Ieee.{to_bits};
ghost use Rattle.common.specs.Root.{sqrt as rootOf};
ghost use Rattle.common.specs.Whole.{half_up, nearest_whole, nint as toNint};
ghost use Rattle.common.specs.Laws.Fields.{units_of, field_of, digits_of};

// The size of the f64 with the pattern b, to the nearest whole number, halves up, for a size below 2^52.
fn whole_size(b: u64) -> u64
    requires { field_of b < 1075 }
    ensures { (result ≡ half_up (units_of (field_of b) (digits_of b)) (2 ^ 1074)) × (result ≤ 2 ^ 53) }
{
    let e = b % 0x8000_0000_0000_0000 / 0x10_0000_0000_0000;
    let q = 0x10_0000_0000_0000 + b % 0x10_0000_0000_0000;
    // q moved right by k is twice the size, without its fraction: of a size below a half nothing is left
    let k = if e < 1011 { 63 } else { 1074 - e };
    ((q >> k) + 1) / 2
}

// x to the nearest whole number, halves away from zero.
pub fn round(x: f64) -> f64
    ensures { result ≡ nearest_whole x }
{
    if x != x {
        return x;
    }
    let b = f64::to_bits(x);
    // from 2^52 on x is a whole number, or an infinity
    if b % 0x8000_0000_0000_0000 / 0x10_0000_0000_0000 >= 1075 {
        return x;
    }
    let v = whole_size(b) as i64 as f64;
    // the sign's bit of x put to v, which has none
    f64::from_bits(f64::to_bits(v) + b / 0x8000_0000_0000_0000 * 0x8000_0000_0000_0000)
}

// The nearest whole number as an integer: beyond an i64 the nearest end, and 0 for a NaN.
pub fn nint(x: f64) -> i64
    ensures { result ≡ toNint x }
{
    if x != x {
        return 0;
    }
    let b = f64::to_bits(x);
    let e = b % 0x8000_0000_0000_0000 / 0x10_0000_0000_0000;
    // from 2^63 on
    if e >= 1086 {
        return if b >= 0x8000_0000_0000_0000 {
            -0x7fff_ffff_ffff_ffff - 1
        } else {
            0x7fff_ffff_ffff_ffff
        };
    }
    let n = if e < 1075 {
        whole_size(b)
    } else {
        (0x10_0000_0000_0000 + b % 0x10_0000_0000_0000) << (e - 1075)
    };
    let z = n as i64;
    if b >= 0x8000_0000_0000_0000 { -z } else { z }
}

// The square root of x as IEEE 754 rounds it, ties to even; of -0.0 it is -0.0, of any other negative number NaN.
pub fn sqrt(x: f64) -> f64
    ensures { result ≡ rootOf binary64 x }
{
    if x > 0.0 {
        let b = f64::to_bits(x);
        let e = b % 0x8000_0000_0000_0000 / 0x10_0000_0000_0000;
        let t = b % 0x10_0000_0000_0000;
        if e >= 2047 {
            return x;
        }
        if e == 0 {
            let z = (u64::leading_zeros(t) as u64) - 11;
            return root::root_float(t << z, 1022 - z);
        }
        return root::root_float(0x10_0000_0000_0000 + t, e + 1021);
    }
    if x == 0.0 {
        return x;
    }
    0.0 / 0.0
}

// The pattern of a float, one for every NaN.
pub fn float_word(x: f64) -> u64
    ensures { result ≡ to_bits binary64 x }
{
    if x != x {
        return 0x7ff8_0000_0000_0000;
    }
    f64::to_bits(x)
}
