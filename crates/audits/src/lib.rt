// What an audit says of a set, the comparison of two sets, and the audits of second, third and fourth order.
#![tactic(auto)]

pub mod any_order;
pub mod fourth;
pub mod guard;
pub mod kernel;
pub mod second;
pub mod third;

ghost use Rattle.std.specs.Prelude.{◌≡◌, length};
ghost use Rattle.audits.specs.Audit.{audit_number, differ as differBits, first_difference, same_set};

use common::float_word;
use tables::Refusal;

// The first place at which numbers differ that are to be the same: which permutation of the legs reads the other number, and both numbers.
#[derive(Clone, Copy)]
pub struct Difference {
    pub place: usize,
    pub order: usize,
    pub here: f64,
    pub there: f64,
}

// A number for each case, beside those of the refusals.
pub fn number(a: Result<Option<Difference>, Refusal>) -> u8
    ensures { result ≡ audit_number a }
{
    match a {
        Ok(None) => 73,
        Ok(Some(_)) => 74,
        Err(r) => u8::from(r),
    }
}

// Whether two numbers have other bits; any NaN is the same as any NaN.
pub fn differ(x: f64, y: f64) -> bool
    ensures { result ≡ differBits x y }
{
    float_word(x) != float_word(y)
}

// The first place at which two slices of one length differ, or their length.
pub fn first_difference(a: &[f64], b: &[f64]) -> usize
    requires { length b.now ≡ length a.now }
    ensures { result ≡ first_difference a.now b.now }
{
    for k in 0..a.len() {
        if differ(a[k], b[k]) {
            return k;
        }
    }
    a.len()
}

// Whether two sets have the same bits, or the first place at which they differ. The second is to have the length of the first.
pub fn same_set(a: &[f64], b: &[f64]) -> Result<Option<Difference>, Refusal>
    ensures { result ≡ same_set a.now b.now }
{
    if b.len() != a.len() {
        return Err(Refusal::WrongLength);
    }
    let q = first_difference(a, b);
    if q < a.len() {
        return Ok(Some(Difference {
            place: q,
            order: 0,
            here: a[q],
            there: b[q],
        }));
    }
    Ok(None)
}
