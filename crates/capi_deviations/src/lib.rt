// C names of the reports: how far a set is from another, from its own permutations of legs, from the crystal's operations. A slice is passed as a pointer
// and its length; include/gullyfork.h says the rest.
#![tactic(auto)]

pub mod by_crystal;
pub mod by_legs;
pub mod by_orders;

ghost use Rattle.std.specs.Prelude.{◌≡◌, false, ◌<◌, length};
ghost use Rattle.reports.specs.Sets.{set_difference};
ghost use Rattle.capi_deviations.specs.Slots.{report_slots, report_slots_fit, report_call};

use places::{column_of, row_of};
use reports::Report;
use tables::Refusal;

// One slot for the value, two for the place.
pub fn slots_fit(len_value: usize, len_place: usize) -> bool
    ensures { result ≡ report_slots_fit len_value len_place }
{
    len_value == 1 && len_place == 2
}

// Puts a report into the slots: its value, and its place, the number of its row of n and the number in it. A refusal leaves them.
pub fn put(a: Result<Report, Refusal>, n: usize, value: &mut [f64], place: &mut [usize]) -> u8
    requires { (0 < n) × (length value.old ≡ 1) × (length place.old ≡ 2) }
    ensures { (result, value.new, place.new) ≡ report_slots n a value.old place.old }
{
    match a {
        Ok(q) => {
            let d = q.deviation;
            value[0] = reports::value(d);
            place[0] = row_of(q.index, n);
            place[1] = column_of(q.index, n);
            65 + reports::number(d)
        }
        Err(r) => u8::from(r),
    }
}

// The worst difference between the numbers of two sets of one length: 65 still, 66 worst, 67 no number, or the number of the refusal. The place is an
// address and 0.
#[unsafe(no_mangle)]
pub extern "C" fn gf_set_difference(
    a: &[f64],
    b: &[f64],
    value: &mut [f64],
    place: &mut [usize],
) -> u8
    ensures { (result, value.new, place.new) ≡ report_call false 1 (set_difference a.now b.now) value.old place.old }
{
    if slots_fit(value.len(), place.len()) {
        let r = reports::sets::set_difference(a, b);
        return put(r, 1, value, place);
    }
    2
}
