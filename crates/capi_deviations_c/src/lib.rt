// What C calls of capi_deviations: each export calls the function of that name there and states its clauses. A library for other crates exports nothing itself.
#![tactic(auto)]

ghost use Rattle.std.specs.Prelude.{◌≡◌, false, length};
ghost use Rattle.reports.specs.Sets.{set_difference};
ghost use Rattle.capi_deviations.specs.Slots.{report_call};

mod by_crystal;
mod by_legs;
mod by_orders;

// The worst difference between the numbers of two sets of one length: 65 still, 66 worst, 67 no number, or the number of the refusal. The place is an
// address and 0.
#[unsafe(no_mangle)]
pub extern "C" fn gf_set_difference(
    a: &[f64],
    b: &[f64],
    value: &mut [f64],
    place: &mut [usize],
) -> u8
    ensures { (result, value.new, place.new) ≡ report_call false 1 (set_difference a.now b.now) value.old place.old }
{
    capi_deviations::gf_set_difference(a, b, value, place)
}
