// The exports of capi_reports::drifts.
ghost use Rattle.std.specs.Prelude.{◌≡◌};
ghost use Rattle.tables.specs.Compact.{shift_tables};
ghost use Rattle.capi_reports.specs.Drifts.{compact_drift_call, leg_drift_call};

// The drift of each row sum and of each column sum of the full set that a compact set reads out to: 65 still, 66 worst, 67 no number, or the number of
// the refusal. The slots are those of gf_drift_report.
#[unsafe(no_mangle)]
pub extern "C" fn gf_drift_report_compact_fc2(
    fc: &[f64],
    p2s: &[i64],
    s2pp: &[i64],
    nsym_list: &[i64],
    perms: &[i64],
    value: &mut [f64],
    place: &mut [usize],
    n_satom: usize,
    n_patom: usize,
    num_trans: usize,
) -> u8
    ensures { (result, value.new, place.new) ≡ compact_drift_call fc.now (shift_tables p2s.now s2pp.now nsym_list.now perms.now n_satom n_patom num_trans) value.old place.old }
{
    capi_reports::drifts::gf_drift_report_compact_fc2(
        fc, p2s, s2pp, nsym_list, perms, value, place, n_satom, n_patom, num_trans,
    )
}

// The drift of the sums over each leg of a full set of third order: 65 still, 66 worst, 67 no number, or the number of the refusal.
#[unsafe(no_mangle)]
pub extern "C" fn gf_drift_report_fc3(
    fc: &[f64],
    value: &mut [f64],
    place: &mut [usize],
    num_atom: usize,
) -> u8
    ensures { (result, value.new, place.new) ≡ leg_drift_call fc.now num_atom value.old place.old }
{
    capi_reports::drifts::gf_drift_report_fc3(fc, value, place, num_atom)
}
