// The exports of capi_fc2::sums.
ghost use Rattle.std.specs.Prelude.{◌≡◌};
ghost use Rattle.row_sums.specs.RowSums.{row_sums_fc2};
ghost use Rattle.tables.specs.Numbered.{numbered};
ghost use Rattle.capi_fc2.specs.Replace.{replace_call};

// The nine sums of each atom of a full set, by a fresh pass.
#[unsafe(no_mangle)]
pub extern "C" fn gf_row_sums_fc2(sums: &mut [f64], fc: &[f64], n_satom: usize) -> u8
    ensures { (result, sums.new) ≡ numbered (row_sums_fc2 sums.old fc.now n_satom) }
{
    capi_fc2::sums::gf_row_sums_fc2(sums, fc, n_satom)
}

// Replaces block (i, j) of a full set and brings the sums of atom i up to date. The block comes as a slice of nine numbers.
#[unsafe(no_mangle)]
pub extern "C" fn gf_replace_block_fc2(
    fc: &mut [f64],
    sums: &mut [f64],
    block: &[f64],
    i: usize,
    j: usize,
    n_satom: usize,
) -> u8
    ensures { (result, fc.new, sums.new) ≡ replace_call fc.old sums.old block.now i j n_satom }
{
    capi_fc2::sums::gf_replace_block_fc2(fc, sums, block, i, j, n_satom)
}
