// C names of row sums. A slice is passed as a pointer and its length; include/gullyfork.h says the rest.
ghost use Rattle.std.specs.Prelude.{◌≡◌};
ghost use Rattle.row_sums.specs.RowSums.{row_sums_fc2};
ghost use Rattle.tables.specs.Numbered.{numbered};
ghost use Rattle.capi_fc2.specs.Replace.{replace_call};

use tables::limits::LIMIT2;

// The nine sums of each atom of a full set, by a fresh pass.
#[unsafe(no_mangle)]
pub extern "C" fn gf_row_sums_fc2(sums: &mut [f64], fc: &[f64], n_satom: usize) -> u8
    ensures { (result, sums.new) ≡ numbered (row_sums_fc2 sums.old fc.now n_satom) }
{
    let a = row_sums::row_sums_fc2(sums, fc, n_satom);
    tables::number(a)
}

// Replaces block (i, j) of a full set and brings the sums of atom i up to date. The block comes as a slice of nine numbers.
#[unsafe(no_mangle)]
pub extern "C" fn gf_replace_block_fc2(
    fc: &mut [f64],
    sums: &mut [f64],
    block: &[f64],
    i: usize,
    j: usize,
    n_satom: usize,
) -> u8
    ensures { (result, fc.new, sums.new) ≡ replace_call fc.old sums.old block.now i j n_satom }
{
    if block.len() == 9 {
        let b = blocks::read9(block, 0);
        let a = row_sums::replace_block_fc2(fc, sums, b, i, j, n_satom);
        return tables::number(a);
    }
    if n_satom > LIMIT2 {
        return 1;
    }
    2
}
