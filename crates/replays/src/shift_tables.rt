// The shift tables of a record.
ghost use Rattle.std.specs.Prelude.{◌≡◌, ◌+◌, ◌%◌, ◌^◌};
ghost use Rattle.replays.specs.Words.{word_of};

use crate::steps::{after, count_of, table};
use tables::shift_tables::ShiftTables;

// Word `counts` of the record and the two after it are the counts. The tables are one after another in `all`: perms, p2s, s2pp, nsym_list, whose
// lengths are word `lengths` and those after it.
pub fn shift_tables_of<'a>(
    r: &[u8],
    counts: usize,
    lengths: usize,
    all: &'a [i64],
) -> ShiftTables<'a>
    ensures satom { result.n_satom ≡ word_of r.now counts }
    ensures patom { result.n_patom ≡ word_of r.now ((counts + 1) % 2 ^ 64) }
    ensures trans { result.num_trans ≡ word_of r.now ((counts + 2) % 2 ^ 64) }
{
    ShiftTables {
        p2s: table(r, lengths, 1, all),
        s2pp: table(r, lengths, 2, all),
        nsym_list: table(r, lengths, 3, all),
        perms: table(r, lengths, 0, all),
        n_satom: count_of(r, counts),
        n_patom: count_of(r, after(counts, 1)),
        num_trans: count_of(r, after(counts, 2)),
    }
}
