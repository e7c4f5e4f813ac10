// The guard of the calls that read a compact set out: refusals 1, 2, 3 and 6 in this order.
// A compact set read out to the full one (document 02, A.11): the number for any atoms and directions stands at them.
#![tactic(auto)]

pub mod fc2;
pub mod fc3;
pub mod fc4;

ghost use Rattle.std.specs.Prelude.{◌≡◌, ◌≤◌};
ghost use Rattle.tables.specs.Compact.{given};
ghost use Rattle.read_out.specs.ReadOut.{judged_read_out};

use tables::Refusal;
use tables::shift_tables::ShiftTables;

// The guard of a compact set judges all but the full slice. A wrong length of that is refusal 2, unless a count is above its limit.
pub fn judge(
    limit: usize,
    m: usize,
    full_len: usize,
    set_len: usize,
    tables: &ShiftTables,
) -> Result<(), Refusal>
    requires { (limit ≤ 1024) × (m ≤ 3) }
    ensures { result ≡ judged_read_out limit m full_len set_len (given tables.now) }
{
    let a = shifts::judge_set(limit, m, set_len, tables);
    if tables::is_above_limit(a) {
        return a;
    }
    if full_len == tables::sets::set_length(tables.n_satom, tables.n_satom, m) {
        return a;
    }
    Err(Refusal::WrongLength)
}
