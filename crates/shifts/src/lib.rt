// The guard of shift tables, and of every call on a compact set: refusals 1, 2, 3 and 6 in this order.
#![tactic(auto)]

ghost use Rattle.std.specs.Prelude.{◌≡◌, false, [], ◌∷◌, ◌≤◌};
ghost use Rattle.tables.specs.Conditions.{any_above, any_wrong};
ghost use Rattle.tables.specs.Limits.{limit2};
ghost use Rattle.tables.specs.Compact.{table_lengths, tables_out_of_range, judged_entries, judged_tables, judged_set, judged_compact, given};

use tables::Refusal;
use tables::index::all_below;
use tables::limits::LIMIT2;
use tables::sets::{set_blocks, set_length};
use tables::shift_tables::ShiftTables;

pub mod rows;
mod rules;

// 1: whether a count is above the limit.
fn any_above(limit: usize, tables: &ShiftTables) -> bool
    ensures { let T = given tables.now in result ≡ any_above limit (T.n_satom ∷ (T.n_patom ∷ (T.num_trans ∷ []))) }
{
    if tables.n_satom > limit {
        return true;
    }
    if tables.n_patom > limit {
        return true;
    }
    limit < tables.num_trans
}

// 2: whether a shift table is not as long as stated.
fn any_wrong(tables: &ShiftTables) -> bool
    requires { (tables.now.n_satom ≤ 1024) × (tables.now.num_trans ≤ 1024) }
    ensures { result ≡ any_wrong (table_lengths (given tables.now)) }
{
    if tables.perms.len() != tables.num_trans * tables.n_satom {
        return true;
    }
    if tables.p2s.len() != tables.n_patom {
        return true;
    }
    if tables.s2pp.len() != tables.n_satom {
        return true;
    }
    tables.nsym_list.len() != tables.n_satom
}

// 3: whether a shift table holds an entry that is no index.
fn any_out(tables: &ShiftTables) -> bool
    ensures { result ≡ tables_out_of_range (given tables.now) }
{
    if !all_below(tables.perms, tables.n_satom) {
        return true;
    }
    if !all_below(tables.p2s, tables.n_satom) {
        return true;
    }
    if !all_below(tables.s2pp, tables.n_patom) {
        return true;
    }
    !all_below(tables.nsym_list, tables.num_trans)
}

// 3 and 6, of tables that passed 1 and 2.
fn judge_entries(tables: &ShiftTables) -> Result<(), Refusal>
    requires in_range { let T = given tables.now in (T.n_satom ≤ 1024) × (T.n_patom ≤ 1024) × (T.num_trans ≤ 1024) }
    requires in_range_2 { any_wrong (table_lengths (given tables.now)) ≡ false }
    ensures { result ≡ judged_entries (given tables.now) }
{
    if any_out(tables) {
        return Err(Refusal::IndexOutOfRange);
    }
    if rules::keeps_rules(tables) {
        return Ok(());
    }
    Err(Refusal::BadShiftTables)
}

// Whether shift tables keep every rule of "Shift tables", for counts within the limit of second order, zero too:
// refusal 1, 2, 3 or 6, or Done.
pub fn check_shift_tables(tables: &ShiftTables) -> Result<(), Refusal>
    ensures { result ≡ judged_tables limit2 [] (given tables.now) }
{
    if any_above(LIMIT2, tables) {
        return Err(Refusal::CountAboveLimit);
    }
    if any_wrong(tables) {
        return Err(Refusal::WrongLength);
    }
    judge_entries(tables)
}

// The guard of a call that brings a compact set of rank m + 1 and no other slice.
pub fn judge_set(
    limit: usize,
    m: usize,
    set_len: usize,
    tables: &ShiftTables,
) -> Result<(), Refusal>
    requires { (limit ≤ 1024) × (m ≤ 3) }
    ensures { result ≡ judged_set limit m set_len [] (given tables.now) }
{
    if any_above(limit, tables) {
        return Err(Refusal::CountAboveLimit);
    }
    if set_len != set_length(tables.n_patom, tables.n_satom, m) {
        return Err(Refusal::WrongLength);
    }
    if any_wrong(tables) {
        return Err(Refusal::WrongLength);
    }
    judge_entries(tables)
}

// The same with a work slice of n_patom × n_satom^k entries. A wrong length of it is refusal 2, unless a count is above its limit.
pub fn judge_compact(
    limit: usize,
    m: usize,
    set_len: usize,
    k: usize,
    work_len: usize,
    tables: &ShiftTables,
) -> Result<(), Refusal>
    requires { (limit ≤ 1024) × (m ≤ 3) × (k ≤ 3) }
    ensures { result ≡ judged_compact limit m set_len k work_len (given tables.now) }
{
    let a = judge_set(limit, m, set_len, tables);
    if tables::is_above_limit(a) {
        return a;
    }
    if work_len == set_blocks(tables.n_patom, tables.n_satom, k) {
        return a;
    }
    Err(Refusal::WrongLength)
}
