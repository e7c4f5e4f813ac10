// Index tables: judged whole (refusal 3), and only then read.
ghost use Rattle.std.specs.Prelude.{◌≡◌, true, not, ℕ, ◌+◌, ◌≤◌, ◌<◌, pos, length, get_or};
ghost use Rattle.tables.specs.Conditions.{Tells, below, out_of_range, index_at, Readable};

// Whether x is an index into n things: not negative, and below n.
fn is_below(x: i64, n: usize) -> bool
    ensures { result ≡ below n x }
{
    if x < 0 {
        return false;
    }
    (x as usize) < n
}

// The same without a branch: m is n as an i64.
fn is_within(x: i64, n: usize, m: i64) -> bool
    requires { m ≡ pos n }
    ensures { result ≡ below n x }
{
    !(x < 0) & (x < m)
}

// The same of entry i.
fn within_at(t: &[i64], i: usize, n: usize, m: i64) -> bool
    requires { (m ≡ pos n) × (i < length t.now) }
    ensures { Tells result (below n (get_or t.now i (pos 0)) ≡ true) }
{
    is_within(t[i], n, m)
}

// The same of four entries.
fn four_within(t: &[i64], i: usize, n: usize, m: i64) -> bool
    requires { (m ≡ pos n) × (i + 3 < length t.now) }
    ensures { Tells result ((k : ℕ) → k < 4 → below n (get_or t.now (i + k) (pos 0)) ≡ true) }
{
    let p = within_at(t, i, n, m);
    let q = within_at(t, i + 1, n, m);
    let r = within_at(t, i + 2, n, m);
    let s = within_at(t, i + 3, n, m);
    p & q & r & s
}

// Whether the entries from the given one on are indices into n things.
fn rest_below(t: &[i64], start: usize, n: usize) -> bool
    requires { start ≤ length t.now }
    ensures { Tells result ((k : ℕ) → start ≤ k → k < length t.now → below n (get_or t.now k (pos 0)) ≡ true) }
{
    for i in start..t.len() {
        if !is_below(t[i], n) {
            return false;
        }
    }
    true
}

// Whether all entries are, four at a time.
fn fours_below(t: &[i64], n: usize, m: i64) -> bool
    requires { m ≡ pos n }
    ensures { Tells result ((k : ℕ) → k < length t.now → below n (get_or t.now k (pos 0)) ≡ true) }
{
    let fours = t.len() / 4;
    for f in 0..fours {
        if !four_within(t, f * 4, n, m) {
            return false;
        }
    }
    rest_below(t, fours * 4, n)
}

// Whether every entry of t is an index into n things, whether it is read later or not.
pub fn all_below(t: &[i64], n: usize) -> bool
    ensures { result ≡ not (out_of_range n t.now) }
{
    if n < 4294967296 {
        return fours_below(t, n, n as i64);
    }
    rest_below(t, 0, n)
}

// Entry i of a table, as an index.
pub fn entry(t: &[i64], i: usize) -> usize
    requires { Readable t.now i }
    ensures { result ≡ index_at t.now i }
{
    t[i] as usize
}
