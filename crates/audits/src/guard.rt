// The tables of a full set.
ghost use Rattle.std.specs.Prelude.{◌≡◌, ℕ, ◌≤◌};
ghost use Rattle.tables.specs.Compact.{given};
ghost use Rattle.audits.specs.Guard.{counted as countedTo, noughts as noughtsTo, full_tables};

use std::marker::Model;
use tables::shift_tables::ShiftTables;

// 0, 1, 2, ..: in a full set every atom is its own representative, and the one row sends it to itself.
pub fn counted() -> [i64; 1024]
    ensures { result ≡ countedTo 1024 }
{
    let mut t = [0i64; 1024];
    for i in 0..1024usize {
        t[i] = i as i64;
    }
    t
}

// The tables of a full set of at most 1024 atoms, held for the shift tables that borrow them. Clauses see the count of atoms.
#[derive(Drop)]
pub struct FullTables {
    numbers: [i64; 1024],
    noughts: [i64; 1024],
    n_atoms: usize,
}

impl Model for FullTables {
    ghost Value = { ℕ };

    ghost view = { λ t. t.n_atoms };

    ghost invariant = { λ t. (t.n_atoms ≤ 1024) × (t.numbers ≡ countedTo 1024) × (t.noughts ≡ noughtsTo 1024) };
}

impl FullTables {
    pub fn new(n_atoms: usize) -> FullTables
        requires { n_atoms ≤ 1024 }
        ensures { result ≡ n_atoms }
    {
        FullTables {
            numbers: counted(),
            noughts: [0; 1024],
            n_atoms,
        }
    }

    // Every atom is its own representative, and the one row sends it to itself.
    pub fn tables<'a>(&'a self) -> ShiftTables<'a>
        ensures { given result ≡ full_tables self.now }
    {
        let n = self.n_atoms;
        ShiftTables {
            p2s: &self.numbers[..n],
            s2pp: &self.numbers[..n],
            nsym_list: &self.noughts[..n],
            perms: &self.numbers[..n],
            n_satom: n,
            n_patom: n,
            num_trans: 1,
        }
    }
}
