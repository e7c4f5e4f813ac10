// The shift tables that every call on a compact set is given, with their counts: one value, so that a table is never passed in another's place.
ghost use Rattle.std.specs.Prelude.{◌≡◌, ◌+◌, ◌*◌};
ghost use Rattle.tables.specs.Compact.{given};
ghost use Rattle.tables.specs.Conditions.{index_at, Readable};

use super::atoms::{PrimAtom, SuperAtom};
use super::index::entry;

// p2s has the representative of each of the n_patom primitive atoms, s2pp the primitive atom of each of the n_satom atoms, perms num_trans rows with
// the image of each atom, and nsym_list the row that sends an atom to its representative. The tables are as they were lent: nothing is known of them yet.
#[derive(Clone, Copy)]
pub struct ShiftTables<'a> {
    pub p2s: &'a [i64],
    pub s2pp: &'a [i64],
    pub nsym_list: &'a [i64],
    pub perms: &'a [i64],
    pub n_satom: usize,
    pub n_patom: usize,
    pub num_trans: usize,
}

impl<'a> ShiftTables<'a> {
    // The representative of primitive atom p.
    pub fn p2s_at(&self, p: PrimAtom) -> SuperAtom
        requires { Readable (given self.now).p2s p.0 }
        ensures { result.0 ≡ index_at (given self.now).p2s p.0 }
    {
        let i = p.0;
        SuperAtom(entry(self.p2s, i))
    }

    // The primitive atom of supercell atom a.
    pub fn s2pp_at(&self, a: SuperAtom) -> PrimAtom
        requires { Readable (given self.now).s2pp a.0 }
        ensures { result.0 ≡ index_at (given self.now).s2pp a.0 }
    {
        let i = a.0;
        PrimAtom(entry(self.s2pp, i))
    }

    // Where row t sends supercell atom a.
    pub fn perms_at(&self, t: usize, a: SuperAtom) -> SuperAtom
        requires { Readable (given self.now).perms (t * self.now.n_satom + a.0) }
        ensures { result.0 ≡ index_at (given self.now).perms (t * self.now.n_satom + a.0) }
    {
        let i = a.0;
        SuperAtom(entry(self.perms, t * self.n_satom + i))
    }

    // The row that sends supercell atom a to its representative.
    pub fn nsym_at(&self, a: SuperAtom) -> usize
        requires { Readable (given self.now).nsym_list a.0 }
        ensures { result ≡ index_at (given self.now).nsym_list a.0 }
    {
        let i = a.0;
        entry(self.nsym_list, i)
    }
}
