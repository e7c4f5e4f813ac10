// The half-shift test, at every rank: the Rust's transposes leave the blocks that it names, the true transposes move them too.
ghost use Rattle.std.specs.Prelude.{◌≡◌, ◌&&◌, ◌<◌};
ghost use Rattle.tables.specs.Compact.{shifts_of, given};
ghost use Rattle.places.specs.Moves.{stays as staysIn};
ghost use Rattle.orbits.specs.HalfShift.{Sound};

use tables::atoms::{PrimAtom, SuperAtom};
use tables::shift_tables::ShiftTables;

// Whether the blocks of pair (p, j) stay, where half shifts do: j's row is not the null shift and exchanges j with p's representative.
pub fn stays(tables: &ShiftTables, half_shifts_stay: bool, p: PrimAtom, j: SuperAtom) -> bool
    requires sound { Sound (given tables.now) }
    requires in_range { (p.0 < tables.now.n_patom) × (j.0 < tables.now.n_satom) }
    ensures { result ≡ (half_shifts_stay && staysIn (shifts_of (given tables.now)) p.0 j.0) }
{
    if !half_shifts_stay {
        return false;
    }
    let i = tables.p2s_at(p);
    if i == j {
        return false;
    }
    let home = tables.s2pp_at(j);
    if home != p {
        return false;
    }
    let row = tables.nsym_at(j);
    let image = tables.perms_at(row, i);
    image == j
}
