// The rotations of displaced force constants: what rotate_delta_fc2s and rotate_delta_fc3s share, and the guard of both.
#![tactic(auto)]

pub mod fc2s;
pub mod fc3s;
pub mod rows;

ghost use Rattle.std.specs.Prelude.{◌≡◌, ◌*◌, ◌^◌, ◌<◌, ◌≤◌, length};
ghost use Rattle.tables.specs.Conditions.{any_wrong};
ghost use Rattle.deltas.specs.RotateDelta.{Deltas, deltas_of, delta_counts_above, delta_lengths, judged_deltas};
ghost use Rattle.deltas.specs.Rows.{column as columnOf};

use tables::Refusal;

// Column n of inv_u, which has three rows of total numbers.
pub fn column(inv_u: &[f64], n: usize, total: usize) -> [f64; 3]
    requires { (n < total) × (length inv_u.now ≡ 3 * total) }
    ensures { result ≡ columnOf inv_u.now total n }
{
    let y = places::index_of(1, total, n);
    let z = places::index_of(2, total, n);
    [inv_u[n], inv_u[y], inv_u[z]]
}

// Refusal 1.
pub fn counts_above(limit: usize, num_atom: usize, num_site_sym: usize, num_disp: usize) -> bool
    ensures { result ≡ delta_counts_above limit num_atom num_site_sym num_disp }
{
    if num_atom > limit {
        return true;
    }
    if num_site_sym > tables::limits::LIMIT_LIST {
        return true;
    }
    if num_disp > tables::limits::LIMIT_LIST {
        return true;
    }
    false
}

// Refusal 2: each displacement has b blocks of w numbers.
pub fn lengths_wrong(
    res: &[f64],
    deltas: &[f64],
    inv_u: &[f64],
    site_sym_cart: &[f64],
    rot_map_syms: &[i64],
    rot_delta: &[f64],
    b: usize,
    w: usize,
    num_atom: usize,
    num_site_sym: usize,
    num_disp: usize,
) -> bool
    requires { (b ≤ 16777216) × (w ≤ 27) × (num_atom ≤ 256) × (num_site_sym ≤ 1024) × (num_disp ≤ 1024) }
    ensures { let D : Deltas = deltas_of deltas.now inv_u.now site_sym_cart.now rot_map_syms.now num_atom num_site_sym num_disp in result ≡ any_wrong (delta_lengths D (b * (3 * w)) b w (length res.now) (length rot_delta.now)) }
{
    let total = num_disp * num_site_sym;
    if res.len() != b * (3 * w) {
        return true;
    }
    if deltas.len() != num_disp * b * w {
        return true;
    }
    if inv_u.len() != 3 * total {
        return true;
    }
    if site_sym_cart.len() != num_site_sym * 9 {
        return true;
    }
    if rot_map_syms.len() != num_site_sym * num_atom {
        return true;
    }
    if rot_delta.len() != total * w {
        return true;
    }
    false
}

// Refusals 1, 2 and 3: a block of the deltas has m atoms and w = 3^m numbers.
pub fn judge_deltas(
    limit: usize,
    m: usize,
    w: usize,
    res: &[f64],
    deltas: &[f64],
    inv_u: &[f64],
    site_sym_cart: &[f64],
    rot_map_syms: &[i64],
    rot_delta: &[f64],
    num_atom: usize,
    num_site_sym: usize,
    num_disp: usize,
) -> Result<(), Refusal>
    requires { (limit ≤ 256) × (m ≤ 3) × (w ≡ 3 ^ m) }
    ensures { let D : Deltas = deltas_of deltas.now inv_u.now site_sym_cart.now rot_map_syms.now num_atom num_site_sym num_disp in result ≡ judged_deltas limit m D (length res.now) (length rot_delta.now) }
{
    if counts_above(limit, num_atom, num_site_sym, num_disp) {
        return Err(Refusal::CountAboveLimit);
    }
    let b = tables::sets::set_blocks(1, num_atom, m);
    if lengths_wrong(
        res,
        deltas,
        inv_u,
        site_sym_cart,
        rot_map_syms,
        rot_delta,
        b,
        w,
        num_atom,
        num_site_sym,
        num_disp,
    ) {
        return Err(Refusal::WrongLength);
    }
    if !tables::index::all_below(rot_map_syms, num_atom) {
        return Err(Refusal::IndexOutOfRange);
    }
    Ok(())
}
