// distribute_fc2: the blocks of the listed atoms, each added from the rotated blocks of the atom that represents it.
ghost use Rattle.std.specs.Prelude.{◌≡◌, List, ℕ, ◌+◌, ◌*◌, ◌<◌, ◌≤◌, length, Float};
ghost use Rattle.tables.specs.Conditions.{any_wrong, Readable, IndexTable};
ghost use Rattle.rotations.specs.Rotation.{coefficients, rotated};
ghost use Rattle.distribute.specs.Fc2.{Distribution, distribution, add_block, add_row, distribute_atom, distributed_fc2, listed_atom as listedIn, represented, bad_representative, counts_above_fc2, lengths_fc2, entries_out, judged_distribute_fc2, distribute_fc2};
ghost use Rattle.distribute.specs.Fc2Laws.{Rows, Ready, Placed};

use lines::nines::added;
use tables::Refusal;

// Adds the rotated source block to the target block: c has the rotation's coefficients. The source is read first.
fn add_block(fc2: &mut [f64], c: &[f64; 81], target: usize, source: usize)
    requires { (target * 9 + 9 ≤ length fc2.old) × (source * 9 + 9 ≤ length fc2.old) }
    ensures { (m : List Float) → c.now ≡ coefficients m 2 9 → fc2.new ≡ add_block (rotated m 2) target source fc2.old }
{
    let a = rotations::rotated9(c, blocks::read9(fc2, source));
    let old = blocks::read9(fc2, target);
    blocks::write9(fc2, target, added(old, a));
}

// Adds to each block of a row the block of the done row that rotation s leads to, rotated. The coefficients are worked out once.
fn add_row(
    fc2: &mut [f64],
    r_carts: &[f64],
    permutations: &[i64],
    num_pos: usize,
    s: usize,
    todo_first: usize,
    done_first: usize,
)
    requires { Rows (length fc2.old) (length r_carts.now) permutations.now num_pos s todo_first done_first }
    ensures { fc2.new ≡ add_row r_carts.now permutations.now num_pos s todo_first done_first fc2.old }
{
    let r = blocks::read9(r_carts, s);
    let c = rotations::coefficients2(blocks::transposed9(r));
    for other in 0..num_pos {
        let image = tables::index::entry(permutations, s * num_pos + other);
        let target = places::index_of(todo_first, num_pos, other);
        let source = places::index_of(done_first, num_pos, image);
        add_block(fc2, &c, target, source);
    }
}

// For each listed atom the last position that holds it.
fn place_atoms(atom_list_reverse: &mut [i64], atom_list: &[i64])
    requires index_table { IndexTable (length atom_list.now) (length atom_list_reverse.old) atom_list.now }
    requires atom_list_len_bound { length atom_list.now ≤ 1024 }
    ensures { Placed atom_list.now (length atom_list.now) atom_list_reverse.new }
{
    for i in 0..atom_list.len() {
        let atom = tables::index::entry(atom_list, i);
        atom_list_reverse[atom] = i as i64;
    }
}

// The row of the atom at position i of the list.
fn distribute_atom(
    fc2: &mut [f64],
    atom_list: &[i64],
    fc_indices_of_atom_list: &[i64],
    r_carts: &[f64],
    permutations: &[i64],
    map_atoms: &[i64],
    map_syms: &[i64],
    atom_list_reverse: &[i64],
    num_pos: usize,
    i: usize,
)
    requires in_range { (i < length atom_list.now) × (length atom_list_reverse.now ≡ num_pos) }
    requires placed { Placed atom_list.now (length atom_list.now) atom_list_reverse.now }
    requires ready { let D : Distribution = distribution atom_list.now fc_indices_of_atom_list.now r_carts.now permutations.now map_atoms.now map_syms.now num_pos in Ready D (length fc2.old) }
    ensures { let D : Distribution = distribution atom_list.now fc_indices_of_atom_list.now r_carts.now permutations.now map_atoms.now map_syms.now num_pos in fc2.new ≡ distribute_atom D i fc2.old }
{
    let atom_todo = tables::index::entry(atom_list, i);
    let atom_done = tables::index::entry(map_atoms, atom_todo);
    if atom_todo == atom_done {
        return;
    }
    let s = tables::index::entry(map_syms, atom_todo);
    let todo_first = tables::index::entry(fc_indices_of_atom_list, i);
    let last = tables::index::entry(atom_list_reverse, atom_done);
    let done_first = tables::index::entry(fc_indices_of_atom_list, last);
    add_row(
        fc2,
        r_carts,
        permutations,
        num_pos,
        s,
        todo_first,
        done_first,
    );
}

// The rows of all listed atoms, in the list's order.
fn distribute_atoms(
    fc2: &mut [f64],
    atom_list: &[i64],
    fc_indices_of_atom_list: &[i64],
    r_carts: &[f64],
    permutations: &[i64],
    map_atoms: &[i64],
    map_syms: &[i64],
    atom_list_reverse: &[i64],
    num_pos: usize,
)
    requires in_range { length atom_list_reverse.now ≡ num_pos }
    requires placed { Placed atom_list.now (length atom_list.now) atom_list_reverse.now }
    requires ready { let D : Distribution = distribution atom_list.now fc_indices_of_atom_list.now r_carts.now permutations.now map_atoms.now map_syms.now num_pos in Ready D (length fc2.old) }
    ensures { let D : Distribution = distribution atom_list.now fc_indices_of_atom_list.now r_carts.now permutations.now map_atoms.now map_syms.now num_pos in fc2.new ≡ distributed_fc2 D fc2.old }
{
    for i in 0..atom_list.len() {
        distribute_atom(
            fc2,
            atom_list,
            fc_indices_of_atom_list,
            r_carts,
            permutations,
            map_atoms,
            map_syms,
            atom_list_reverse,
            num_pos,
            i,
        );
    }
}

// Whether the list holds the atom.
fn listed(atom_list: &[i64], atom: usize) -> bool
    requires { (i : ℕ) → i < length atom_list.now → Readable atom_list.now i }
    ensures { result ≡ listedIn atom_list.now atom }
{
    for i in 0..atom_list.len() {
        if tables::index::entry(atom_list, i) == atom {
            return true;
        }
    }
    false
}

// Whether the representative of the atom at position i represents itself and is listed.
fn is_represented(atom_list: &[i64], map_atoms: &[i64], i: usize) -> bool
    requires index_table { IndexTable (length atom_list.now) (length map_atoms.now) atom_list.now }
    requires index_table_2 { IndexTable (length map_atoms.now) (length map_atoms.now) map_atoms.now }
    requires i_in_bounds { i < length atom_list.now }
    ensures { result ≡ represented atom_list.now map_atoms.now i }
{
    let atom_done = tables::index::entry(map_atoms, tables::index::entry(atom_list, i));
    if tables::index::entry(map_atoms, atom_done) == atom_done {
        return listed(atom_list, atom_done);
    }
    false
}

// Refusal 5.
fn bad_representative(atom_list: &[i64], map_atoms: &[i64]) -> bool
    requires index_table { IndexTable (length atom_list.now) (length map_atoms.now) atom_list.now }
    requires index_table_2 { IndexTable (length map_atoms.now) (length map_atoms.now) map_atoms.now }
    ensures { result ≡ bad_representative atom_list.now map_atoms.now }
{
    for i in 0..atom_list.len() {
        if !is_represented(atom_list, map_atoms, i) {
            return true;
        }
    }
    false
}

// Refusal 1.
fn counts_above(num_pos: usize, num_first: usize, num_rot: usize, list_length: usize) -> bool
    ensures { result ≡ counts_above_fc2 num_pos num_first num_rot list_length }
{
    if num_pos > tables::limits::LIMIT2 {
        return true;
    }
    if num_first > tables::limits::LIMIT2 {
        return true;
    }
    if num_rot > tables::limits::LIMIT_LIST {
        return true;
    }
    list_length > tables::limits::LIMIT_LIST
}

// Refusal 2.
fn lengths_wrong(
    fc2: &[f64],
    atom_list: &[i64],
    fc_indices_of_atom_list: &[i64],
    r_carts: &[f64],
    permutations: &[i64],
    map_atoms: &[i64],
    map_syms: &[i64],
    atom_list_reverse: &[i64],
    num_pos: usize,
    num_first: usize,
    num_rot: usize,
) -> bool
    requires { (num_pos ≤ 1024) × (num_first ≤ 1024) × (num_rot ≤ 1024) }
    ensures { let D : Distribution = distribution atom_list.now fc_indices_of_atom_list.now r_carts.now permutations.now map_atoms.now map_syms.now num_pos in result ≡ any_wrong (lengths_fc2 D num_first num_rot (length fc2.now) (length atom_list_reverse.now)) }
{
    if fc2.len() != num_first * num_pos * 9 {
        return true;
    }
    if fc_indices_of_atom_list.len() != atom_list.len() {
        return true;
    }
    if r_carts.len() != num_rot * 9 {
        return true;
    }
    if permutations.len() != num_rot * num_pos {
        return true;
    }
    if map_atoms.len() != num_pos {
        return true;
    }
    if map_syms.len() != num_pos {
        return true;
    }
    atom_list_reverse.len() != num_pos
}

// Refusal 3.
fn entries_out(
    atom_list: &[i64],
    fc_indices_of_atom_list: &[i64],
    permutations: &[i64],
    map_atoms: &[i64],
    map_syms: &[i64],
    num_pos: usize,
    num_first: usize,
    num_rot: usize,
) -> bool
    ensures { result
        ≡ entries_out atom_list.now fc_indices_of_atom_list.now permutations.now map_atoms.now
        map_syms.now num_pos num_first num_rot }
{
    if !tables::index::all_below(atom_list, num_pos) {
        return true;
    }
    if !tables::index::all_below(fc_indices_of_atom_list, num_first) {
        return true;
    }
    if !tables::index::all_below(permutations, num_pos) {
        return true;
    }
    if !tables::index::all_below(map_atoms, num_pos) {
        return true;
    }
    !tables::index::all_below(map_syms, num_rot)
}

// The first refusal that applies, or done.
fn judge_distribute_fc2(
    fc2: &[f64],
    atom_list: &[i64],
    fc_indices_of_atom_list: &[i64],
    r_carts: &[f64],
    permutations: &[i64],
    map_atoms: &[i64],
    map_syms: &[i64],
    atom_list_reverse: &[i64],
    num_pos: usize,
    num_first: usize,
    num_rot: usize,
) -> Result<(), Refusal>
    ensures { let D : Distribution = distribution atom_list.now fc_indices_of_atom_list.now r_carts.now permutations.now map_atoms.now map_syms.now num_pos in result ≡ judged_distribute_fc2 D num_first num_rot (length fc2.now) (length atom_list_reverse.now) }
{
    if counts_above(num_pos, num_first, num_rot, atom_list.len()) {
        return Err(Refusal::CountAboveLimit);
    }
    if lengths_wrong(
        fc2,
        atom_list,
        fc_indices_of_atom_list,
        r_carts,
        permutations,
        map_atoms,
        map_syms,
        atom_list_reverse,
        num_pos,
        num_first,
        num_rot,
    ) {
        return Err(Refusal::WrongLength);
    }
    if entries_out(
        atom_list,
        fc_indices_of_atom_list,
        permutations,
        map_atoms,
        map_syms,
        num_pos,
        num_first,
        num_rot,
    ) {
        return Err(Refusal::IndexOutOfRange);
    }
    if bad_representative(atom_list, map_atoms) {
        return Err(Refusal::BadRepresentative);
    }
    Ok(())
}

// Fills the rows of the listed atoms from those of their representatives: to each block the rotated block is added. fc2 has num_first rows
// of num_pos blocks; position i of the list is atom atom_list[i] with row fc_indices_of_atom_list[i]. atom_list_reverse is a work slice.
pub fn distribute_fc2(
    fc2: &mut [f64],
    atom_list: &[i64],
    fc_indices_of_atom_list: &[i64],
    r_carts: &[f64],
    permutations: &[i64],
    map_atoms: &[i64],
    map_syms: &[i64],
    atom_list_reverse: &mut [i64],
    num_pos: usize,
    num_first: usize,
    num_rot: usize,
) -> Result<(), Refusal>
    ensures { let D = distribution atom_list.now fc_indices_of_atom_list.now r_carts.now
        permutations.now map_atoms.now map_syms.now num_pos in
        (result, fc2.new, atom_list_reverse.new) ≡ distribute_fc2 D num_first num_rot fc2.old atom_list_reverse.old }
{
    judge_distribute_fc2(
        fc2,
        atom_list,
        fc_indices_of_atom_list,
        r_carts,
        permutations,
        map_atoms,
        map_syms,
        atom_list_reverse,
        num_pos,
        num_first,
        num_rot,
    )?;
    place_atoms(atom_list_reverse, atom_list);
    distribute_atoms(
        fc2,
        atom_list,
        fc_indices_of_atom_list,
        r_carts,
        permutations,
        map_atoms,
        map_syms,
        atom_list_reverse,
        num_pos,
    );
    lists::clear(atom_list_reverse, 0);
    Ok(())
}
