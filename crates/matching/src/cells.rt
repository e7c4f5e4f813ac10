// The matching of atoms.

ghost use Rattle.std.specs.Prelude.{◌≡◌};
ghost use Rattle.matching.specs.Matching.{matching_number, judged_matching, compute_permutation};

use distances::Cell;
use tables::Refusal;
use tables::limits::LIMIT2;

// A position and a slot.
#[derive(Clone, Copy)]
pub struct Pair {
    pub position: usize,
    pub slot: usize,
}

// What a call that is not refused answers: document 01's true and false. A false is NoNumber where the search met a distance that is no number; the pair is the
// first such position and slot.
#[derive(Clone, Copy)]
pub enum Matching {
    Matched,
    NotMatched,
    NoNumber(Pair),
}

// The number of an answer: 0 for true, 64 for a plain false, 69 for a false with a pair that is no number, and document 01's number of a refusal.
pub fn matching_number(a: Result<Matching, Refusal>) -> u8
    ensures { result ≡ matching_number a }
{
    match a {
        Ok(Matching::Matched) => 0,
        Ok(Matching::NotMatched) => 64,
        Ok(Matching::NoNumber(_)) => 69,
        Err(r) => u8::from(r),
    }
}

// Refusals 1 and 2.
pub fn judge_matching(
    len_slots: usize,
    len_pos: usize,
    len_rot: usize,
    num_pos: usize,
) -> Result<(), Refusal>
    ensures { result ≡ judged_matching len_slots len_pos len_rot num_pos }
{
    if num_pos > LIMIT2 {
        return Err(Refusal::CountAboveLimit);
    }
    if len_slots != num_pos {
        return Err(Refusal::WrongLength);
    }
    if len_pos != 3 * num_pos {
        return Err(Refusal::WrongLength);
    }
    if len_rot != 3 * num_pos {
        return Err(Refusal::WrongLength);
    }
    Ok(())
}

// Which position each rotated position comes from: slot j of rot_atom gets the number of the position that is near rot_pos j, or -1. True is answered exactly
// if no slot is left over; a false names the first pair tried whose distance is no number.
pub fn compute_permutation(
    rot_atom: &mut [i64],
    cell: Cell,
    pos: &[f64],
    rot_pos: &[f64],
    num_pos: usize,
) -> Result<Matching, Refusal>
    ensures { (result, rot_atom.new) ≡ compute_permutation rot_atom.old cell pos.now rot_pos.now num_pos }
{
    judge_matching(rot_atom.len(), pos.len(), rot_pos.len(), num_pos)?;
    Ok(crate::slots::fill(rot_atom, cell, pos, rot_pos))
}
