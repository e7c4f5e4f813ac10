// The matcher that finds a match whenever there is one.

ghost use Rattle.std.specs.Prelude.{Ok, ◌≡◌, ◌≤◌, negsuc, length, replicate};
ghost use Rattle.distances.specs.Near.{near as nearOf};
ghost use Rattle.matching.specs.Slots.{Triples};
ghost use Rattle.matching.specs.FindPermutation.{finding_number, judged_finding, Outcome, Promise};
ghost use Rattle.matching.specs.Matching.{is_matched};

use crate::cells::{Matching, judge_matching};
use distances::Cell;
use tables::Refusal;

// What a call that is not refused answers: a match was found, or none exists.
#[derive(Clone, Copy)]
pub enum Finding {
    Found,
    NoMatch,
}

// The number of an answer: 0 found, 72 no match exists, and document 01's number of a refusal.
pub fn finding_number(a: Result<Finding, Refusal>) -> u8
    ensures { result ≡ finding_number a }
{
    match a {
        Ok(Finding::Found) => 0,
        Ok(Finding::NoMatch) => 72,
        Err(r) => u8::from(r),
    }
}

// Refusals 1 and 2, with a mark for each position.
fn judge_finding(
    len_slots: usize,
    len_marks: usize,
    len_pos: usize,
    len_rot: usize,
    num_pos: usize,
) -> Result<(), Refusal>
    ensures { result ≡ judged_finding len_slots len_marks len_pos len_rot num_pos }
{
    judge_matching(len_slots, len_pos, len_rot, num_pos)?;
    if len_marks == num_pos {
        return Ok(());
    }
    Err(Refusal::WrongLength)
}

fn is_matched(m: Matching) -> bool
    ensures { result ≡ is_matched m }
{
    match m {
        Matching::Matched => true,
        Matching::NotMatched => false,
        Matching::NoNumber(_) => false,
    }
}

// No match exists: every slot is left free.
fn none_found(rot_atom: &mut [i64]) -> Finding
    ensures { (result ≡ Finding.NoMatch) × (rot_atom.new ≡ replicate (length rot_atom.old) (negsuc 0)) }
{
    crate::slots::clear(rot_atom);
    Finding::NoMatch
}

// Greedy's bijection, or one by chains of exchanges from what greedy left, or a group that rules every one out.
fn find(rot_atom: &mut [i64], marks: &mut [u8], cell: Cell, pos: &[f64], rot_pos: &[f64]) -> Finding
    requires { (length rot_atom.old ≤ 1024)
        × (length marks.old ≡ length rot_atom.old)
        × Triples (length rot_atom.old) (length pos.now) (length rot_pos.now) }
    ensures { Outcome (nearOf cell pos.now rot_pos.now) (length rot_atom.old)
        (Ok result, rot_atom.new, marks.new) }
{
    let m = crate::slots::fill(rot_atom, cell, pos, rot_pos);
    if is_matched(m) {
        crate::rest::unmark(marks);
        return Finding::Found;
    }
    if crate::rest::place_rest(rot_atom, marks, cell, pos, rot_pos) {
        crate::rest::unmark(marks);
        return Finding::Found;
    }
    none_found(rot_atom)
}

// Finds a bijection of near pairs if there is one, greedy's where greedy succeeds; slot j of rot_atom gets the position near rot_pos j. Otherwise all slots are
// -1, and positions are marked with 1 that have fewer near slots between them than they are.
pub fn find_permutation(
    rot_atom: &mut [i64],
    marks: &mut [u8],
    cell: Cell,
    pos: &[f64],
    rot_pos: &[f64],
    num_pos: usize,
) -> Result<Finding, Refusal>
    ensures { Promise rot_atom.old marks.old cell pos.now rot_pos.now num_pos
        (result, rot_atom.new, marks.new) }
{
    judge_finding(
        rot_atom.len(),
        marks.len(),
        pos.len(),
        rot_pos.len(),
        num_pos,
    )?;
    Ok(find(rot_atom, marks, cell, pos, rot_pos))
}
