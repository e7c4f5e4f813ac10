// Refusals and answers with their numbers, limits, index tables, the two kinds of atom number, the guard of full sets. specs/ has the rules of
// shift tables too, which crate shifts tests.
#![tactic(auto)]

ghost use Rattle.std.specs.Prelude.{◌≡◌};
ghost use Rattle.tables.specs.Answers.{refusal_number, number_of};
ghost use Rattle.tables.specs.Conditions.{Tells};

pub mod atoms;
pub mod index;
pub mod limits;
pub mod sets;
pub mod shift_tables;

// Document 01's six refusals and those that document 02 adds, by their numbers.
#[derive(Clone, Copy)]
pub enum Refusal {
    // 1: a count is above its limit
    CountAboveLimit,
    // 2: a slice is not as long as stated
    WrongLength,
    // 3: an index, or an entry of an index table, is negative or not below its count
    IndexOutOfRange,
    // 4: the set does not have the source or target slab, or they are one slab
    BadSlab,
    // 5: the representative of a listed atom is not listed, or does not represent itself
    BadRepresentative,
    // 6: the shift tables break a rule
    BadShiftTables,
    // 7: the bytes are no roll, the slice has fewer than the count, or the record to add breaks a rule
    NotARoll,
    // 8: the result would be too long for a roll or for the slice
    NoRoom,
    // 9: a record delivers a set again, names one that no record before it delivers, or replaces one for the
    // second time
    NotLawful,
    // 10: an entry of the old block or of the incoming one is off the grid
    OffGrid,
    // 11: a set that was never delivered is to be retired
    UnknownSet,
}

// The number of a refusal.
impl From<Refusal> for u8 {
    ghost from_gives = { λ r n. n ≡ refusal_number r };

    fn from(r: Refusal) -> Self {
        match r {
            Refusal::CountAboveLimit => 1,
            Refusal::WrongLength => 2,
            Refusal::IndexOutOfRange => 3,
            Refusal::BadSlab => 4,
            Refusal::BadRepresentative => 5,
            Refusal::BadShiftTables => 6,
            Refusal::NotARoll => 7,
            Refusal::NoRoom => 8,
            Refusal::NotLawful => 9,
            Refusal::OffGrid => 10,
            Refusal::UnknownSet => 11,
        }
    }
}

// The number of an answer: 0 for done, the refusal's own otherwise.
pub fn number(a: Result<(), Refusal>) -> u8
    ensures { result ≡ number_of a }
{
    match a {
        Ok(()) => 0,
        Err(r) => u8::from(r),
    }
}

// Whether a call is refused for a count above its limit: nothing else of it is judged then.
pub fn is_above_limit(a: Result<(), Refusal>) -> bool
    ensures { Tells result (number_of a ≡ 1) }
{
    matches!(a, Err(Refusal::CountAboveLimit))
}
