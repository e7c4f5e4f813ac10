// The reader of a delivery roll (document 02, A.7): a roll and a position in it, which goes on record by record. Older rolls, whose trailer
// lists the starts in another order, are read by the calls that end in `_former` (A.13).
ghost use Rattle.std.specs.Prelude.{◌≡◌};
ghost use Rattle.roll.specs.ReadCalls.{item_number, read_at, label_at, past_at, read_at_former, label_at_former, past_at_former};

use tables::Refusal;

// What the reader says at a position.
#[derive(Clone, Copy)]
pub enum Item {
    // the record that starts there; `label` hands back its label, `next` goes on to where it ends
    Record { kind: u8, set: u32, earlier: u32 },
    // the trailer begins there
    End,
}

// The number of what the reader says: 0 for a record, 68 for the end, the refusal's own otherwise.
pub fn item_number(a: Result<Item, Refusal>) -> u8
    ensures { result ≡ item_number a }
{
    match a {
        Ok(Item::Record { .. }) => 0,
        Ok(Item::End) => 68,
        Err(r) => u8::from(r),
    }
}

// A roll held with a position in it: the roll's bytes and an offset. `crate::roll_bytes` gives the bytes from a lent slice and a count.
#[derive(Clone, Copy)]
pub struct Roll<'a> {
    pub bytes: &'a [u8],
    pub at: usize,
}

// The bytes of a roll, held at byte 0.
pub fn hold<'a>(bytes: &'a [u8]) -> Roll<'a>
    ensures { (result.bytes ≡ bytes.entry) × (result.at ≡ 0) }
{
    Roll { bytes, at: 0 }
}

// What stands at the position: a record or the end; 7 where the bytes are not a roll, or neither a record nor the trailer starts there.
pub fn read<'a>(r: Roll<'a>) -> Result<Item, Refusal>
    ensures { result ≡ read_at r.entry.bytes.now r.entry.at }
{
    crate::reading::read_at(r.bytes, r.at)
}

// The label of the record there, as part of the roll: the same bytes, not a copy.
pub fn label<'a>(r: Roll<'a>) -> &'a [u8]
    ensures { result.now ≡ label_at r.entry.bytes.now r.entry.at }
{
    crate::reading::label_at(r.bytes, r.at)
}

// The roll held past that record; where no record starts, at the same position.
pub fn next<'a>(r: Roll<'a>) -> Roll<'a>
    ensures { (result.bytes ≡ r.entry.bytes) × (result.at ≡ past_at r.entry.bytes.now r.entry.at) }
{
    Roll {
        bytes: r.bytes,
        at: crate::reading::past_at(r.bytes, r.at),
    }
}
