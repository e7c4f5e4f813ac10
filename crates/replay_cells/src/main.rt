// Replays answers for rounding, shift tables and the matching of atoms, through their C names. Standard input has the pages of the four one
// after another, which oracle/ makes; oracle/README.md says what the words of a record are. For each are written how many calls were compared,
// how many differ in the answer or in a slot, how many there are of each answer, and a checksum of the inputs and of all that was worked out
// from them.
#![tactic(auto)]

mod cells;
mod finding;
mod rounding;
mod shift_tables;

use replays::pages::replay;
use std::io;

fn main(rt: HostRuntime) -> io::Result<()> {
    let mut input = rt.reader();
    let mut out = io::writer(&rt);
    rounding::run(&mut out, &mut input)?;
    replay(&mut input, 3, shift_tables::step)?.report(&mut out, b"shift tables")?;
    cells::report(&mut out, replay(&mut input, 4, cells::step)?)?;
    finding::report(&mut out, replay(&mut input, 4, finding::step)?)
}
