// Replays answers for row sums of second order and for sets of third order without drift, through their C names. Standard input has the pages of
// the two one after another, which oracle/ makes; oracle/README.md says what the words of a record are. For each are written how many calls were
// compared, how many differ in the answer or in a slice, how many there are of each answer, and a checksum of the inputs and of all that was worked
// out from them.
#![tactic(auto)]

mod sums;
mod without_drift;

use replays::pages::replay;
use std::io;

fn main(rt: HostRuntime) -> io::Result<()> {
    let mut input = rt.reader();
    let mut out = io::writer(&rt);
    sums::report(&mut out, replay(&mut input, 3, sums::step)?)?;
    replay(&mut input, 3, without_drift::step)?.report(&mut out, b"third order without drift")
}
