// Replays audits, comparisons of two sets and reports, through their C names. Standard input has the pages of the audits and then those of the
// reports, which oracle/ makes; oracle/README.md says what the words of a record are. The numbers of a set are made from the record's seed. For
// each are written how many calls were compared, how many differ in the answer, in a place or in a number, how many there are of each answer, and a
// checksum of the inputs and of all that was worked out from them.
#![tactic(auto)]

mod audit_calls;
mod crystal_calls;
mod deviation_calls;
mod reported;

use replays::pages::replay;
use std::io;

fn main(rt: HostRuntime) -> io::Result<()> {
    let mut input = rt.reader();
    let mut out = io::writer(&rt);
    reported::report_audits(&mut out, replay(&mut input, 3, reported::step)?)?;
    reported::report(&mut out, replay(&mut input, 10, reported::step)?)
}
