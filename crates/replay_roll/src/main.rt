// Replays calls on delivery rolls and of retire_all, through their C names. Standard input has the pages of the two one after another, which
// oracle/ makes; oracle/README.md says what the words of a record are. For each are written how many calls were compared, how many differ in the
// answer, in a byte of the lent slice or in a slot, how many there are of each answer, and a checksum of the inputs and of all that was worked
// out from them.
#![tactic(auto)]

mod retired;
mod rolls;

use replays::pages::replay;
use std::io;

fn main(rt: HostRuntime) -> io::Result<()> {
    let mut input = rt.reader();
    let mut out = io::writer(&rt);
    rolls::report(&mut out, replay(&mut input, 6, rolls::step)?)?;
    replay(&mut input, 3, retired::step)?.report(&mut out, b"sets retired everywhere")
}
