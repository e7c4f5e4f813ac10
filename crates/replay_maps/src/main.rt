// Replays answers for the calls that make numbers of a set from others: the distributors, the rotations of displaced force constants, compact
// sets read out to full ones, through their C names. Standard input has the pages of the distributor of second order, of those of third and
// fourth, of the rotations and of the sets read out, which oracle/ makes; oracle/README.md says what the words of a record are. The numbers of
// sets are made from the record's seed. For each are written how many calls were compared, how many differ in the answer or in a slice, how many
// there are of each answer, and a checksum of the inputs and of all that was worked out from them.
#![tactic(auto)]

mod distributed;
mod distributed_second;
mod full_sets;
mod rotated;

use replays::pages::replay;
use std::io;

fn main(rt: HostRuntime) -> io::Result<()> {
    let mut input = rt.reader();
    let mut out = io::writer(&rt);
    let mut set = [0.0f64; 32768];
    let mut other = [0.0f64; 10400];
    replay(
        &mut input,
        2,
        |t, r| distributed_second::step(t, r, &mut set),
    )?
    .report(&mut out, b"distributed, second order")?;
    replay(&mut input, 1, |t, r| distributed::step(t, r, &mut set))?.report(
        &mut out,
        b"distributed",
    )?;
    replay(
        &mut input,
        1,
        |t, r| rotated::step(t, r, &mut set, &mut other),
    )?
    .report(&mut out, b"rotated")?;
    replay(
        &mut input,
        4,
        |t, r| full_sets::step(t, r, &mut set, &mut other),
    )?
    .report(&mut out, b"full sets")
}
