// Replays answers for symmetrizers and transposes of second to fourth order, through their C names. Standard input has the pages of the four one
// after another, which oracle/ makes; oracle/README.md says what the words of a record are.
// The numbers of sets and work slices are made from the record's seed. For each are written how many calls were compared, how many differ in
// the answer or in what a slice holds afterwards, how many there are of each answer, and a checksum of the inputs and of all that was worked
// out from them.
#![tactic(auto)]

mod fourth;
mod second;
mod third;
mod transposes;

use replays::Tally;
use replays::pages::replay;
use replays::sets::{outcome, prepare};
use replays::steps::part;
use std::io;

// The record r, whose set may be the one that the record before left, and what its call gave: `call` calls, and gives the answer's number.
fn step<F: Fn(&[u8], &mut [f64], &mut [u8]) -> u8>(
    t: Tally,
    r: &[u8],
    set: &mut [f64],
    work: &mut [u8],
    call: F,
) -> Tally
    requires { F.IsAlwaysCallable call }
{
    let set = part(r, 9, set);
    let work = part(r, 10, work);
    prepare(r, set, work);
    let a = call(r, set, work);
    let got = outcome(a, set, work);
    t.compared(r, got[0], &got)
}

fn main(rt: HostRuntime) -> io::Result<()> {
    let mut input = rt.reader();
    let mut out = io::writer(&rt);
    let mut set = [0.0f64; 83000];
    let mut work = [0u8; 2048];
    replay(
        &mut input,
        3,
        |t, r| step(t, r, &mut set, &mut work, second::call),
    )?
    .report(&mut out, b"second order")?;
    replay(
        &mut input,
        3,
        |t, r| step(t, r, &mut set, &mut work, third::call),
    )?
    .report(&mut out, b"third order")?;
    replay(
        &mut input,
        2,
        |t, r| step(t, r, &mut set, &mut work, fourth::call),
    )?
    .report(&mut out, b"fourth order")?;
    replay(
        &mut input,
        3,
        |t, r| step(t, r, &mut set, &mut work, transposes::call),
    )?
    .report(&mut out, b"true transposes")
}
