// What the Rust answered for nint, round and sqrt. The input is one page of records: their number, and for each the words x, nint x,
// x rounded, the root of x. Written are how many answers were compared and how many differ, any NaN equal to any NaN, and a checksum of the
// inputs and of all that was worked out from them.
ghost use Rattle.std.specs.Prelude.{◌+◌, ◌*◌, ◌-◌, ◌≤◌, length};

use capi_cells::{gf_nint, gf_round, gf_sqrt};
use common::float_word;
use replays::records::{differs, float, integer_word, mix, word};
use replays::steps::plus;
use std::io;
use std::io::{Read, Write};

// What was compared so far: records, those whose rounding or root is NaN, differences, checksum.
#[derive(Clone, Copy, Default)]
struct Tally {
    seen: u64,
    round_nan: u64,
    sqrt_nan: u64,
    nint: u64,
    round: u64,
    sqrt: u64,
    sum: u64,
}

// The record at `at`.
fn step(t: Tally, s: &[u8], at: usize) -> Tally
    requires { at + 32 ≤ length s.now }
{
    let b = word(s, at);
    let x = float(b);
    let round = gf_round(x);
    let sqrt = gf_sqrt(x);
    let n = integer_word(gf_nint(x));
    let r = float_word(round);
    let q = float_word(sqrt);
    Tally {
        seen: plus(t.seen, 1),
        round_nan: plus(t.round_nan, u64::from(round.is_nan())),
        sqrt_nan: plus(t.sqrt_nan, u64::from(sqrt.is_nan())),
        nint: plus(t.nint, differs(n, word(s, at + 8))),
        round: plus(t.round, differs(r, word(s, at + 16))),
        sqrt: plus(t.sqrt, differs(q, word(s, at + 24))),
        sum: mix(mix(mix(mix(t.sum, b), n), r), q),
    }
}

// How many records the page has: as many as it says, and none where it is too short for them.
fn count(s: &[u8]) -> usize
    ensures { 32 * result ≤ length s.now - 8 }
{
    if s.len() < 8 {
        return 0;
    }
    let room = (s.len() - 8) / 32;
    let said = word(s, 0);
    if said > room as u64 {
        return 0;
    }
    said as usize
}

fn replay(s: &[u8]) -> Tally {
    let mut t = Tally::default();
    for i in 0..count(s) {
        t = step(t, s, 8 + 32 * i);
    }
    t
}

// A line of the report.
fn line<W: Write>(
    out: &mut W,
    name: &[u8],
    seen: u64,
    nan: u64,
    differences: u64,
) -> io::Result<()> {
    out.write_all(name)?;
    writeln!(
        out,
        "{seen} compared, {nan} of them NaN, {differences} differ"
    )
}

fn report<W: Write>(out: &mut W, t: Tally) -> io::Result<()> {
    line(out, b"nint: ", t.seen, 0, t.nint)?;
    line(out, b"round: ", t.seen, t.round_nan, t.round)?;
    line(out, b"sqrt: ", t.seen, t.sqrt_nan, t.sqrt)?;
    replays::line(out, b"checksum ", t.sum)
}

pub fn run<W: Write, R: Read>(out: &mut W, input: &mut R) -> io::Result<()> {
    let mut page = replays::pages::empty_page();
    let n = replays::pages::read_page(input, &mut page)?;
    report(out, replay(&page[..n]))
}
