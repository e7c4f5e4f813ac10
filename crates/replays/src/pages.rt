// The pages of recorded words that the replay programs read, and the records on them.
ghost use Rattle.std.specs.Prelude.{◌≡◌, ◌<◌, ◌≤◌, replicate, length, take, IfOk};
ghost use Rattle.std.specs.Io.KnownBytes.{Consumes, IsAtEnd};
ghost use Rattle.std.specs.Iterator.{at_most};

use crate::Tally;
use crate::records::{count, end};
use crate::steps::first;
use std::io;
use std::io::Read;

// Room for a page.
pub fn empty_page() -> [u8; 65536]
    ensures { result ≡ replicate 65536 0 }
{
    [0; 65536]
}

// Reads the next page, and says how many bytes it has: fewer than there is room for only where the input ends.
pub fn read_page<R: Read>(input: &mut R, page: &mut [u8]) -> io::Result<usize>
    ensures size { IfOk result (λ n. n ≤ length page.old) }
    ensures bytes { IfOk result (λ n. Consumes (R.remaining input.old) (R.remaining input.new) (take n page.new)) }
    ensures end { IfOk result (λ n. n < length page.old → IsAtEnd (R.remaining input.new)) }
{
    let mut done = 0;
    // Not a count: each read gives as many bytes as it likes.
    while done < page.len() {
        let n = input.read(&mut page[done..])?;
        if n == 0 {
            break;
        }
        done += n;
    }
    Ok(done)
}

// The records of a page that are still to come, and how many they are to be.
#[derive(Drop)]
pub struct Records<'a> {
    rest: &'a [u8],
    left: usize,
}

impl<'a> Records<'a> {
    // Those of a whole page.
    pub fn of(page: &'a [u8]) -> Records<'a> {
        Records {
            rest: &page[first(page)..],
            left: count(page),
        }
    }
}

impl<'a> Iterator for Records<'a> {
    type Item = &'a [u8];

    ghost remaining = { λ s. at_most s.left };

    fn next(&mut self) -> Option<&'a [u8]> {
        if self.left == 0 {
            return None;
        }
        let (record, rest) = self.rest.split_at(end(self.rest, 0));
        self.rest = rest;
        self.left -= 1;
        Some(record)
    }
}

// Reads the next n pages: the tally after their records, where `step` gives the one after a record more.
// It is not inlined: a program calls it with one step after another, and its `main` would have room for a page for each.
#[inline(never)]
pub fn replay<R: Read, F: FnMut(Tally, &[u8]) -> Tally>(
    input: &mut R,
    n: usize,
    mut step: F,
) -> io::Result<Tally>
    requires { F.IsAlwaysCallable step }
{
    let mut t = Tally::none();
    for _ in 0..n {
        let mut page = empty_page();
        let size = read_page(input, &mut page)?;
        for r in Records::of(&page[..size]) {
            let more = step(t, r);
            t = more;
        }
    }
    Ok(t)
}
