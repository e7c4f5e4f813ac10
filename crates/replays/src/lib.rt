// What the replay programs count and write: a tally of the records that were compared, and the lines of the report.
#![tactic(auto)]

ghost use Rattle.std.specs.Prelude.{◌≡◌, OnOk, slice_index};
ghost use Rattle.std.specs.Io.KnownBytes.{Appends};
ghost use Rattle.replays.specs.Report.{line_text, first_line_text, report_text};
ghost use Rattle.replays.specs.Tally.{no_record, counted_at, tally, differences, mixed_numbers, compare};

use crate::records::{differs, mix, mix_words, word_of};
use crate::steps::{plus, some};
use std::io;
use std::io::Write;

pub mod cursor;
pub mod pages;
pub mod records;
pub mod sets;
pub mod shift_tables;
pub mod steps;
pub mod values;

// What was compared so far: records, those that differ, how often each answer's number, checksum.
#[derive(Clone, Copy)]
pub struct Tally {
    pub seen: u64,
    pub differ: u64,
    pub answers: [u64; 128],
    pub sum: u64,
}

impl Tally {
    // Nothing was compared.
    pub fn none() -> Tally
        ensures { result ≡ no_record }
    {
        Tally {
            seen: 0,
            differ: 0,
            answers: [0; 128],
            sum: 0,
        }
    }

    // One record more, with the number of its answer and of its differences; sum is the checksum after it.
    pub fn tallied(self, answer: u64, differences: u64, sum: u64) -> Tally
        ensures { result ≡ tally self answer differences sum }
    {
        Tally {
            seen: plus(self.seen, 1),
            differ: plus(self.differ, some(differences)),
            answers: counted(self.answers, answer),
            sum: sum,
        }
    }

    // The record r too, of whose words those from number 1 on were worked out: `got`, with the answer's number among them.
    pub fn compared(self, r: &[u8], answer: u64, got: &[u64]) -> Tally
        ensures { result ≡ compare self r.now answer got.now }
    {
        let d = different(r, got);
        let head = mix_numbers(got, mix(self.sum, word_of(r, 0)));
        let sum = mix_words(r, 1 + got.len(), r.len() / 8, head);
        self.tallied(answer, d, sum)
    }

    // The report, with the same lines for every call; `well` calls ended well.
    pub fn report_with<W: Write>(self, out: &mut W, title: &[u8], well: u64) -> io::Result<()>
        ensures { OnOk result (Appends (W.contents out.old) (W.contents out.new) (report_text title.now self well)) }
    {
        let a = self.answers;
        first_line(out, title, self.seen, self.differ)?;
        line(out, b"ended well: ", well)?;
        line(out, b"refused, 1: ", a[1])?;
        line(out, b"refused, 2: ", a[2])?;
        line(out, b"refused, 3: ", a[3])?;
        line(out, b"refused, 4: ", a[4])?;
        line(out, b"refused, 5: ", a[5])?;
        line(out, b"refused, 6: ", a[6])?;
        line(out, b"checksum ", self.sum)
    }

    // The report where 0 alone is the number of a call that ended well.
    pub fn report<W: Write>(self, out: &mut W, title: &[u8]) -> io::Result<()>
        ensures { OnOk result (Appends (W.contents out.old) (W.contents out.new) (report_text title.now self (slice_index self.answers 0))) }
    {
        let a = self.answers;
        self.report_with(out, title, a[0])
    }
}

// The counts with one more of number k; a number above 127 is counted in none.
pub fn counted(counts: [u64; 128], k: u64) -> [u64; 128]
    ensures { result ≡ counted_at counts k }
{
    if 127 < k {
        return counts;
    }
    let i = k as usize;
    let mut c = counts;
    let n = plus(c[i], 1);
    c[i] = n;
    c
}

// How many of `got` differ from the words of the record from number 1 on.
fn different(r: &[u8], got: &[u64]) -> u64
    ensures { result ≡ differences r.now got.now }
{
    let mut d = 0;
    for (i, x) in got.iter().enumerate() {
        d = plus(d, differs(*x, word_of(r, 1 + i)));
    }
    d
}

// The checksum h after the numbers of `got`.
fn mix_numbers(got: &[u64], h: u64) -> u64
    ensures { result ≡ mixed_numbers got.now h }
{
    got.iter().fold(h, |g, x| mix(g, *x))
}

// A line of the report.
pub fn line<W: Write>(out: &mut W, name: &[u8], n: u64) -> io::Result<()>
    ensures { OnOk result (Appends (W.contents out.old) (W.contents out.new) (line_text name.now n)) }
{
    out.write_all(name)?;
    writeln!(out, "{n}")
}

// The first line of a report.
pub fn first_line<W: Write>(out: &mut W, title: &[u8], seen: u64, differ: u64) -> io::Result<()>
    ensures { OnOk result (Appends (W.contents out.old) (W.contents out.new) (first_line_text title.now seen differ)) }
{
    out.write_all(title)?;
    writeln!(out, ": {seen} compared, {differ} differ")
}
