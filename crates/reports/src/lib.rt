// Reports: how far a set is from what it must obey. A report is about a family of numbers that are all to be zero, in the order of their places.
#![tactic(auto)]

pub mod seen;
pub mod sets;

ghost use Rattle.std.specs.Prelude.{◌≡◌};
ghost use Rattle.reports.specs.Report.{deviation_number, value_of};
ghost use Rattle.reports.specs.Loops.{concluded};

use seen::Seen;
use tables::Refusal;

// Still: all numbers are zero. Worst: the largest absolute value of one. NoNumber: one is NaN.
#[derive(Clone, Copy)]
pub enum Deviation {
    Still,
    Worst(f64),
    NoNumber,
}

// The deviation, and the number of its place in the order of the family; 0 where it is still.
#[derive(Clone, Copy)]
pub struct Report {
    pub deviation: Deviation,
    pub index: usize,
}

// A number for each case.
pub fn number(d: Deviation) -> u8
    ensures { result ≡ deviation_number d }
{
    match d {
        Deviation::Still => 0,
        Deviation::Worst(_) => 1,
        Deviation::NoNumber => 2,
    }
}

// The value of each case: 0.0, the worst absolute value, NaN.
pub fn value(d: Deviation) -> f64
    ensures { result ≡ value_of d }
{
    match d {
        Deviation::Still => 0.0,
        Deviation::Worst(x) => x,
        Deviation::NoNumber => 0.0 / 0.0,
    }
}

// The report from what was seen of the numbers.
pub fn conclude(c: Seen) -> Report
    ensures { result ≡ concluded c }
{
    if c.none {
        return Report {
            deviation: Deviation::NoNumber,
            index: c.first,
        };
    }
    if c.worst == 0.0 {
        return Report {
            deviation: Deviation::Still,
            index: 0,
        };
    }
    Report {
        deviation: Deviation::Worst(c.worst),
        index: c.at,
    }
}
