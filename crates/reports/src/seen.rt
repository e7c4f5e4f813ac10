// What is known of the numbers that were looked at, one after another in the order of their places.
ghost use Rattle.std.specs.Prelude.{◌≡◌, ◌+◌, ◌<◌, length};
ghost use Rattle.reports.specs.Report.{absolute};
ghost use Rattle.reports.specs.Floats.{at_most};
ghost use Rattle.reports.specs.Loops as loops;

// Whether one is NaN, and the first of those; the worst absolute value, and where it stands first.
#[derive(Clone, Copy)]
pub struct Seen {
    pub none: bool,
    pub first: usize,
    pub worst: f64,
    pub at: usize,
}

// No number was looked at.
pub fn start() -> Seen
    ensures { result ≡ loops.nothing_seen }
{
    Seen {
        none: false,
        first: 0,
        worst: 0.0,
        at: 0,
    }
}

// The absolute value.
fn magnitude(x: f64) -> f64
    ensures { result ≡ absolute x }
{
    if x < 0.0 {
        return -x;
    }
    if x == 0.0 {
        return 0.0;
    }
    x
}

// Looks at number r, which is x.
pub fn look(r: usize, x: f64, c: Seen) -> Seen
    ensures { result ≡ loops.look r x c }
{
    if x != x {
        if c.none {
            return c;
        }
        return Seen {
            none: true,
            first: r,
            worst: c.worst,
            at: c.at,
        };
    }
    let m = magnitude(x);
    if c.worst < m {
        return Seen {
            none: c.none,
            first: c.first,
            worst: m,
            at: r,
        };
    }
    c
}

// Whether x is a number and not above the worst in size, whatever its sign: told without its absolute value, so that no branch hangs on signs.
pub fn within(x: f64, worst: f64) -> bool
    ensures { result ≡ at_most worst x }
{
    if worst < x {
        return false;
    }
    if x < -worst {
        return false;
    }
    x == x
}

// Looks at the numbers of a slice; the first of them is number `first` of the family.
pub fn look_numbers(x: &[f64], first: usize, c: Seen) -> Seen
    requires { first + length x.now < 4611686018427387904 }
    ensures { result ≡ loops.look_numbers first x.now c }
{
    let mut seen = c;
    for k in 0..x.len() {
        seen = look(first + k, x[k], seen);
    }
    seen
}

// Looks at the numbers of one slice minus those of another of its length.
pub fn look_differences(x: &[f64], y: &[f64], first: usize, c: Seen) -> Seen
    requires { (length y.now ≡ length x.now) × (first + length x.now < 4611686018427387904) }
    ensures { result ≡ loops.look_differences first x.now y.now c }
{
    let mut seen = c;
    for k in 0..x.len() {
        seen = look(first + k, x[k] - y[k], seen);
    }
    seen
}
