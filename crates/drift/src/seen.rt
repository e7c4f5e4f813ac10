// The nine sums of a line of blocks, looked at one after another in the order of their places.
ghost use Rattle.std.specs.Prelude.{◌≡◌, ◌<◌};
ghost use Rattle.lists.specs.Tests.{every};
ghost use Rattle.lines.specs.Sums3x3.{sum_in};
ghost use Rattle.reports.specs.Floats.{at_most};
ghost use Rattle.drift.specs.Loops as loops;

use places::{column_of, index_of, row_of};
use reports::seen::{Seen, look, within};

// Whether the nine sums of a line are all within the worst: then there is nothing new in it.
pub fn calm(s: [[f64; 3]; 3], worst: f64) -> bool
    ensures { result ≡ every 9 (λ p. at_most worst (sum_in s p)) }
{
    for p in 0..9usize {
        let x = s[row_of(p, 3)][column_of(p, 3)];
        if !within(x, worst) {
            return false;
        }
    }
    true
}

// Looks at the nine sums of line q.
pub fn look_line(q: usize, s: [[f64; 3]; 3], c: Seen) -> Seen
    requires { q < 1048576 }
    ensures { result ≡ loops.look_line q s c }
{
    let mut seen = c;
    for p in 0..9usize {
        let x = s[row_of(p, 3)][column_of(p, 3)];
        let more = look(index_of(q, 9, p), x, seen);
        seen = more;
    }
    seen
}
