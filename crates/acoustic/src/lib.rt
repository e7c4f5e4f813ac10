// Sets of third and fourth order without drift and alike: the mean over each leg's atom is taken off, then the set is symmetrized, level by level.
#![tactic(auto)]

pub mod fourth;
pub mod fourth_compact;
pub mod fourth_full;
pub mod third;
pub mod third_compact;
pub mod third_full;

ghost use Rattle.std.specs.Prelude.{◌≡◌, length};
ghost use Rattle.acoustic.specs.Laws.{scaled, less};

// Multiplies every number of s by x.
pub fn scale_all(s: &mut [f64], x: f64)
    ensures { s.new ≡ scaled s.old x }
{
    for k in 0..s.len() {
        s[k] = s[k] * x;
    }
}

// Takes the numbers of d off those of s.
pub fn take_all(s: &mut [f64], d: &[f64])
    requires { length d.now ≡ length s.old }
    ensures { s.new ≡ less s.old d.now }
{
    for k in 0..d.len() {
        s[k] = s[k] - d[k];
    }
}
