// The drift reports of third and fourth order: how far the sums over each leg of the read-out are from zero. No full set is made: each block is read
// where it is stored.
#![tactic(auto)]

pub mod fourth;
pub mod third;

ghost use Rattle.std.specs.Prelude.{◌≡◌, length, get_or};
ghost use Rattle.std.specs.Float.{nan, binary64};
ghost use Rattle.std.specs.Float.Ieee.{add};
ghost use Rattle.lists.specs.Tab.{tab};

// Adds the numbers of b to those of s.
pub fn add_all(s: &mut [f64], b: &[f64])
    requires { length b.now ≡ length s.old }
    ensures { s.new ≡ tab (length s.old) (λ k. add binary64 (get_or s.old k nan) (get_or b.now k nan)) }
{
    for k in 0..b.len() {
        s[k] = s[k] + b[k];
    }
}
