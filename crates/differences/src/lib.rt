// The difference reports: how far the numbers differ that the permutations of the same legs read out.
// One block, whatever the rank: bs has the block of each permutation, with width numbers in each; t has the position that each permutation gives to
// each position of a block, a row for each.
#![tactic(auto)]

pub mod any_order;
pub mod fourth;
pub mod second;
pub mod third;

ghost use Rattle.std.specs.Prelude.{◌≡◌, ◌+◌, ◌*◌, ◌<◌, ◌≤◌, length};
ghost use Rattle.audits.specs.Kernel.{BlocksFit};
ghost use Rattle.differences.specs.Laws.{look_place, look_block};

use audits::kernel::{own, read};
use places::index_of;
use reports::seen::{Seen, look};

// Looks at position k of block b: at what each permutation reads there, minus the number that stands there.
fn look_place(fc: &[f64], bs: &[usize], t: &[u8], width: usize, b: usize, k: usize, c: Seen) -> Seen
    requires { BlocksFit (length fc.now) width b bs.now t.now × (k < width) × (length fc.now < 281474976710656) }
    ensures { result ≡ look_place width bs.now t.now fc.now b k c }
{
    let here = own(fc, width, b, k);
    let place = index_of(b, width, k);
    let mut seen = c;
    for i in 0..bs.len() {
        let there = read(fc, bs, t, width, i, k);
        seen = look(index_of(place, bs.len(), i), there - here, seen);
    }
    seen
}

// Looks at all positions of block b.
pub fn look_block(fc: &[f64], bs: &[usize], t: &[u8], width: usize, b: usize, c: Seen) -> Seen
    requires { BlocksFit (length fc.now) width b bs.now t.now × (length fc.now < 281474976710656) }
    ensures { result ≡ look_block width bs.now t.now fc.now b c }
{
    let mut seen = c;
    for k in 0..width {
        seen = look_place(fc, bs, t, width, b, k, seen);
    }
    seen
}
