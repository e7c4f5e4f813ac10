// A block rotated by one 3 by 3 matrix on each leg: the coefficients are worked out once and serve every block of a call, and the sums of
// many places go side by side. Each sum has the same terms in the same order as if it stood alone.
#![tactic(auto)]

pub mod orders;

ghost use Rattle.std.specs.Prelude.{◌≡◌, ℕ, ◌+◌, ◌*◌, ◌<◌, ◌≤◌, length, get_or};
ghost use Rattle.std.specs.Float.{nan};
ghost use Rattle.blocks.specs.Block.{put_block};
ghost use Rattle.rotations.specs.Rotation.{coefficients, widened_at, widened, shared, sums};

// The coefficients of old number q, from those of one leg less: before has w * w, into has 9 * w * w.
fn widen_row(into: &mut [f64], before: &[f64], m: &[f64; 9], w: usize, q: usize)
    requires w_bound { (w ≤ 27) × (q < 3 * w) × (length into.old ≡ 3 * w * (3 * w)) × (length before.now ≡ w * w) }
    requires by_index { (k : ℕ) → k < q * (3 * w) → get_or into.old k nan ≡ widened_at w before.now m.now k }
    ensures { (k : ℕ) → k < q * (3 * w) + w * 3 → get_or into.new k nan ≡ widened_at w before.now m.now k }
{
    let d = q % 3;
    let x = m[d];
    let y = m[3 + d];
    let z = m[6 + d];
    let from = q / 3 * w;
    let row = q * (3 * w);
    for a in 0..w {
        let b = before[from + a];
        let at = row + a * 3;
        into[at] = b * x;
        into[at + 1] = b * y;
        into[at + 2] = b * z;
    }
}

// The coefficients of one leg more.
fn widen(into: &mut [f64], before: &[f64], m: &[f64; 9], w: usize)
    requires { (w ≤ 27) × (length into.old ≡ 3 * w * (3 * w)) × (length before.now ≡ w * w) }
    ensures { into.new ≡ widened w before.now m.now }
{
    for q in 0..3 * w {
        widen_row(into, before, m, w, q);
    }
}

// Puts the coefficients of a block of two legs into c, whatever it held.
pub fn put_coefficients2(c: &mut [f64; 81], m: [f64; 9])
    ensures { c.new ≡ coefficients m 2 9 }
{
    let t = blocks::transposed9(m);
    widen(c, &t, &m, 3);
}

// The coefficients of a block of two legs.
pub fn coefficients2(m: [f64; 9]) -> [f64; 81]
    ensures { result ≡ coefficients m 2 9 }
{
    let mut c = [0.0f64; 81];
    put_coefficients2(&mut c, m);
    c
}

// One old number's share in nine sums.
fn share9(s: [f64; 9], c: &[f64], at: usize, x: f64) -> [f64; 9]
    requires { at + 9 ≤ length c.now }
    ensures { result ≡ shared 9 s c.now at x }
{
    let mut r = s;
    for p in 0..9usize {
        r[p] = r[p] + c[at + p] * x;
    }
    r
}

// The sums of nine places from first on.
fn sums9(c: &[f64], t: &[f64], first: usize) -> [f64; 9]
    requires { (length t.now ≤ 81) × (first + 9 ≤ length t.now) × (length c.now ≡ length t.now * length t.now) }
    ensures { result ≡ sums 9 (length t.now) (length t.now) first c.now t.now }
{
    let w = t.len();
    let mut s = [0.0f64; 9];
    for q in 0..w {
        let n = share9(s, c, q * w + first, t[q]);
        s = n;
    }
    s
}

// A block of two legs, each new number the sum of the old ones times their coefficients: with the coefficients of a matrix the block rotated by it.
pub fn rotated9(c: &[f64; 81], t: [f64; 9]) -> [f64; 9]
    ensures { result ≡ sums 9 9 9 0 c.now t }
{
    sums9(c, &t, 0)
}

// Puts the coefficients of a block of three legs into c, whatever it held.
pub fn put_coefficients3(c: &mut [f64; 729], m: [f64; 9])
    ensures { c.new ≡ coefficients m 3 27 }
{
    let b = coefficients2(m);
    widen(c, &b, &m, 9);
}

// The coefficients of a block of three legs.
pub fn coefficients3(m: [f64; 9]) -> [f64; 729]
    ensures { result ≡ coefficients m 3 27 }
{
    let mut c = [0.0f64; 729];
    put_coefficients3(&mut c, m);
    c
}

// Puts the coefficients of a block of four legs into c, whatever it held.
pub fn put_coefficients4(c: &mut [f64; 6561], m: [f64; 9])
    ensures { c.new ≡ coefficients m 4 81 }
{
    let b = coefficients3(m);
    widen(c, &b, &m, 27);
}

// The coefficients of a block of four legs.
pub fn coefficients4(m: [f64; 9]) -> [f64; 6561]
    ensures { result ≡ coefficients m 4 81 }
{
    let mut c = [0.0f64; 6561];
    put_coefficients4(&mut c, m);
    c
}

// One old number's share in 18 sums: nine pairs, which is what the registers hold well.
fn share18(s: [f64; 18], c: &[f64], at: usize, x: f64) -> [f64; 18]
    requires { at + 18 ≤ length c.now }
    ensures { result ≡ shared 18 s c.now at x }
{
    let mut r = s;
    for p in 0..18usize {
        r[p] = r[p] + c[at + p] * x;
    }
    r
}

// The sums of 18 places from first on.
fn sums18(c: &[f64], t: &[f64], first: usize) -> [f64; 18]
    requires { (length t.now ≤ 81) × (first + 18 ≤ length t.now) × (length c.now ≡ length t.now * length t.now) }
    ensures { result ≡ sums 18 (length t.now) (length t.now) first c.now t.now }
{
    let w = t.len();
    let mut s = [0.0f64; 18];
    for q in 0..w {
        let n = share18(s, c, q * w + first, t[q]);
        s = n;
    }
    s
}

// One old number's share in 27 sums.
fn share27(s: [f64; 27], c: &[f64], at: usize, x: f64) -> [f64; 27]
    requires { at + 27 ≤ length c.now }
    ensures { result ≡ shared 27 s c.now at x }
{
    let mut r = s;
    for p in 0..27usize {
        r[p] = r[p] + c[at + p] * x;
    }
    r
}

// The same of three legs: all 27 sums side by side.
pub fn rotated27(c: &[f64; 729], t: [f64; 27]) -> [f64; 27]
    ensures { result ≡ sums 27 27 27 0 c.now t }
{
    let mut s = [0.0f64; 27];
    for q in 0..27usize {
        let n = share27(s, c, q * 27, t[q]);
        s = n;
    }
    s
}

// Puts v in the place of the 18 numbers from 18 * b on.
fn write18(r: &mut [f64], b: usize, v: [f64; 18])
    requires { b * 18 + 18 ≤ length r.old }
    ensures { r.new ≡ put_block 18 b v r.old }
{
    let at = b * 18;
    lists::copy_all(&mut r[at..at + 18], &v);
}

// The same of four legs: 18 sums side by side four times, then the last nine.
pub fn rotated81(c: &[f64; 6561], t: [f64; 81]) -> [f64; 81]
    ensures { result ≡ sums 81 81 81 0 c.now t }
{
    let mut r = [0.0f64; 81];
    for h in 0..4usize {
        let s = sums18(c, &t, h * 18);
        write18(&mut r, h, s);
    }
    let s = sums9(c, &t, 72);
    blocks::write9(&mut r, 8, s);
    r
}
