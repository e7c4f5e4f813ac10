// The square root of an f64, to the nearest f64.
ghost use Rattle.std.specs.Prelude.{◌≡◌, ◌+◌, ◌*◌, ◌^◌, ◌≤◌, ◌<◌};
ghost use Rattle.std.specs.Float.{binary64};
ghost use Rattle.common.specs.Root.{rounded_root};

// A guess at the whole part of the root of v, for a v from 2^52 to 2^54 with the pattern b: three
// steps of Newton's method for 1 / √v. Nothing is proved of it but that it is small.
fn guess(b: u64) -> u64
    requires { b < 2 ^ 62 + 2 ^ 61 }
    ensures { result < 2 ^ 28 }
{
    let v = f64::from_bits(b);
    let h = 0.5 * v;
    let y0 = f64::from_bits(0x5fe6_eb50_c7b5_37a9 - b / 2);
    let y1 = y0 * (1.5 - h * y0 * y0);
    let y2 = y1 * (1.5 - h * y1 * y1);
    let y3 = y2 * (1.5 - h * y2 * y2);
    let g = v * y3;
    if g != g {
        return 0;
    }
    // from 2^26 to 2^27 the pattern's digits count up by 1, and a little beyond still near enough
    let c = f64::to_bits(g);
    if c < 0x4180_0000_0000_0000 {
        return 0;
    }
    if c >= 0x41b0_0000_0000_0000 {
        return 0;
    }
    (c - 0x4180_0000_0000_0000) / 0x400_0000
}

// The guess s lowered until its square is at most n.
fn lowered(n: u64, s0: u64) -> u64
    requires { s0 < 2 ^ 28 }
    ensures { result * result ≤ n }
{
    let mut s = s0;
    // no count: how far the guess is above is not known before
    while n < s * s {
        s -= 1;
    }
    s
}

// A number whose square is at most n raised to the last such number: (s + 1)^2 is s^2 + 2 s + 1.
fn raised(n: u64, s0: u64) -> u64
    requires fact_1 { n < 2 ^ 54 }
    requires fact_2 { s0 * s0 ≤ n }
    ensures { (result * result ≤ n) × (n < (result + 1) * (result + 1)) }
{
    let mut s = s0;
    // no count: how far it is below is not known before
    while 2 * s < n - s * s {
        s += 1;
    }
    s
}

// The whole part of the root of n, from the guess at it, whatever that is.
fn root27(n: u64, b: u64) -> u64
    requires { (n < 2 ^ 54) × (b < 2 ^ 62 + 2 ^ 61) }
    ensures { (result * result ≤ n) × (n < (result + 1) * (result + 1)) }
{
    raised(n, lowered(n, guess(b)))
}

// The whole part of the root of n * 4^27: the whole part s of the root of n, and one division for
// the 27 digits below.
fn root54(n: u64, b: u64) -> u64
    requires fact_1 { 2 ^ 52 ≤ n }
    requires fact_2 { n < 2 ^ 54 }
    requires fact_3 { b < 2 ^ 62 + 2 ^ 61 }
    ensures { (result * result ≤ n * 2 ^ 54) × (n * 2 ^ 54 < (result + 1) * (result + 1)) }
{
    let s = root27(n, b);
    let w = (n - s * s) * 0x800_0000;
    let d = 2 * s;
    let t = w / d;
    let u = w % d;
    let r = s * 0x800_0000 + t;
    if u * 0x800_0000 < t * t { r - 1 } else { r }
}

// The root of q * 2^(g - 2096), rounded, for a q of 53 digits.
pub fn root_float(q: u64, g: u64) -> f64
    requires fact_1 { 2 ^ 52 ≤ q }
    requires fact_2 { q < 2 ^ 53 }
    requires fact_3 { g < 4090 }
    ensures { result ≡ rounded_root binary64 (q * 2 ^ (g + 54)) 1075 }
{
    let p = g % 2;
    let n = q << p;
    let r = root54(n, (1074 + p) * 0x10_0000_0000_0000 + q);
    f64::from_bits(g / 2 * 0x10_0000_0000_0000 + (r + 1) / 2)
}
