// Recorded words, floats by their bits, and the checksum over all that was worked out: what the replay programs share.
ghost use Rattle.std.specs.Prelude.{◌≡◌, ◌+◌, ◌-◌, ◌<◌, ◌≤◌, length, if◌then◌else◌, from_bits, nat_eq};
ghost use Rattle.std.specs.Int.{w64};
ghost use Rattle.std.proofs.Common.{of_z, to_z};
ghost use Rattle.std.specs.Float.{binary64};
ghost use Rattle.lists.specs.Tab.{times};
ghost use Rattle.replays.specs.Words.{half_at, word_at, word_of, records_in, record_end, mixed, mixed_at};

// A byte as a wide number.
pub fn wide(x: u8) -> u64
    ensures { (result ≡ x) × (result < 256) }
{
    u64::from(x)
}

// The four bytes at `at`, the lowest first.
fn half(s: &[u8], at: usize) -> u64
    requires { at + 4 ≤ length s.now }
    ensures { (result ≡ half_at s.now at) × (result < 4294967296) }
{
    u64::from(u32::from_le_bytes([s[at], s[at + 1], s[at + 2], s[at + 3]]))
}

// The eight bytes at `at`, the lowest first.
pub fn word(s: &[u8], at: usize) -> u64
    requires { at + 8 ≤ length s.now }
    ensures { result ≡ word_at s.now at }
{
    half(s, at) + 4294967296 * half(s, at + 4)
}

// Word number k of s, 0 past its end.
pub fn word_of(s: &[u8], k: usize) -> u64
    ensures { result ≡ word_of s.now k }
{
    if k < s.len() / 8 {
        return word(s, 8 * k);
    }
    0
}

// How many records a page has: as many as its first word says, and none where it is too short for them.
pub fn count(s: &[u8]) -> usize
    ensures { result ≡ records_in s.now }
{
    let said = word_of(s, 0) as usize;
    if said < s.len() / 8 {
        return said;
    }
    0
}

// Where the record at `at` ends, whose first word is the number of its other words; `at` if the page ends before.
pub fn end(s: &[u8], at: usize) -> usize
    requires { at ≤ length s.now }
    ensures { (result ≡ record_end s.now at) × (at ≤ result) × (result ≤ length s.now) }
{
    let room = (s.len() - at) / 8;
    if room == 0 {
        return at;
    }
    let n = word(s, at) as usize;
    if n < room {
        return at + 8 + 8 * n;
    }
    at
}

// The float of a pattern, every NaN's too.
pub fn float(b: u64) -> f64
    ensures { result ≡ from_bits binary64 b }
{
    if b % 0x8000_0000_0000_0000 > 0x7ff0_0000_0000_0000 {
        return f64::NAN;
    }
    f64::from_bits(b)
}

// The word of an integer, negative ones from the top down.
pub fn integer_word(n: i64) -> u64
    ensures { result ≡ of_z w64 n }
{
    n.cast_unsigned()
}

// The integer of a word: those from 2^63 on are negative.
pub fn integer(w: u64) -> i64
    ensures { result ≡ to_z w64 w }
{
    w.cast_signed()
}

// 1 where the two words differ, else 0.
pub fn differs(got: u64, want: u64) -> u64
    ensures { result ≡ (if nat_eq got want then 0 else 1) }
{
    u64::from(got != want)
}

// The checksum h after one word more.
pub fn mix(h: u64, w: u64) -> u64
    ensures { result ≡ mixed h w }
{
    (h % 4294967291 * 1000003 + w % 4294967291) % 4294967291
}

// The checksum h after the words of s that are numbered from `from` to before `to`.
pub fn mix_words(s: &[u8], from: usize, to: usize, h: u64) -> u64
    ensures { result ≡ times (to - from) (λ i. mixed_at s.now (from + i)) h }
{
    let mut g = h;
    for k in from..to {
        g = mix(g, word_of(s, k));
    }
    g
}
