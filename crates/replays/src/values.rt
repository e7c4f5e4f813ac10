// The numbers of a set that the recorder and the replay programs both make from a seed, tables read from a record, and
// the checksum over a slice.
ghost use Rattle.std.specs.Prelude.{◌≡◌, ℕ, ◌+◌, ◌%◌, ◌^◌, ◌<◌, length, slice_index_or};
ghost use Rattle.lists.specs.Tab.{tab, times};
ghost use Rattle.replays.specs.Values.{stirred, drawn, class_of, shaped_bits, value_at, byte_at, integer_at, table_entry, float_at, byte_of, mixed_float, mixed_integer};
ghost use Rattle.replays.specs.Words.{mixed_number};

use crate::records::{float, integer, integer_word, mix, wide, word_of};
use crate::steps::after;
use common::float_word;
use places::index_of;

// For each of sixteen kinds of set the classes of sixteen numbers, one of which is drawn. 0: an ordinary number,
// 1: a zero of either sign, 2: a subnormal number, 3: a huge one, 4: an infinity, 5: NaN, 6: any pattern, 7: -0.0,
// 8: an ordinary number that is not negative, 9: one of the largest, of which no two can be added.
const CLASSES: [u64; 256] = [
    0, 0, 0, 0, 0, 0, 0, 0, 0, 0, 0, 0, 0, 0, 0, 0, 1, 1, 1, 1, 1, 1, 1, 1, 1, 1, 2, 2, 2, 2, 0, 0,
    3, 3, 3, 3, 3, 3, 3, 3, 0, 0, 0, 0, 0, 0, 0, 1, 4, 0, 0, 0, 0, 0, 0, 0, 0, 0, 0, 0, 0, 0, 0, 0,
    5, 0, 0, 0, 0, 0, 0, 0, 0, 0, 0, 0, 0, 0, 0, 0, 6, 6, 6, 6, 6, 6, 6, 6, 6, 6, 6, 6, 6, 6, 6, 6,
    1, 1, 1, 1, 1, 1, 1, 1, 1, 1, 1, 1, 1, 1, 1, 1, 0, 0, 0, 0, 0, 0, 0, 0, 0, 1, 1, 2, 3, 4, 5, 6,
    7, 7, 7, 7, 7, 7, 7, 7, 7, 7, 7, 7, 7, 7, 7, 7, 8, 8, 8, 8, 8, 8, 8, 8, 8, 8, 8, 8, 8, 8, 8, 8,
    1, 1, 1, 1, 1, 1, 1, 1, 2, 2, 2, 2, 2, 2, 2, 2, 9, 9, 9, 9, 9, 9, 9, 9, 9, 9, 9, 9, 9, 9, 9, 9,
    0, 0, 0, 0, 0, 0, 0, 0, 0, 0, 0, 0, 0, 0, 0, 0, 0, 0, 0, 0, 0, 0, 0, 0, 0, 0, 0, 0, 0, 0, 0, 0,
    0, 0, 0, 0, 0, 0, 0, 0, 0, 0, 0, 0, 0, 0, 0, 0, 0, 0, 0, 0, 0, 0, 0, 0, 0, 0, 0, 0, 0, 0, 0, 0,
];

// The bits of a pattern that a number of each class keeps, and those that are set in it: two lists, as the definitions have them, whose lines are
// read beside one another.
const KEPT: [u64; 16] = [
    0x807f_ffff_ffff_ffff,
    0x8000_0000_0000_0000,
    0x800f_ffff_ffff_ffff,
    0x801f_ffff_ffff_ffff,
    0x8000_0000_0000_0000,
    0,
    0xffff_ffff_ffff_ffff,
    0,
    0x007f_ffff_ffff_ffff,
    0x800f_ffff_ffff_ffff,
    0,
    0,
    0,
    0,
    0,
    0,
];

const SET: [u64; 16] = [
    0x3f80_0000_0000_0000,
    0,
    0,
    0x7fc0_0000_0000_0000,
    0x7ff0_0000_0000_0000,
    0x7ff8_0000_0000_0000,
    0,
    0x8000_0000_0000_0000,
    0x3f80_0000_0000_0000,
    0x7fe0_0000_0000_0000,
    0,
    0,
    0,
    0,
    0,
    0,
];

// The number that is drawn after h.
fn stir(h: u64) -> u64
    requires { h < 4294967291 }
    ensures { (result ≡ stirred h) × (result < 4294967291) }
{
    mix(h * h % 4294967291, h)
}

// What is drawn first for place i of a slice with this seed.
fn draw(seed: u64, i: usize) -> u64
    ensures { (result ≡ drawn seed i) × (result < 4294967291) }
{
    stir(mix(seed, i as u64))
}

// The class of a number of the kind, by the first number that is drawn for it.
fn class(kind: u64, a: u64) -> u64
    ensures { result ≡ class_of kind a }
{
    CLASSES[index_of((kind % 16) as usize, 16, (a % 16) as usize)]
}

// The pattern b as that of a number of the class.
fn shaped(class: u64, b: u64) -> u64
    ensures { result ≡ shaped_bits class b }
{
    let c = (class % 16) as usize;
    (b & KEPT[c]) | SET[c]
}

// Number i of a set with this seed and of this kind.
pub fn value(seed: u64, kind: u64, i: usize) -> f64
    ensures { result ≡ value_at seed kind i }
{
    let a = draw(seed, i);
    let b = stir(a);
    let c = stir(b);
    float(shaped(class(kind, a), b + 4294967296 * c))
}

// Puts f(i) at each place i of a slice.
fn fill_by<T: Copy, F: Fn(usize) -> T>(out: &mut [T], f: F)
    requires { F.IsAlwaysCallable f }
    ensures { (d : T) (k : ℕ) → k < length out.old → F.post f k (slice_index_or out.new k d) }
{
    for i in 0..out.len() {
        out[i] = f(i);
    }
}

// Fills a set.
pub fn fill(out: &mut [f64], seed: u64, kind: u64)
    ensures { out.new ≡ tab (length out.old) (λ i. value_at seed kind i) }
{
    fill_by(out, |i| value(seed, kind, i));
}

// A byte of a work slice.
fn byte(seed: u64, i: usize) -> u8
    ensures { result ≡ byte_at seed i }
{
    (draw(seed, i) % 256) as u8
}

// Fills a work slice of bytes.
pub fn fill_bytes(out: &mut [u8], seed: u64)
    ensures { out.new ≡ tab (length out.old) (λ i. byte_at seed i) }
{
    fill_by(out, |i| byte(seed, i));
}

// An integer of a work slice.
fn whole(seed: u64, i: usize) -> i64
    ensures { result ≡ integer_at seed i }
{
    draw(seed, i) as i64
}

// Fills a work slice of integers.
pub fn fill_integers(out: &mut [i64], seed: u64)
    ensures { out.new ≡ tab (length out.old) (λ i. integer_at seed i) }
{
    fill_by(out, |i| whole(seed, i));
}

// Entry i of a table whose entries are the words of the record from number `from` on.
fn entry(r: &[u8], from: usize, i: usize) -> i64
    ensures { result ≡ table_entry r.now from i }
{
    integer(word_of(r, after(from, i)))
}

// Reads a table: the words of the record from number `from` on.
pub fn integers(r: &[u8], from: usize, out: &mut [i64])
    ensures { out.new ≡ tab (length out.old) (λ i. table_entry r.now from i) }
{
    fill_by(out, |i| entry(r, from, i));
}

// Reads a slice of floats: the words of the record from number `from` on.
pub fn floats(r: &[u8], from: usize, out: &mut [f64])
    ensures { out.new ≡ tab (length out.old) (λ i. float_at r.now from i) }
{
    fill_by(out, |i| float(word_of(r, after(from, i))));
}

// Byte k of a record, 0 past its end.
fn byte_of(r: &[u8], k: usize) -> u8
    ensures { result ≡ byte_of r.now k }
{
    r.get(k).copied().unwrap_or(0)
}

// Reads a slice of bytes: those of the record from byte `from` on.
pub fn bytes(r: &[u8], from: usize, out: &mut [u8])
    ensures { out.new ≡ tab (length out.old) (λ i. byte_of r.now ((from + i) % 2 ^ 64)) }
{
    fill_by(out, |i| byte_of(r, after(from, i)));
}

// The checksum h after the numbers of a slice.
pub fn mix_floats(s: &[f64], h: u64) -> u64
    ensures { result ≡ times (length s.now) (λ i. mixed_float s.now i) h }
{
    s.iter().fold(h, |g, x| mix(g, float_word(*x)))
}

// The checksum h after the bytes of a slice.
pub fn mix_bytes(s: &[u8], h: u64) -> u64
    ensures { result ≡ times (length s.now) (λ i. mixed_number s.now i) h }
{
    s.iter().fold(h, |g, x| mix(g, wide(*x)))
}

// The checksum h after the integers of a slice.
pub fn mix_integers(s: &[i64], h: u64) -> u64
    ensures { result ≡ times (length s.now) (λ i. mixed_integer s.now i) h }
{
    s.iter().fold(h, |g, x| mix(g, integer_word(*x)))
}

// The checksum h after the slots of a place.
pub fn mix_slots(s: &[usize], h: u64) -> u64
    ensures { result ≡ times (length s.now) (λ i. mixed_number s.now i) h }
{
    s.iter().fold(h, |g, x| mix(g, *x as u64))
}
