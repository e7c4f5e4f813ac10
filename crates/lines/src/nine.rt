// Blocks of nine numbers as whole values, one 3 by 3 matrix each with its rows one after another, and 3 by 3 sums of blocks.
ghost use Rattle.std.specs.Prelude.{◌≡◌};
ghost use Rattle.lines.specs.Sums3x3 as nine;

// 3 by 3 sums and one block more.
pub fn more(s: [[f64; 3]; 3], b: [f64; 9]) -> [[f64; 3]; 3]
    ensures { result ≡ nine.more s b }
{
    [
        [s[0][0] + b[0], s[0][1] + b[1], s[0][2] + b[2]],
        [s[1][0] + b[3], s[1][1] + b[4], s[1][2] + b[5]],
        [s[2][0] + b[6], s[2][1] + b[7], s[2][2] + b[8]],
    ]
}

pub fn scaled(s: [[f64; 3]; 3], x: f64) -> [[f64; 3]; 3]
    ensures { result ≡ nine.scaled s x }
{
    [
        [s[0][0] * x, s[0][1] * x, s[0][2] * x],
        [s[1][0] * x, s[1][1] * x, s[1][2] * x],
        [s[2][0] * x, s[2][1] * x, s[2][2] * x],
    ]
}

// A block less a 3 by 3 drift.
pub fn less(b: [f64; 9], d: [[f64; 3]; 3]) -> [f64; 9]
    ensures { result ≡ nine.less b d }
{
    [
        b[0] - d[0][0],
        b[1] - d[0][1],
        b[2] - d[0][2],
        b[3] - d[1][0],
        b[4] - d[1][1],
        b[5] - d[1][2],
        b[6] - d[2][0],
        b[7] - d[2][1],
        b[8] - d[2][2],
    ]
}

// The mean of a block and another one transposed.
pub fn averaged(a: [f64; 9], b: [f64; 9]) -> [f64; 9]
    ensures { result ≡ nine.averaged a b }
{
    [
        (a[0] + b[0]) / 2.0,
        (a[1] + b[3]) / 2.0,
        (a[2] + b[6]) / 2.0,
        (a[3] + b[1]) / 2.0,
        (a[4] + b[4]) / 2.0,
        (a[5] + b[7]) / 2.0,
        (a[6] + b[2]) / 2.0,
        (a[7] + b[5]) / 2.0,
        (a[8] + b[8]) / 2.0,
    ]
}
