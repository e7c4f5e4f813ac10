// Blocks of nine numbers as whole values, beside what lines need: two of them added, and the on-site block from 3 by 3 sums.
ghost use Rattle.std.specs.Prelude.{◌≡◌};
ghost use Rattle.lines.specs.Sums3x3 as nine;

// Two blocks, number by number.
pub fn added(s: [f64; 9], b: [f64; 9]) -> [f64; 9]
    ensures { result ≡ nine.added s b }
{
    [
        s[0] + b[0],
        s[1] + b[1],
        s[2] + b[2],
        s[3] + b[3],
        s[4] + b[4],
        s[5] + b[5],
        s[6] + b[6],
        s[7] + b[7],
        s[8] + b[8],
    ]
}

// The on-site block by the acoustic sum rule, from the sums over the other atoms: -(sums + transposed sums) / 2.
pub fn balance(s: [[f64; 3]; 3]) -> [f64; 9]
    ensures { result ≡ nine.balance s }
{
    [
        -(s[0][0] + s[0][0]) / 2.0,
        -(s[0][1] + s[1][0]) / 2.0,
        -(s[0][2] + s[2][0]) / 2.0,
        -(s[1][0] + s[0][1]) / 2.0,
        -(s[1][1] + s[1][1]) / 2.0,
        -(s[1][2] + s[2][1]) / 2.0,
        -(s[2][0] + s[0][2]) / 2.0,
        -(s[2][1] + s[1][2]) / 2.0,
        -(s[2][2] + s[2][2]) / 2.0,
    ]
}
