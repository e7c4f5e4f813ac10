// Blocks of 27 numbers in which two positions have one number, the later one's. Written out, as the permuted blocks are.
ghost use Rattle.std.specs.Prelude.{◌≡◌};
ghost use Rattle.blocks.specs.Permuted.{gathered};
ghost use Rattle.fc3.specs.Later.{later_mln, later_lnm};

// Of the positions (l, m, n) and (m, l, n) the number of the later one: what blocks hold whose first two legs have the same atom.
pub fn later_mln(v: [f64; 27]) -> [f64; 27]
    ensures { result ≡ gathered v later_mln }
{
    [
        v[0], v[1], v[2], v[9], v[10], v[11], v[18], v[19], v[20], v[9], v[10], v[11], v[12],
        v[13], v[14], v[21], v[22], v[23], v[18], v[19], v[20], v[21], v[22], v[23], v[24], v[25],
        v[26],
    ]
}

// The same of the positions (l, m, n) and (l, n, m).
pub fn later_lnm(v: [f64; 27]) -> [f64; 27]
    ensures { result ≡ gathered v later_lnm }
{
    [
        v[0], v[3], v[6], v[3], v[4], v[7], v[6], v[7], v[8], v[9], v[12], v[15], v[12], v[13],
        v[16], v[15], v[16], v[17], v[18], v[21], v[24], v[21], v[22], v[25], v[24], v[25], v[26],
    ]
}
