// Blocks of 27 numbers with their directions permuted: number (l, m, n) of the result is the number of the block at the
// directions that the function is named for. Written out, so that the compiler moves the numbers without working out any place.
ghost use Rattle.std.specs.Prelude.{◌≡◌};
ghost use Rattle.blocks.specs.Permuted.{gathered, lnm, mln, mnl, nlm, nml};

pub fn permute_lnm(v: [f64; 27]) -> [f64; 27]
    ensures { result ≡ gathered v lnm }
{
    [
        v[0], v[3], v[6], v[1], v[4], v[7], v[2], v[5], v[8], v[9], v[12], v[15], v[10], v[13],
        v[16], v[11], v[14], v[17], v[18], v[21], v[24], v[19], v[22], v[25], v[20], v[23], v[26],
    ]
}

pub fn permute_mln(v: [f64; 27]) -> [f64; 27]
    ensures { result ≡ gathered v mln }
{
    [
        v[0], v[1], v[2], v[9], v[10], v[11], v[18], v[19], v[20], v[3], v[4], v[5], v[12], v[13],
        v[14], v[21], v[22], v[23], v[6], v[7], v[8], v[15], v[16], v[17], v[24], v[25], v[26],
    ]
}

pub fn permute_mnl(v: [f64; 27]) -> [f64; 27]
    ensures { result ≡ gathered v mnl }
{
    [
        v[0], v[3], v[6], v[9], v[12], v[15], v[18], v[21], v[24], v[1], v[4], v[7], v[10], v[13],
        v[16], v[19], v[22], v[25], v[2], v[5], v[8], v[11], v[14], v[17], v[20], v[23], v[26],
    ]
}

pub fn permute_nlm(v: [f64; 27]) -> [f64; 27]
    ensures { result ≡ gathered v nlm }
{
    [
        v[0], v[9], v[18], v[1], v[10], v[19], v[2], v[11], v[20], v[3], v[12], v[21], v[4], v[13],
        v[22], v[5], v[14], v[23], v[6], v[15], v[24], v[7], v[16], v[25], v[8], v[17], v[26],
    ]
}

pub fn permute_nml(v: [f64; 27]) -> [f64; 27]
    ensures { result ≡ gathered v nml }
{
    [
        v[0], v[9], v[18], v[3], v[12], v[21], v[6], v[15], v[24], v[1], v[10], v[19], v[4], v[13],
        v[22], v[7], v[16], v[25], v[2], v[11], v[20], v[5], v[14], v[23], v[8], v[17], v[26],
    ]
}
