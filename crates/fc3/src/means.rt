// The mean over the six permutations of three legs, block by block.

ghost use Rattle.std.specs.Prelude.{◌≡◌, [], ◌∷◌, ◌+◌, length};
ghost use Rattle.places.specs.Permutations.{perms3};
ghost use Rattle.orbits.specs.Groups.{mean_block};
ghost use Rattle.fc3.specs.Mean.{mean6 as mean_of, plus27 as plusOf, sixths as sixthsOf, Blocks6};

// Position by position the sums of two blocks.
fn plus(v: [f64; 27], w: [f64; 27]) -> [f64; 27]
    ensures { result ≡ plusOf v w }
{
    let mut r = [0.0f64; 27];
    for k in 0..27 {
        r[k] = v[k] + w[k];
    }
    r
}

// Position by position a sixth of a block.
fn sixths(v: [f64; 27]) -> [f64; 27]
    ensures { result ≡ sixthsOf v }
{
    let mut r = [0.0f64; 27];
    for k in 0..27 {
        r[k] = v[k] / 6.0;
    }
    r
}

// The means of a group whose blocks are given in the order ijk, ikj, jik, jki, kij, kji. One block after the other is permuted to the
// directions of the first and added, so that the 27 sums stay in registers. It is for groups of six different blocks alone: a function that is
// called from one place is compiled into its caller, and the means need not pass through memory.
pub fn group_means(
    fc3: &[f64],
    b0: usize,
    b1: usize,
    b2: usize,
    b3: usize,
    b4: usize,
    b5: usize,
) -> [f64; 27]
    requires { Blocks6 (length fc3.now) b0 b1 b2 b3 b4 b5 }
    ensures { result ≡ mean_block mean_of 2 perms3 (b0 ∷ b1 ∷ b2 ∷ b3 ∷ b4 ∷ b5 ∷ []) fc3.now }
{
    let ijk = blocks::read27(fc3, b0);
    let ikj = plus(ijk, blocks::permute::permute_lnm(blocks::read27(fc3, b1)));
    let jik = plus(ikj, blocks::permute::permute_mln(blocks::read27(fc3, b2)));
    let jki = plus(jik, blocks::permute::permute_mnl(blocks::read27(fc3, b3)));
    let kij = plus(jki, blocks::permute::permute_nlm(blocks::read27(fc3, b4)));
    let kji = plus(kij, blocks::permute::permute_nml(blocks::read27(fc3, b5)));
    sixths(kji)
}

// The same for groups of which some blocks may be the same one.
pub fn any_means(
    fc3: &[f64],
    b0: usize,
    b1: usize,
    b2: usize,
    b3: usize,
    b4: usize,
    b5: usize,
) -> [f64; 27]
    requires { Blocks6 (length fc3.now) b0 b1 b2 b3 b4 b5 }
    ensures { result ≡ mean_block mean_of 2 perms3 (b0 ∷ b1 ∷ b2 ∷ b3 ∷ b4 ∷ b5 ∷ []) fc3.now }
{
    let ijk = blocks::read27(fc3, b0);
    let ikj = plus(ijk, blocks::permute::permute_lnm(blocks::read27(fc3, b1)));
    let jik = plus(ikj, blocks::permute::permute_mln(blocks::read27(fc3, b2)));
    let jki = plus(jik, blocks::permute::permute_mnl(blocks::read27(fc3, b3)));
    let kij = plus(jki, blocks::permute::permute_nlm(blocks::read27(fc3, b4)));
    let kji = plus(kij, blocks::permute::permute_nml(blocks::read27(fc3, b5)));
    sixths(kji)
}

// The means of the blocks aac, aca and caa, each read once.
pub fn means_first_two(fc3: &[f64], aac: usize, aca: usize, caa: usize) -> [f64; 27]
    requires { Blocks6 (length fc3.now) aac aca aac aca caa caa }
    ensures { result ≡ mean_block mean_of 2 perms3 (aac ∷ aca ∷ aac ∷ aca ∷ caa ∷ caa ∷ []) fc3.now }
{
    let x = blocks::read27(fc3, aac);
    let y = blocks::read27(fc3, aca);
    let z = blocks::read27(fc3, caa);
    let ikj = plus(x, blocks::permute::permute_lnm(y));
    let jik = plus(ikj, blocks::permute::permute_mln(x));
    let jki = plus(jik, blocks::permute::permute_mnl(y));
    let kij = plus(jki, blocks::permute::permute_nlm(z));
    let kji = plus(kij, blocks::permute::permute_nml(z));
    sixths(kji)
}

// The means of the blocks abb, bab and bba.
pub fn means_last_two(fc3: &[f64], abb: usize, bab: usize, bba: usize) -> [f64; 27]
    requires { Blocks6 (length fc3.now) abb abb bab bba bab bba }
    ensures { result ≡ mean_block mean_of 2 perms3 (abb ∷ abb ∷ bab ∷ bba ∷ bab ∷ bba ∷ []) fc3.now }
{
    let x = blocks::read27(fc3, abb);
    let y = blocks::read27(fc3, bab);
    let z = blocks::read27(fc3, bba);
    let ikj = plus(x, blocks::permute::permute_lnm(x));
    let jik = plus(ikj, blocks::permute::permute_mln(y));
    let jki = plus(jik, blocks::permute::permute_mnl(z));
    let kij = plus(jki, blocks::permute::permute_nlm(y));
    let kji = plus(kij, blocks::permute::permute_nml(z));
    sixths(kji)
}
