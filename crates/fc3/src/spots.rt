// The means of a group written to their spots one by one, for groups of which some blocks are the same one: the later of two positions that go to
// one place holds.
ghost use Rattle.std.specs.Prelude.{◌≡◌, [], ◌∷◌, ◌+◌, ◌*◌, ◌<◌, length, set};
ghost use Rattle.places.specs.Permutations.{perms3};
ghost use Rattle.orbits.specs.Groups.{spots, spread_block};
ghost use Rattle.orbits.specs.Spread.{set_all};
ghost use Rattle.fc3.specs.Mean.{Blocks6};
ghost use Rattle.fc3.specs.Spread.{line_at, plane_at};
ghost use Rattle.fc3.specs.Coinciding.{first_at, copy_six, Six, flat};

use places::dir3;

// x written at directions l, m, n of block s of the group.
fn put(group: &mut [[f64; 27]; 6], s: usize, l: usize, m: usize, n: usize, x: f64)
    requires { Six group.old × (s < 6) × (l < 3) × (m < 3) × (n < 3) }
    ensures { Six group.new × (flat group.new ≡ set (flat group.old) (s * 27 + ((l * 3 + m) * 3 + n)) x) }
{
    let at = dir3(l, m, n);
    group[s][at] = x;
}

// The mean x of directions l, m, n written to its six places.
fn put_spots(
    group: &mut [[f64; 27]; 6],
    s0: usize,
    s1: usize,
    s2: usize,
    s3: usize,
    s4: usize,
    s5: usize,
    l: usize,
    m: usize,
    n: usize,
    x: f64,
)
    requires { Six group.old × Blocks6 162 s0 s1 s2 s3 s4 s5 × (l < 3) × (m < 3) × (n < 3) }
    ensures { Six group.new
        × (flat group.new ≡ set_all (spots 2 perms3 (s0 ∷ s1 ∷ s2 ∷ s3 ∷ s4 ∷ s5 ∷ []) ((l * 3 + m) * 3 + n)) x (flat group.old)) }
{
    put(group, s0, l, m, n, x);
    put(group, s1, l, n, m, x);
    put(group, s2, m, l, n, x);
    put(group, s3, m, n, l, x);
    put(group, s4, n, l, m, x);
    put(group, s5, n, m, l, x);
}

// The positions of directions l, m.
fn put_line(
    group: &mut [[f64; 27]; 6],
    s0: usize,
    s1: usize,
    s2: usize,
    s3: usize,
    s4: usize,
    s5: usize,
    l: usize,
    m: usize,
    v: [f64; 27],
)
    requires { Six group.old × Blocks6 162 s0 s1 s2 s3 s4 s5 × (l < 3) × (m < 3) }
    ensures { Six group.new × (flat group.new ≡ line_at (s0 ∷ s1 ∷ s2 ∷ s3 ∷ s4 ∷ s5 ∷ []) v l m (flat group.old)) }
{
    for n in 0..3 {
        let k = dir3(l, m, n);
        put_spots(group, s0, s1, s2, s3, s4, s5, l, m, n, v[k]);
    }
}

// The positions of direction l.
fn put_plane(
    group: &mut [[f64; 27]; 6],
    s0: usize,
    s1: usize,
    s2: usize,
    s3: usize,
    s4: usize,
    s5: usize,
    l: usize,
    v: [f64; 27],
)
    requires { Six group.old × Blocks6 162 s0 s1 s2 s3 s4 s5 × (l < 3) }
    ensures { Six group.new × (flat group.new ≡ plane_at (s0 ∷ s1 ∷ s2 ∷ s3 ∷ s4 ∷ s5 ∷ []) v l (flat group.old)) }
{
    for m in 0..3 {
        put_line(group, s0, s1, s2, s3, s4, s5, l, m, v);
    }
}

// Position after position: where two of the blocks are the same one, the last position that writes a place holds.
fn put_planes(
    group: &mut [[f64; 27]; 6],
    s0: usize,
    s1: usize,
    s2: usize,
    s3: usize,
    s4: usize,
    s5: usize,
    v: [f64; 27],
)
    requires { Six group.old × Blocks6 162 s0 s1 s2 s3 s4 s5 }
    ensures { Six group.new × (flat group.new ≡ spread_block 2 perms3 (s0 ∷ s1 ∷ s2 ∷ s3 ∷ s4 ∷ s5 ∷ []) v (flat group.old)) }
{
    for l in 0..3 {
        put_plane(group, s0, s1, s2, s3, s4, s5, l, v);
    }
}

// Which of the group's blocks stands for block b: the first that is the same one.
fn slot(b: usize, b0: usize, b1: usize, b2: usize, b3: usize, b4: usize) -> usize
    ensures { (result ≡ first_at (b0 ∷ b1 ∷ b2 ∷ b3 ∷ b4 ∷ []) b) × (result < 6) }
{
    if b0 == b {
        return 0;
    }
    if b1 == b {
        return 1;
    }
    if b2 == b {
        return 2;
    }
    if b3 == b {
        return 3;
    }
    if b4 == b {
        return 4;
    }
    5
}

// The group's six blocks written whole.
fn copy_blocks(
    fc3: &mut [f64],
    b0: usize,
    b1: usize,
    b2: usize,
    b3: usize,
    b4: usize,
    b5: usize,
    group: [[f64; 27]; 6],
    s0: usize,
    s1: usize,
    s2: usize,
    s3: usize,
    s4: usize,
    s5: usize,
)
    requires { Blocks6 (length fc3.old) b0 b1 b2 b3 b4 b5 × Six group × Blocks6 162 s0 s1 s2 s3 s4 s5 }
    ensures { fc3.new ≡ copy_six b0 b1 b2 b3 b4 b5 s0 s1 s2 s3 s4 s5 group fc3.old }
{
    blocks::write27(fc3, b0, group[s0]);
    blocks::write27(fc3, b1, group[s1]);
    blocks::write27(fc3, b2, group[s2]);
    blocks::write27(fc3, b3, group[s3]);
    blocks::write27(fc3, b4, group[s4]);
    blocks::write27(fc3, b5, group[s5]);
}

// Blocks of which some may be the same one: the six blocks are filled as values, and written whole.
pub fn put_positions(
    fc3: &mut [f64],
    b0: usize,
    b1: usize,
    b2: usize,
    b3: usize,
    b4: usize,
    b5: usize,
    v: [f64; 27],
)
    requires { Blocks6 (length fc3.old) b0 b1 b2 b3 b4 b5 }
    ensures { fc3.new ≡ spread_block 2 perms3 (b0 ∷ b1 ∷ b2 ∷ b3 ∷ b4 ∷ b5 ∷ []) v fc3.old }
{
    let s0 = slot(b0, b0, b1, b2, b3, b4);
    let s1 = slot(b1, b0, b1, b2, b3, b4);
    let s2 = slot(b2, b0, b1, b2, b3, b4);
    let s3 = slot(b3, b0, b1, b2, b3, b4);
    let s4 = slot(b4, b0, b1, b2, b3, b4);
    let s5 = slot(b5, b0, b1, b2, b3, b4);
    let mut group = [[0.0f64; 27]; 6];
    put_planes(&mut group, s0, s1, s2, s3, s4, s5, v);
    copy_blocks(fc3, b0, b1, b2, b3, b4, b5, group, s0, s1, s2, s3, s4, s5);
}
